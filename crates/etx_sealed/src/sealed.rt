//! Sealed paragraphs.
ghost use Rattle.std.specs.Prelude.{◌≡◌, IfOk};
ghost use Rattle.etx_matter.specs.Nests.{AreNested};
ghost use Rattle.etx_sealed.specs.Paragraphs.{sealed};

use crate::finishing::{finished, finite_skips, made_finite, some_infinite};
use crate::params::ParParams;
use etx_matter::Nodes;
use std::alloc::{AllocError, Global};
use std::marker::Model;
use std::sync::Arc;

/// A paragraph's list, finished and with finite shrink, and all that line breaking reads.
#[derive(Drop)]
pub struct Sealed {
    list: Nodes,
    params: Arc<ParParams, Global>,
    infinite: bool,
}

impl Model for Sealed {
    ghost use Rattle.std.specs.Arc.{arc_value};
    ghost use Rattle.etx_matter.specs.Nests.{AreNested};
    ghost use Rattle.std.specs.Coded.{codes};
    ghost use Rattle.etx_matter.specs.contracts.node.Node as node;
    ghost use Rattle.etx_sealed.specs.Paragraphs.{Paragraph};

    ghost Value = { Paragraph };

    ghost coded = { Prim.hlevel (codes, node.the_row.coded) };

    ghost view = { λ it. record { list = it.list; params = arc_value it.params; infinite = it.infinite } };

    ghost invariant = { λ it. AreNested it.list };
}

impl Sealed {
    /// A paragraph of this list. A last glue becomes a penalty of 10000, else one is added, and `\parfillskip` ends the
    /// list. Glue that shrinks infinitely, and `\leftskip` and `\rightskip` likewise, get as much finite shrink ("TeX: The
    /// Program", sections 816 and 826). The only error is want of memory.
    #[tactic(auto, unfolding(crate::specs::Paragraphs::sealed))]
    pub fn new(alloc: Global, list: Nodes, params: ParParams) -> Result<Sealed, AllocError>
        requires { AreNested list }
        ensures { IfOk result (λ it. it ≡ sealed list params) }
    {
        let list = finished(list, params.skips.par_fill)?;
        let skips = params.skips;
        let infinite = some_infinite(&list, skips);
        let list = made_finite(alloc, list)?;
        let params = ParParams {
            skips: finite_skips(skips),
            ..params
        };
        Ok(Sealed {
            list,
            params: Arc::new(alloc, params)?,
            infinite,
        })
    }

    /// The same paragraph with another list in the place of its own, as hyphenation makes it. That list is taken as it is.
    /// The only error is want of room in the count of those that share the parameters.
    pub fn with_list(&self, list: Nodes) -> Result<Sealed, AllocError>
        requires { AreNested list }
        ensures { IfOk result (λ it. it ≡ record self.now { list = list }) }
    {
        Ok(Sealed {
            list,
            params: Arc::try_clone(&self.params)?,
            infinite: self.infinite,
        })
    }

    /// The list. Unless another one took its place, it ends in a penalty of 10000 and `\parfillskip`, and none of its glue
    /// shrinks infinitely.
    pub fn list(&self) -> &Nodes
        ensures value { result.now ≡ self.now.list }
        ensures nested { AreNested self.now.list }
    {
        &self.list
    }

    /// All that line breaking reads besides the list. `\leftskip` and `\rightskip` have finite shrink.
    pub fn params(&self) -> &ParParams
        ensures { result.now ≡ self.now.params }
    {
        &self.params
    }

    /// Whether glue that shrinks infinitely was made finite, of which the paragraph's outcome tells as an error.
    pub fn was_infinite(&self) -> bool
        ensures { result ≡ self.now.infinite }
    {
        self.infinite
    }
}

/// A sealed paragraph that is shared. Contracts see the paragraph. Its sharing copies nothing.
#[derive(Drop)]
pub struct SharedSealed {
    sealed: Arc<Sealed, Global>,
}

impl Model for SharedSealed {
    ghost use Rattle.std.specs.Arc.{arc_value};
    ghost use Rattle.std.specs.Coded.{codes};
    ghost use Rattle.etx_matter.specs.contracts.node.Node as node;
    ghost use Rattle.etx_sealed.specs.Paragraphs.{Paragraph};

    ghost Value = { Paragraph };

    ghost coded = { Prim.hlevel (codes, node.the_row.coded) };

    ghost view = { λ it. arc_value it.sealed };
}

impl SharedSealed {
    /// Takes a sealed paragraph. The only error is want of memory.
    pub fn new(alloc: Global, sealed: Sealed) -> Result<SharedSealed, AllocError>
        ensures { IfOk result (λ it. it ≡ sealed) }
    {
        Ok(SharedSealed {
            sealed: Arc::new(alloc, sealed)?,
        })
    }

    /// The same paragraph, once more. The only error is want of room in the count of those that share it.
    pub fn share(&self) -> Result<SharedSealed, AllocError>
        ensures { IfOk result (λ it. it ≡ self.now) }
    {
        Ok(SharedSealed {
            sealed: Arc::try_clone(&self.sealed)?,
        })
    }

    /// The paragraph.
    pub fn get(&self) -> &Sealed
        ensures { result.now ≡ self.now }
    {
        &self.sealed
    }
}
