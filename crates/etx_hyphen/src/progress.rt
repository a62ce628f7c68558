//! A word while it is rebuilt.
ghost use Rattle.std.specs.Prelude.{◌≡◌, ◌≤◌, ◌++◌, take, drop, OnOk, IfOk};
ghost use Rattle.etx_matter.specs.Nests.{AreNested};
ghost use Rattle.etx_hyphen.specs.Progresses.{finished, with_kept, with_cut, untouched};
ghost use Rattle.etx_hyphen.specs.Rebuilds.{replaced_by, disc_of, is_kept};

use crate::cuts::Cut;
use etx_lists::Queue;
use etx_matter::{Boxed, Discretionary, InnerList, Node, Nodes};
use std::alloc::{AllocError, Global};

/// The greatest number of nodes that a discretionary replaces.
const MOST_REPLACED: usize = 65_535;

/// A word of which some nodes are written.
#[derive(Drop)]
pub struct Progress {
    /// What is written, up to the discretionary of the last run that was kept.
    pub written: Nodes,
    /// What is left of the unbroken word: that run, and what follows.
    pub rest: Queue<Node>,
    /// How many nodes of the unbroken word stand before that.
    pub at: usize,
    /// How many letters of the word stand before the end of that run.
    pub end: usize,
}

fn replaced_by(cut: &Cut) -> usize
    ensures { result ≡ replaced_by cut.now }
{
    cut.end.unbroken.saturating_sub(cut.start.unbroken)
}

/// The discretionary of a run.
#[tactic(auto, unfolding(crate::specs::Rebuilds::disc_of))]
fn disc_of(alloc: Global, cut: Cut) -> Result<Node, AllocError>
    requires few { replaced_by cut ≤ 65535 }
    requires pre { AreNested cut.pre }
    requires post { AreNested cut.post }
    ensures { IfOk result (λ node. node ≡ disc_of cut) }
{
    let replaces = replaced_by(&cut) as u16;
    let disc = Discretionary {
        pre: InnerList::new(cut.pre),
        post: InnerList::new(cut.post),
        replaces,
    };
    Ok(Node::Disc(Boxed::new(alloc, disc)?))
}

impl Progress {
    /// Nothing is written yet of these nodes.
    pub fn new(alloc: Global, nodes: Nodes) -> Progress
        ensures { result ≡ untouched nodes }
    {
        Progress {
            written: Nodes::new(alloc),
            rest: Queue::new(nodes),
            at: 0,
            end: 0,
        }
    }

    #[tactic(auto, unfolding(crate::specs::Rebuilds::is_kept))]
    fn is_kept(&self, cut: &Cut) -> bool
        ensures { result ≡ is_kept self.now.end cut.now }
    {
        self.end <= cut.start.letters && replaced_by(cut) <= MOST_REPLACED
    }

    /// Writes so many of the nodes that are left, or all of them.
    fn pass(&mut self, alloc: Global, count: usize) -> Result<(), AllocError>
        ensures { OnOk result (self.new ≡ record self.old {
          written = self.old.written ++ take count self.old.rest;
          rest = drop count self.old.rest;
        }) }
    {
        let count = count.min(self.rest.len());
        let passed = self.rest.take(alloc, count)?;
        self.written.append(passed)
    }

    /// Writes what stands before a run, and its discretionary.
    #[tactic(auto, unfolding(crate::specs::Progresses::with_kept))]
    fn keep(&mut self, alloc: Global, cut: Cut) -> Result<(), AllocError>
        requires few { replaced_by cut ≤ 65535 }
        requires pre { AreNested cut.pre }
        requires post { AreNested cut.post }
        ensures { OnOk result (self.new ≡ with_kept self.old cut) }
    {
        let start = cut.start;
        let end = cut.end.letters;
        self.pass(alloc, start.unbroken.saturating_sub(self.at))?;
        let disc = disc_of(alloc, cut)?;
        self.written.push(disc)?;
        self.at = start.unbroken;
        self.end = end;
        Ok(())
    }

    /// Writes what stands before a run, and its discretionary, unless the run is dropped.
    #[tactic(auto, unfolding(crate::specs::Progresses::with_cut, crate::specs::Rebuilds::is_kept))]
    pub fn cut(&mut self, alloc: Global, cut: Cut) -> Result<(), AllocError>
        requires pre { AreNested cut.pre }
        requires post { AreNested cut.post }
        ensures { OnOk result (self.new ≡ with_cut self.old cut) }
    {
        if self.is_kept(&cut) {
            return self.keep(alloc, cut);
        }
        Ok(())
    }

    /// The word, with all nodes that were left.
    pub fn finish(self, alloc: Global) -> Result<Nodes, AllocError>
        ensures { IfOk result (λ nodes. nodes ≡ self.written ++ self.rest) }
    {
        let Progress {
            mut written,
            mut rest,
            ..
        } = self;
        let count = rest.len();
        written.append(rest.take(alloc, count)?)?;
        Ok(written)
    }
}
