//! A pass over a paragraph.
ghost use Rattle.std.specs.Prelude.{◌≡◌, pos, IfOk, unsigned_abs};
ghost use Rattle.etx_sealed.specs.Lines.{line_measure};
ghost use Rattle.etx_sealed.specs.Stops.{stop_at};
ghost use Rattle.etx_sealed.specs.Sums.{IsSmall};
ghost use Rattle.etx_linebreak.specs.Passes.{PassState, easy_of, pass_over, break_count, break_at, width_of};

use etx_sealed::{BreakParams, Measure, Sealed, SharedSealed, Stop};
use std::alloc::{AllocError, Global};
use std::marker::Model;

/// What a pass over a paragraph goes by.
#[derive(Drop)]
pub(crate) struct Pass {
    sealed: SharedSealed,
    /// The start and the legal breaks of the paragraph.
    stops: Vec<Stop>,
    /// The greatest badness of a line.
    threshold: i32,
    /// The stretch that each line has besides its own, in sp.
    stretch: i32,
    /// Whether it is the last one, which always finds breaks.
    is_final: bool,
    /// The last line that is told apart from all later ones.
    easy: usize,
}

impl Model for Pass {
    ghost use Rattle.std.specs.Coded.{codes};
    ghost use Rattle.etx_matter.specs.contracts.node.Node as node;
    ghost use Rattle.etx_linebreak.specs.Passes.{PassState, AreStops};

    ghost Value = { PassState };

    ghost coded = { Prim.hlevel (codes, node.the_row.coded) };

    ghost view = { λ it. record { paragraph = it.sealed; threshold = it.threshold; stretch = it.stretch; is_final = it.is_final; easy = it.easy } };

    ghost invariant = { λ it. AreStops it.sealed it.stops.items };
}

/// The number of the last line that is told apart from all later ones.
#[tactic(auto, unfolding(crate::specs::Passes::easy_of, crate::specs::Passes::most_lines))]
fn easy_of(sealed: &Sealed) -> usize
    ensures { result ≡ easy_of sealed.now }
{
    let params = sealed.params();
    if params.breaks.looseness == 0 {
        params
            .shape
            .special_lines()
            .saturating_sub(params.prevgraf as usize)
    } else {
        usize::MAX
    }
}

impl Pass {
    /// A pass over a paragraph.
    #[tactic(auto, unfolding(crate::specs::Passes::pass_over))]
    pub fn new(
        alloc: Global,
        sealed: &SharedSealed,
        threshold: i32,
        stretch: i32,
        is_final: bool,
    ) -> Result<Pass, AllocError>
        ensures { IfOk result (λ it. it ≡ pass_over sealed.now threshold stretch is_final) }
    {
        let stops = sealed.get().stops(alloc)?;
        let easy = easy_of(sealed.get());
        Ok(Pass {
            sealed: sealed.share()?,
            stops,
            threshold,
            stretch,
            is_final,
            easy,
        })
    }

    pub fn threshold(&self) -> i32
        ensures { result ≡ self.now.threshold }
    {
        self.threshold
    }

    pub fn is_final(&self) -> bool
        ensures { result ≡ self.now.is_final }
    {
        self.is_final
    }

    pub fn easy(&self) -> usize
        ensures { result ≡ self.now.easy }
    {
        self.easy
    }

    pub fn stretch(&self) -> i32
        ensures { result ≡ self.now.stretch }
    {
        self.stretch
    }

    /// What decides on the choice of breaks.
    pub fn params(&self) -> BreakParams
        ensures { result ≡ self.now.paragraph.params.breaks }
    {
        self.sealed.get().params().breaks
    }

    /// What is added where a line's class is far from that of the line before it counts as near.
    pub fn far(&self) -> i64
        ensures { result ≡ pos (unsigned_abs self.now.paragraph.params.breaks.adj_demerits) }
    {
        i64::from(self.params().adj_demerits.unsigned_abs())
    }

    /// How many legal breaks there are.
    #[tactic(auto, unfolding(crate::specs::Passes::break_count))]
    pub fn break_count(&self) -> usize
        ensures { result ≡ break_count self.now }
    {
        self.stops.len().saturating_sub(1)
    }

    /// A break by its number, from 1 on; 0 is the start.
    pub fn stop(&self, number: usize) -> &Stop
        ensures { result.now ≡ stop_at self.now.paragraph (break_at self.now number) }
    {
        match self.stops.get(number) {
            Some(stop) => stop,
            None => &self.stops[0],
        }
    }

    /// What the line from a break to a later one measures.
    pub fn line(&self, from: usize, to: usize) -> Measure
        ensures value { result ≡ line_measure self.now.paragraph (break_at self.now from) (break_at self.now to) }
        ensures small { IsSmall 3221225474 result }
    {
        self.sealed.get().line(self.stop(from), self.stop(to))
    }

    /// The width of a line, by its number from 1 on.
    #[tactic(auto, unfolding(crate::specs::Passes::width_of))]
    pub fn width_of(&self, line: usize) -> i32
        ensures { result ≡ width_of self.now line }
    {
        self.sealed.get().line_shape(line).width
    }
}
