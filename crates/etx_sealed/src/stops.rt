//! Sums at the breaks of a paragraph, by which each line is measured in the same time.
ghost use Rattle.std.specs.Prelude.{◌≡◌, ◌≤◌, ◌<◌, ◌+◌, ◌-◌, ◌^◌, length, drop, take, nat_lt, true, false, IfOk, IfSome};
ghost use Rattle.std.specs.List.{prefix_len};
ghost use Rattle.etx_sealed.specs.Breaks.{item_at, penalty_at, is_hyphenated};
ghost use Rattle.etx_sealed.specs.Lines.{is_dropped, left_out as left_out_at, before_in, after_in, line_measure};
ghost use Rattle.etx_sealed.specs.Stops.{StopState, stop_at, end_at, start_at, stops};
ghost use Rattle.etx_sealed.specs.Sums.{IsSmall, none, less, measure_all};
ghost use Rattle.etx_sealed.specs.Walks.{IsRunning, IsRun, IsWalk};

use crate::line::{after_at, before_at, behind, dropped_first, drops_at, replaced_at, section};
use crate::measure::{Measure, measure_all};
use crate::sealed::Sealed;
use etx_matter::Node;
use std::alloc::{AllocError, Global};
use std::marker::Model;

/// The most items of texts at a place with which lines there are measured by its sums. TeX has at most 255 in a text.
const MOST_TEXT: usize = 536_870_912;

/// A place where a line may end or begin: the start of a paragraph, or a legal break.
#[derive(Drop)]
pub struct Stop {
    place: u32,
    penalty: i32,
    hyphenated: bool,
    left_out: u64,
    end: Measure,
    start: Measure,
    /// Whether its texts are so short that its sums have a difference in 64 bits to those of any place with short ones.
    is_short: bool,
}

impl Model for Stop {
    ghost use Rattle.std.specs.Prelude.{◌≡◌, true};
    ghost use Rattle.etx_sealed.specs.Stops.{StopState};
    ghost use Rattle.etx_sealed.specs.Sums.{IsSmall};

    ghost Value = { StopState };

    ghost view = { λ it. record { place = it.place; penalty = it.penalty; hyphenated = it.hyphenated; left_out = it.left_out; end = it.end; start = it.start } };

    ghost invariant = { λ it. it.is_short ≡ true → IsSmall 1610612738 it.end × IsSmall 1610612736 it.start };
}

impl Stop {
    /// The number of its item, from 1 on; 0 for the start, and one more than the list's length for the end.
    pub fn place(&self) -> u32
        ensures { result ≡ self.now.place }
    {
        self.place
    }

    /// Its penalty. From -10000 down a line must end here.
    pub fn penalty(&self) -> i32
        ensures { result ≡ self.now.penalty }
    {
        self.penalty
    }

    /// Whether a line that ends here counts as hyphenated: at a discretionary, and at the end.
    pub fn is_hyphenated(&self) -> bool
        ensures { result ≡ self.now.hyphenated }
    {
        self.hyphenated
    }

    /// Whether some items stand between this place and another that are not left out.
    fn reaches(&self, to: &Stop) -> bool
        ensures { result ≡ nat_lt self.now.left_out to.now.place }
    {
        self.left_out < u64::from(to.place)
    }

    /// What ends a line there without what comes before the items that a line keeps which begins here. `None` where a text is
    /// too long for that.
    fn line_to(&self, to: &Stop) -> Option<Measure>
        ensures value { IfSome result (λ it. it ≡ less to.now.end self.now.start) }
        ensures small { IfSome result (λ it. IsSmall 3221225474 it) }
    {
        if self.is_short && to.is_short {
            Some(to.end.less(self.start))
        } else {
            None
        }
    }
}

/// The sums over the first items of a list, as far as they were added up.
#[derive(Drop)]
pub(crate) struct Running {
    at: usize,
    sums: Measure,
}

impl Running {
    fn new() -> Running
        ensures { result ≡ record { at = 0; sums = none } }
    {
        Running {
            at: 0,
            sums: Measure::none(),
        }
    }

    /// The sums over the first `to` items. It goes on from where it was.
    fn sums_to(&mut self, nodes: &[Node], to: usize) -> Measure
        requires few { length nodes.now ≤ 1073741824 }
        requires running { IsRunning nodes.now self.old }
        ensures value { result ≡ measure_all (take to nodes.now) }
        ensures small { IsSmall 1073741824 result }
        ensures running { IsRunning nodes.now self.new }
    {
        let to = to.min(nodes.len());
        if to < self.at {
            let sums = measure_all(section(nodes, 0, to));
            self.at = to;
            self.sums = sums;
            return sums;
        }
        let more = measure_all(section(nodes, self.at, to - self.at));
        let sums = self.sums.plus(more);
        self.at = to;
        self.sums = sums;
        sums
    }
}

/// Items that are dropped, from one place to another behind which there is none.
#[derive(Drop)]
pub(crate) struct Run {
    from: usize,
    to: usize,
}

impl Run {
    /// Behind how many items the first stands, from a place on, that isn't dropped. It looks at no item twice where the
    /// places ascend.
    fn end(&mut self, nodes: &[Node], at: usize) -> usize
        requires few { length nodes.now ≤ 1073741824 }
        requires small { at < 2 ^ 33 }
        requires run { IsRun nodes.now self.old }
        ensures value { result ≡ at + prefix_len is_dropped (drop at nodes.now) }
        ensures run { IsRun nodes.now self.new }
    {
        if self.from <= at && at <= self.to {
            return self.to;
        }
        let end = at + dropped_first(behind(nodes, at));
        self.from = at;
        self.to = end;
        end
    }
}

/// Whether two texts are so short that sums with them have differences in 64 bits.
fn are_short(before: &[Node], after: &[Node]) -> bool
    ensures { result ≡ true → (length before.now ≤ 536870912) × (length after.now ≤ 536870912) }
{
    before.len() <= MOST_TEXT && after.len() <= MOST_TEXT
}

/// Makes the stops of a paragraph, one after the other.
#[derive(Drop)]
pub(crate) struct Walk {
    ends: Running,
    starts: Running,
    run: Run,
}

impl Walk {
    fn new(nodes: &[Node]) -> Walk
        ensures { IsWalk nodes.now result }
    {
        let to = dropped_first(nodes);
        Walk {
            ends: Running::new(),
            starts: Running::new(),
            run: Run { from: 0, to },
        }
    }

    #[tactic(auto, unfolding(crate::specs::Lines::left_out))]
    fn left_out(&mut self, nodes: &[Node], place: usize) -> usize
        requires few { length nodes.now ≤ 1073741824 }
        requires small { place < 2 ^ 32 }
        requires walk { IsWalk nodes.now self.old }
        ensures value { result ≡ left_out_at nodes.now place }
        ensures walk { IsWalk nodes.now self.new }
    {
        let before = place + replaced_at(nodes, place);
        if drops_at(nodes, place) {
            self.run.end(nodes, before)
        } else {
            before
        }
    }

    /// What ends a line at a place, which shows a text there.
    #[tactic(auto, unfolding(crate::specs::Stops::end_at))]
    fn end(&mut self, sealed: &Sealed, place: usize, text: &[Node]) -> Measure
        requires walk { IsWalk sealed.now.list self.old }
        requires text { text.now ≡ before_in (item_at sealed.now.list place) }
        requires small { length text.now ≤ 1073741824 }
        ensures value { result ≡ end_at sealed.now place }
        ensures short { length text.now ≤ 536870912 → IsSmall 1610612738 result }
        ensures walk { IsWalk sealed.now.list self.new }
    {
        let nodes = sealed.list().as_slice();
        let before = self.ends.sums_to(nodes, place.saturating_sub(1));
        sealed.sides().plus(before.plus(measure_all(text)))
    }

    /// What comes before the items that a line keeps which begins at a place, without the text that it shows first.
    #[tactic(auto, unfolding(crate::specs::Stops::start_at))]
    fn start(&mut self, sealed: &Sealed, place: usize, left_out: usize, text: &[Node]) -> Measure
        requires walk { IsWalk sealed.now.list self.old }
        requires place { left_out ≡ left_out_at sealed.now.list place }
        requires text { text.now ≡ after_in (item_at sealed.now.list place) }
        requires small { length text.now ≤ 1073741824 }
        ensures value { result ≡ start_at sealed.now place }
        ensures short { length text.now ≤ 536870912 → IsSmall 1610612736 result }
        ensures walk { IsWalk sealed.now.list self.new }
    {
        let nodes = sealed.list().as_slice();
        let before = self.starts.sums_to(nodes, left_out);
        before.less(measure_all(text))
    }

    #[tactic(auto, unfolding(crate::specs::Stops::stop_at))]
    fn stop(&mut self, sealed: &Sealed, place: u32) -> Stop
        requires walk { IsWalk sealed.now.list self.old }
        ensures value { result ≡ stop_at sealed.now place }
        ensures walk { IsWalk sealed.now.list self.new }
    {
        let at = place as usize;
        let nodes = sealed.list().as_slice();
        let before = before_at(nodes, at);
        let after = after_at(nodes, at);
        let left_out = self.left_out(nodes, at);
        let ends = self.end(sealed, at, before);
        let starts = self.start(sealed, at, left_out, after);
        Stop {
            place,
            penalty: sealed.penalty_at(at),
            hyphenated: sealed.is_hyphenated(at),
            left_out: left_out as u64,
            end: ends,
            start: starts,
            is_short: are_short(before, after),
        }
    }
}

impl Sealed {
    /// The start of the paragraph, and then each legal break. The only error is want of memory.
    #[tactic(auto, unfolding(crate::specs::Stops::stops))]
    pub fn stops(&self, alloc: Global) -> Result<Vec<Stop>, AllocError>
        ensures { IfOk result (λ it. it.items ≡ stops self.now) }
    {
        let breaks = self.legal_breaks(alloc)?;
        let mut stops = Vec::with_capacity(alloc, breaks.len())?;
        let mut walk = Walk::new(self.list().as_slice());
        stops.push(walk.stop(self, 0))?;
        for place in &breaks {
            stops.push(walk.stop(self, *place))?;
        }
        Ok(stops)
    }

    /// What the line from one stop of this paragraph to another measures, as [`Sealed::measure`] does. However long the
    /// line is, it takes the same time, unless a text there has more than 536870912 items.
    pub fn line(&self, from: &Stop, to: &Stop) -> Measure
        requires from { from.now ≡ stop_at self.now from.now.place }
        requires to { to.now ≡ stop_at self.now to.now.place }
        ensures value { result ≡ line_measure self.now from.now.place to.now.place }
        ensures small { IsSmall 3221225474 result }
    {
        let first = from.place();
        let last = to.place();
        if from.reaches(to) {
            match from.line_to(to) {
                None => self.measure(first, last),
                Some(it) => it,
            }
        } else {
            self.empty_line(first as usize, last as usize)
        }
    }

    /// A line of which all items are left out.
    fn empty_line(&self, from: usize, to: usize) -> Measure
        requires { nat_lt (left_out_at self.now.list from) to ≡ false }
        ensures value { result ≡ line_measure self.now from to }
        ensures small { IsSmall 3221225474 result }
    {
        let nodes = self.list().as_slice();
        let after = measure_all(after_at(nodes, from));
        let before = measure_all(before_at(nodes, to));
        self.sides().plus(after).plus(before)
    }
}
