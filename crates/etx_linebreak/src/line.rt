//! The line from a row's break to a later break, and what it costs.
ghost use Rattle.std.specs.Prelude.{◌≡◌, ◌≤◌, ◌+◌, pos, ◌+ℤ◌, ◌-ℤ◌, ◌<ℤ◌, ◌≤ℤ◌, unsigned_abs};
ghost use Rattle.etx_pack.specs.Fits.{badness_between};
ghost use Rattle.etx_pack.specs.Sums.{Small4};
ghost use Rattle.etx_sealed.specs.Sums.{IsSmall};
ghost use Rattle.etx_linebreak.specs.Lines.{stretched, shrunk, overfull, is_finite, short_by, long_by, set_to, more_stretch, eased, measured, penalty, is_forced, base, penalty_cost, hyphenated, hyphen_cost, class_cost, demerits};

use crate::pass::Pass;
use crate::row::{Class, Row};
use etx_pack::{OrderTotals, within_32_bits};
use etx_scaled::badness;
use etx_sealed::Measure;

/// What a line comes to.
#[derive(Clone, Copy)]
pub struct Line {
    /// Whether its shrink is too small.
    pub is_overfull: bool,
    /// From 0 to 10000.
    pub badness: i32,
    pub class: Class,
}

/// The penalty at which a line must end.
const FORCED: i32 = -10_000;

/// How bad it is to set glue of which there is `total` so that it takes up `need`.
#[tactic(auto, unfolding(etx_pack::specs::Fits::badness_between, etx_pack::specs::Fits::within_32_bits))]
fn badness_between(need: i64, total: i64) -> i32
    requires { pos 0 ≤ℤ need }
    ensures { result ≡ badness_between need total }
{
    badness(
        within_32_bits(i128::from(need)),
        within_32_bits(i128::from(total)),
    )
}

#[tactic(auto, unfolding(crate::specs::Lines::stretched))]
fn stretched(badness: i32) -> Line
    ensures { result ≡ stretched badness }
{
    Line {
        is_overfull: false,
        badness,
        class: if badness > 99 {
            Class::VeryLoose
        } else if badness > 12 {
            Class::Loose
        } else {
            Class::Decent
        },
    }
}

#[tactic(auto, unfolding(crate::specs::Lines::shrunk))]
fn shrunk(badness: i32) -> Line
    ensures { result ≡ shrunk badness }
{
    Line {
        is_overfull: false,
        badness,
        class: if badness > 12 {
            Class::Tight
        } else {
            Class::Decent
        },
    }
}

#[tactic(auto, unfolding(crate::specs::Lines::overfull))]
fn overfull() -> Line
    ensures { result ≡ overfull }
{
    Line {
        is_overfull: true,
        badness: 10_000,
        class: Class::Tight,
    }
}

#[tactic(auto, unfolding(crate::specs::Lines::is_finite))]
fn is_finite(stretch: OrderTotals) -> bool
    ensures { result ≡ is_finite stretch }
{
    stretch.fil == 0 && stretch.fill == 0 && stretch.filll == 0
}

/// A line that is too short by so much.
#[tactic(auto, unfolding(crate::specs::Lines::short_by))]
fn short_by(need: i64, stretch: OrderTotals) -> Line
    requires { pos 0 ≤ℤ need }
    ensures { result ≡ short_by need stretch }
{
    if is_finite(stretch) {
        stretched(badness_between(need, stretch.normal))
    } else {
        stretched(0)
    }
}

/// A line that is too long by so much.
#[tactic(auto, unfolding(crate::specs::Lines::long_by))]
fn long_by(need: i64, shrink: i64) -> Line
    requires { pos 0 ≤ℤ need }
    ensures { result ≡ long_by need shrink }
{
    if shrink < need {
        overfull()
    } else {
        shrunk(badness_between(need, shrink))
    }
}

/// A line of this measure, set to a width.
/// By how much a line is too short for a width.
fn room_in(width: i32, natural: i64) -> i64
    requires { unsigned_abs natural ≤ 6917529034083532800 }
    ensures { result ≡ width -ℤ natural }
{
    i64::from(width) - natural
}

/// By how much a line is too long for a width.
fn excess_over(width: i32, natural: i64) -> i64
    requires { unsigned_abs natural ≤ 6917529034083532800 }
    ensures { result ≡ natural -ℤ width }
{
    natural - i64::from(width)
}

#[tactic(auto, unfolding(crate::specs::Lines::set_to))]
fn set_to(width: i32, it: Measure) -> Line
    requires { IsSmall 3221225475 it }
    ensures { result ≡ set_to width it }
{
    if it.natural < i64::from(width) {
        short_by(room_in(width, it.natural), it.stretch)
    } else {
        long_by(excess_over(width, it.natural), it.shrink)
    }
}

fn eased_normal(more: i32, normal: i64) -> i64
    requires { unsigned_abs normal ≤ 6917529031936049152 }
    ensures value { result ≡ normal +ℤ more }
    ensures small { unsigned_abs result ≤ 6917529034083532800 }
{
    normal + i64::from(more)
}

fn more_stretch(more: i32, stretch: OrderTotals) -> OrderTotals
    requires { Small4 3221225474 stretch }
    ensures value { result ≡ more_stretch more stretch }
    ensures small { Small4 3221225475 result }
{
    OrderTotals {
        normal: eased_normal(more, stretch.normal),
        ..stretch
    }
}

/// The measure with so much more finite stretch.
#[tactic(auto, unfolding(crate::specs::Lines::eased))]
fn eased(more: i32, it: Measure) -> Measure
    requires { IsSmall 3221225474 it }
    ensures value { result ≡ eased more it }
    ensures small { IsSmall 3221225475 result }
{
    Measure {
        stretch: more_stretch(more, it.stretch),
        ..it
    }
}

/// What the penalty and the badness together cost.
#[tactic(auto, unfolding(crate::specs::Lines::base))]
fn base(sum: i64) -> u64
    ensures value { result ≡ base sum }
    ensures small { result ≤ 100000000 }
{
    let size = sum.unsigned_abs();
    if size >= 10_000 {
        100_000_000
    } else {
        size * size
    }
}

/// What a penalty costs.
#[tactic(auto, unfolding(crate::specs::Lines::penalty_cost))]
fn penalty_cost(penalty: i32) -> i64
    ensures value { result ≡ penalty_cost penalty }
    ensures small { unsigned_abs result ≤ 4611686018427387904 }
{
    let size = i64::from(penalty.unsigned_abs());
    if penalty >= 0 {
        size * size
    } else if penalty > FORCED {
        -(size * size)
    } else {
        0
    }
}

fn with_badness(penalty: i32, badness: i32) -> i64
    ensures { result ≡ penalty +ℤ badness }
{
    i64::from(penalty) + i64::from(badness)
}

impl Pass {
    /// The line of a row that ends at a break.
    #[tactic(auto, unfolding(crate::specs::Lines::measured))]
    pub fn measured(&self, break_number: usize, row: &Row) -> Line
        ensures { result ≡ measured self.now break_number row.now }
    {
        let width = self.width_of(row.line);
        set_to(
            width,
            eased(self.stretch(), self.line(row.break_number, break_number)),
        )
    }

    #[tactic(auto, unfolding(crate::specs::Lines::penalty))]
    fn penalty(&self, break_number: usize) -> i32
        ensures { result ≡ penalty self.now break_number }
    {
        self.stop(break_number).penalty()
    }

    #[tactic(auto, unfolding(crate::specs::Lines::is_forced))]
    pub fn is_forced(&self, break_number: usize) -> bool
        ensures { result ≡ is_forced self.now break_number }
    {
        self.penalty(break_number) <= FORCED
    }

    #[tactic(auto, unfolding(crate::specs::Lines::hyphenated))]
    fn is_hyphenated(&self, break_number: usize) -> bool
        ensures { result ≡ hyphenated self.now break_number }
    {
        self.stop(break_number).is_hyphenated()
    }

    #[tactic(auto, unfolding(crate::specs::Lines::hyphen_cost))]
    fn hyphen_cost(&self, break_number: usize, row: &Row) -> i32
        ensures { result ≡ hyphen_cost self.now break_number row.now }
    {
        if self.is_hyphenated(row.break_number) && self.is_hyphenated(break_number) {
            if break_number == self.break_count() {
                self.params().final_hyphen_demerits
            } else {
                self.params().double_hyphen_demerits
            }
        } else {
            0
        }
    }

    #[tactic(auto, unfolding(crate::specs::Lines::class_cost))]
    fn class_cost(&self, row: &Row, line: Line) -> i32
        ensures { result ≡ class_cost self.now row.now line }
    {
        if row.class.is_far(line.class) {
            self.params().adj_demerits
        } else {
            0
        }
    }

    fn base_of(&self, line: Line) -> u64
        ensures value { result ≡ base (self.now.paragraph.params.breaks.line_penalty +ℤ line.badness) }
        ensures small { result ≤ 100000000 }
    {
        base(with_badness(self.params().line_penalty, line.badness))
    }

    fn cost_of_break(&self, break_number: usize) -> i64
        ensures value { result ≡ penalty_cost (penalty self.now break_number) }
        ensures small { unsigned_abs result ≤ 4611686018427387904 }
    {
        penalty_cost(self.penalty(break_number))
    }

    /// What a line costs behind a row.
    pub fn demerits(&self, break_number: usize, row: &Row, line: Line) -> i64
        ensures { result ≡ demerits self.now break_number row.now line }
    {
        sum_of(
            self.base_of(line),
            self.cost_of_break(break_number),
            self.hyphen_cost(break_number, row),
            self.class_cost(row, line),
        )
    }
}

fn base_cost(base: u64, penalty: i64) -> i64
    requires base { base ≤ 100000000 }
    requires penalty { unsigned_abs penalty ≤ 4611686018427387904 }
    ensures value { result ≡ pos base +ℤ penalty }
    ensures small { unsigned_abs result ≤ 4611686018527387904 }
{
    base as i64 + penalty
}

fn with_cost(sum: i64, cost: i32) -> i64
    requires { unsigned_abs sum ≤ 4611686020674871552 }
    ensures value { result ≡ sum +ℤ cost }
    ensures small { unsigned_abs result ≤ unsigned_abs sum + 2147483648 }
{
    sum + i64::from(cost)
}

fn sum_of(base: u64, penalty: i64, hyphens: i32, classes: i32) -> i64
    requires base { base ≤ 100000000 }
    requires penalty { unsigned_abs penalty ≤ 4611686018427387904 }
    ensures { result ≡ pos base +ℤ penalty +ℤ hyphens +ℤ classes }
{
    with_cost(with_cost(base_cost(base, penalty), hyphens), classes)
}
