//! How the glue of a list is set, and what is reported of it.
ghost use Rattle.std.specs.Prelude.{◌≡◌, ◌≤◌, ◌<◌, ◌+◌, ◌^◌, pos, ◌≤ℤ◌, ◌<ℤ◌, unsigned_abs};
ghost use Rattle.etx_pack.specs.Sums.{Small4};
ghost use Rattle.etx_pack.specs.Fits.{within_32_bits, fraction, quiet, is_judged, badness_between, stretch_report, shrink_report, overfull_report, overfull_rule, overfull, stretched, shrunk_finitely, shrunk, fitted};

use crate::orders::OrderTotals;
use etx_matter::{GlueOrder, GlueSet, Limits, Report, ReportKind};
use etx_scaled::badness;

/// What decides on the report of a packing besides the sums.
#[derive(Clone, Copy, Debug, PartialEq, Eq)]
pub(crate) struct Packing {
    pub vertical: bool,
    /// Whether there is nothing in the list.
    pub is_empty: bool,
    pub limits: Limits,
}

/// How glue is set, how bad that is, what is reported of it, and the width of the rule that marks an overfull line.
#[derive(Clone, Copy, Debug, PartialEq, Eq)]
pub(crate) struct Fit {
    pub set: GlueSet,
    pub badness: i32,
    pub report: Option<Report>,
    pub rule: Option<i32>,
}

/// The badness of an overfull box.
const OVERFULL: i32 = 1_000_000;

/// The greatest badness of a box that stretches and is loose: above it the box is underfull. A limit on badness below it
/// has each overfull box told of.
const LOOSE: i32 = 100;

/// A sum of sizes, in sp, as it is stored: the nearest of -(2^31 - 1) to 2^31 - 1. Its negative can be stored, too.
#[tactic(auto, unfolding(crate::specs::Fits::within_32_bits))]
pub fn within_32_bits(size: i128) -> i32
    ensures { result ≡ within_32_bits size }
{
    size.max(i128::from(-i32::MAX)).min(i128::from(i32::MAX)) as i32
}

/// Glue of which there is `total` takes up `need`.
#[tactic(auto, unfolding(crate::specs::Fits::fraction))]
fn fraction(stretching: bool, order: GlueOrder, need: i64, total: i64) -> GlueSet
    requires need { unsigned_abs need < 2 ^ 63 }
    requires total { unsigned_abs total < 2 ^ 63 }
    ensures { result ≡ fraction stretching order need total }
{
    if total > 0 {
        GlueSet::new(stretching, order, need, total)
    } else if total < 0 {
        GlueSet::new(stretching, order, -need, -total)
    } else {
        GlueSet::natural()
    }
}

/// The badness of glue of which there is `total` sp and which has to come to `need` sp more, or less: of both as they
/// would be stored.
#[tactic(auto, unfolding(crate::specs::Fits::badness_between, crate::specs::Fits::within_32_bits))]
pub fn badness_between(need: i64, total: i64) -> i32
    requires { pos 0 ≤ℤ need }
    ensures value { result ≡ badness_between need total }
    ensures sign { pos 0 ≤ℤ result }
{
    badness(
        within_32_bits(i128::from(need)),
        within_32_bits(i128::from(total)),
    )
}

impl Fit {
    fn quiet(set: GlueSet) -> Fit
        ensures { result ≡ quiet set }
    {
        Fit {
            set,
            badness: 0,
            report: None,
            rule: None,
        }
    }
}

impl Packing {
    /// Whether glue of this order has a badness here: infinite glue is never bad, and there is none in an empty list.
    #[tactic(auto, unfolding(crate::specs::Fits::is_judged))]
    fn is_judged(self, order: GlueOrder) -> bool
        ensures { result ≡ is_judged self order }
    {
        match order {
            GlueOrder::Normal => !self.is_empty,
            GlueOrder::Fil | GlueOrder::Fill | GlueOrder::Filll => false,
        }
    }

    #[tactic(auto, unfolding(crate::specs::Fits::stretch_report))]
    fn stretch_report(self, badness: i32) -> Option<Report>
        ensures { result ≡ stretch_report self badness }
    {
        if badness > self.limits.badness {
            let kind = if badness > LOOSE {
                ReportKind::Underfull
            } else {
                ReportKind::Loose
            };
            Some(self.report(kind, badness))
        } else {
            None
        }
    }

    #[tactic(auto, unfolding(crate::specs::Fits::shrink_report))]
    fn shrink_report(self, badness: i32) -> Option<Report>
        ensures { result ≡ shrink_report self badness }
    {
        if badness > self.limits.badness {
            Some(self.report(ReportKind::Tight, badness))
        } else {
            None
        }
    }

    fn report(self, kind: ReportKind, number: i32) -> Report
        ensures { result ≡ record { kind = kind; vertical = self.vertical; number = number } }
    {
        Report {
            kind,
            vertical: self.vertical,
            number,
        }
    }

    /// Of a box that is too full by this much.
    #[tactic(auto, unfolding(crate::specs::Fits::overfull_report))]
    fn overfull_report(self, over: i64) -> Option<Report>
        ensures { result ≡ overfull_report self over }
    {
        if over > i64::from(self.limits.fuzz) || self.limits.badness < LOOSE {
            Some(self.report(ReportKind::Overfull, within_32_bits(i128::from(over))))
        } else {
            None
        }
    }

    #[tactic(auto, unfolding(crate::specs::Fits::overfull_rule))]
    fn overfull_rule(self, over: i64) -> Option<i32>
        ensures { result ≡ overfull_rule self over }
    {
        if !self.vertical && over > i64::from(self.limits.fuzz) && self.limits.rule > 0 {
            Some(self.limits.rule)
        } else {
            None
        }
    }

    #[tactic(auto, unfolding(crate::specs::Fits::overfull))]
    fn overfull(self, over: i64) -> Fit
        ensures { result ≡ overfull self over }
    {
        Fit {
            set: GlueSet::new(false, GlueOrder::Normal, 1, 1),
            badness: OVERFULL,
            report: self.overfull_report(over),
            rule: self.overfull_rule(over),
        }
    }

    #[tactic(auto, unfolding(crate::specs::Fits::stretched))]
    fn stretched(self, need: i64, totals: OrderTotals) -> Fit
        requires need { pos 0 <ℤ need }
        requires small { Small4 1073741824 totals }
        ensures { result ≡ stretched self need totals }
    {
        let order = totals.highest();
        let total = totals.amount(order);
        let set = fraction(true, order, need, total);
        if self.is_judged(order) {
            let badness = badness_between(need, total);
            Fit {
                set,
                badness,
                report: self.stretch_report(badness),
                rule: None,
            }
        } else {
            Fit::quiet(set)
        }
    }

    /// Finite glue of which there is `total` shrinks by `need`, or by all that it can.
    #[tactic(auto, unfolding(crate::specs::Fits::shrunk_finitely))]
    fn shrunk_finitely(self, order: GlueOrder, need: i64, total: i64) -> Fit
        requires need { pos 0 <ℤ need }
        requires room { unsigned_abs need ≤ 2 ^ 62 + 2 ^ 32 }
        requires total { unsigned_abs total ≤ 2 ^ 61 }
        ensures { result ≡ shrunk_finitely self order need total }
    {
        if total < need {
            self.overfull(need - total)
        } else {
            let badness = badness_between(need, total);
            Fit {
                set: fraction(false, order, need, total),
                badness,
                report: self.shrink_report(badness),
                rule: None,
            }
        }
    }

    #[tactic(auto, unfolding(crate::specs::Fits::shrunk))]
    fn shrunk(self, need: i64, totals: OrderTotals) -> Fit
        requires need { pos 0 <ℤ need }
        requires room { unsigned_abs need ≤ 2 ^ 62 + 2 ^ 32 }
        requires small { Small4 1073741824 totals }
        ensures { result ≡ shrunk self need totals }
    {
        let order = totals.highest();
        let total = totals.amount(order);
        if self.is_judged(order) {
            self.shrunk_finitely(order, need, total)
        } else {
            Fit::quiet(fraction(false, order, need, total))
        }
    }

    /// The list has to grow by `excess`, or to fall where that is negative.
    #[tactic(auto, unfolding(crate::specs::Fits::fitted))]
    pub fn fit(self, excess: i64, stretch: OrderTotals, shrink: OrderTotals) -> Fit
        requires room { unsigned_abs excess ≤ 2 ^ 62 + 2 ^ 32 }
        requires stretch { Small4 1073741824 stretch }
        requires shrink { Small4 1073741824 shrink }
        ensures { result ≡ fitted self excess stretch shrink }
    {
        if excess > 0 {
            self.stretched(excess, stretch)
        } else if excess < 0 {
            self.shrunk(-excess, shrink)
        } else {
            Fit::quiet(GlueSet::natural())
        }
    }
}
