//! What glue comes to when it is set.
ghost use Rattle.std.specs.Prelude.{◌≡◌, ◌≤◌, unsigned_abs};
ghost use Rattle.etx_pack.specs.Spacings.{pull, growth};

use crate::orders::OrderTotals;
use etx_matter::{Glue, GlueSet};
use etx_scaled::Ratio;

/// What a glue adds to the sum that is set: its stretch or, with a minus sign, its shrink, where that has the governing
/// order, and else 0.
#[tactic(auto, unfolding(crate::specs::Spacings::pull))]
pub fn pull(set: &GlueSet, glue: &Glue) -> i64
    ensures value { result ≡ pull set.now glue.now }
    ensures small { unsigned_abs result ≤ 2147483648 }
{
    if set.is_stretching() {
        OrderTotals::share(glue.stretch_order, glue.stretch).amount(set.order())
    } else {
        -OrderTotals::share(glue.shrink_order, glue.shrink).amount(set.order())
    }
}

/// By how much, in sp, glue grows for which [`pull`] gives `total` in all.
///
/// What is rounded is the sum of all glue up to a place, so places don't drift, however long the list is: a glue takes the
/// growth behind it less the growth before it.
#[tactic(auto, unfolding(crate::specs::Spacings::growth))]
pub fn growth(set: &GlueSet, total: i64) -> i64
    ensures value { result ≡ growth set.now total }
    ensures small { unsigned_abs result ≤ 1000000000 }
{
    let ratio = Ratio {
        num: set.num(),
        den: set.den(),
    };
    ratio.of(total)
}
