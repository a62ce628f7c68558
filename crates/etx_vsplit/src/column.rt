//! What stands in a column before a break.
ghost use Rattle.std.specs.Prelude.{◌≡◌, ◌≤◌, ◌<◌, ℕ, ◌+◌, ◌*◌, pos, ◌≤ℤ◌, ◌<ℤ◌, false, unsigned_abs};
ghost use Rattle.etx_pack.specs.Sums.{nothing};
ghost use Rattle.etx_vsplit.specs.Columns.{column_with, lack_of, is_too_high, has_infinite_stretch, column_badness, finite_shrink_of, stays, hang_within, IsSmall};

use etx_matter::Node;
use etx_pack::{OrderTotals, badness_between, vertical_hang, vertical_length};

/// The nodes before a break, all together. Sizes are in sp.
#[derive(Clone, Copy, Debug, PartialEq, Eq)]
pub(crate) struct Column {
    /// What they take from top to bottom, with what hangs below the last baseline.
    pub length: i64,
    /// What hangs below the last baseline, up to the greatest depth.
    pub depth: i32,
    pub stretch: OrderTotals,
    /// The shrink, whatever its order.
    pub shrink: i64,
    /// Whether the last node is one that stays behind a break.
    pub ends_staying: bool,
}

impl Column {
    pub fn empty() -> Column
        ensures value { result ≡ record { length = pos 0; depth = pos 0; stretch = nothing; shrink = pos 0; ends_staying = false } }
        ensures small { IsSmall 0 result }
    {
        Column {
            length: 0,
            depth: 0,
            stretch: OrderTotals::nothing(),
            shrink: 0,
            ends_staying: false,
        }
    }

    /// Puts a node under the column, which may be so deep.
    pub fn add(&mut self, node: &Node, max_depth: i32)
        requires { IsSmall 1073741823 self.old }
        ensures value { self.new ≡ column_with max_depth self.old node.now }
        ensures small { (count : ℕ) → IsSmall count self.old → IsSmall (count + 1) self.new }
    {
        self.length += vertical_length(node);
        self.depth = hang_within(max_depth, self.depth, node);
        self.stretch.add_stretch(node);
        self.shrink += finite_shrink(node);
        self.ends_staying = stays(node);
    }

    /// What the column lacks of this height; negative where it is too high.
    #[tactic(auto, unfolding(crate::specs::Columns::lack_of))]
    fn lack(&self, goal: i32) -> i64
        requires { IsSmall 1073741824 self.now }
        ensures value { result ≡ lack_of goal self.now }
        ensures small { unsigned_abs result ≤ 4611686022722355200 }
    {
        i64::from(goal) - (self.length - i64::from(self.depth))
    }

    /// Whether the column is too high even if it shrinks by all that it can.
    #[tactic(auto, unfolding(crate::specs::Columns::is_too_high))]
    pub fn is_too_high(&self, goal: i32) -> bool
        requires { IsSmall 1073741824 self.now }
        ensures { result ≡ is_too_high goal self.now }
    {
        let lack = self.lack(goal);
        if lack > 0 {
            false
        } else {
            lack + self.shrink < 0
        }
    }

    #[tactic(auto, unfolding(crate::specs::Columns::has_infinite_stretch))]
    fn has_infinite_stretch(&self) -> bool
        ensures { result ≡ has_infinite_stretch self.now }
    {
        self.stretch.fil != 0 || self.stretch.fill != 0 || self.stretch.filll != 0
    }

    /// How bad its glue is set if it comes to this height.
    #[tactic(auto, unfolding(crate::specs::Columns::column_badness))]
    pub fn badness(&self, goal: i32) -> i32
        requires { IsSmall 1073741824 self.now }
        ensures value { result ≡ column_badness goal self.now }
        ensures sign { pos 0 ≤ℤ result }
    {
        let lack = self.lack(goal);
        if lack <= 0 {
            badness_between(-lack, self.shrink)
        } else if self.has_infinite_stretch() {
            0
        } else {
            badness_between(lack, self.stretch.normal)
        }
    }
}

#[tactic(auto, unfolding(crate::specs::Columns::finite_shrink_of))]
fn finite_shrink(node: &Node) -> i64
    ensures value { result ≡ finite_shrink_of node.now }
    ensures small { unsigned_abs result ≤ 2147483648 }
{
    match node.glue() {
        Some(glue) => i64::from(glue.shrink),
        None => 0,
    }
}

/// What hangs below the last baseline, up to `max_depth`, once this node stands under what hangs there.
#[tactic(auto, unfolding(crate::specs::Columns::hang_within))]
fn hang_within(max_depth: i32, above: i32, node: &Node) -> i32
    ensures { result ≡ hang_within max_depth above node.now }
{
    vertical_hang(above, node).min(max_depth)
}

/// Whether a node stays behind a break.
#[tactic(auto, unfolding(crate::specs::Columns::stays))]
fn stays(node: &Node) -> bool
    ensures { result ≡ stays node.now }
{
    !node.is_discardable()
}
