//! The running sums along a list.
ghost use Rattle.std.specs.Prelude.{◌≡◌, ◌≤◌, ℕ, ◌+◌, pos, unsigned_abs};
ghost use Rattle.etx_pack.specs.Sums.{nothing, with_node, AreSmall};

use crate::orders::OrderTotals;
use etx_matter::Node;

/// What a list takes naturally, in sp, and its stretch and shrink.
#[derive(Clone, Copy, Debug, PartialEq, Eq)]
pub(crate) struct Totals {
    pub size: i64,
    pub stretch: OrderTotals,
    pub shrink: OrderTotals,
}

impl Totals {
    pub fn none() -> Totals
        ensures { result ≡ record { size = pos 0; stretch = nothing; shrink = nothing } }
    {
        Totals {
            size: 0,
            stretch: OrderTotals::nothing(),
            shrink: OrderTotals::nothing(),
        }
    }

    /// Adds a node that takes so much along the list.
    pub fn add(&mut self, size: i64, node: &Node)
        requires few { AreSmall 1073741823 self.old }
        requires small { unsigned_abs size ≤ 4294967296 }
        ensures value { self.new ≡ with_node self.old size node.now }
        ensures small { (count : ℕ) → AreSmall count self.old → AreSmall (count + 1) self.new }
    {
        self.size += size;
        self.stretch.add_stretch(node);
        self.shrink.add_shrink(node);
    }
}
