//! One walk over a list gives all its sums.
ghost use Rattle.std.specs.Prelude.{◌≡◌, ℕ, ◌+◌};
ghost use Rattle.etx_pack.specs.Sums.{AreSmall};
ghost use Rattle.etx_pack.specs.Walks.{horizontal_start, horizontal_with, horizontal_sizes, vertical_start, vertical_with, vertical_sizes};

use crate::reaches::{breadth, fall, rise, vertical_hang, vertical_length};
use crate::totals::Totals;
use etx_matter::{Node, Nodes};

/// The natural sizes of a horizontal list, in sp.
#[derive(Clone, Copy, Debug, PartialEq, Eq)]
pub(crate) struct HorizontalSizes {
    /// The width, with the stretch and the shrink.
    pub along: Totals,
    pub height: i64,
    pub depth: i64,
}

/// The natural sizes of a vertical list, in sp.
#[derive(Clone, Copy, Debug, PartialEq, Eq)]
pub(crate) struct VerticalSizes {
    /// The height, with all of the depth, and with the stretch and the shrink.
    pub along: Totals,
    pub width: i64,
    /// What hangs below the last baseline.
    pub depth: i32,
}

impl HorizontalSizes {
    fn none() -> HorizontalSizes
        ensures { result ≡ horizontal_start }
    {
        HorizontalSizes {
            along: Totals::none(),
            height: 0,
            depth: 0,
        }
    }

    fn add(&mut self, node: &Node)
        requires { AreSmall 1073741823 self.old.along }
        ensures value { self.new ≡ horizontal_with self.old node.now }
        ensures small { (count : ℕ) → AreSmall count self.old.along → AreSmall (count + 1) self.new.along }
    {
        self.along.add(i64::from(node.width()), node);
        self.height = self.height.max(rise(node));
        self.depth = self.depth.max(fall(node));
    }
}

impl VerticalSizes {
    fn none() -> VerticalSizes
        ensures { result ≡ vertical_start }
    {
        VerticalSizes {
            along: Totals::none(),
            width: 0,
            depth: 0,
        }
    }

    fn add(&mut self, node: &Node)
        requires { AreSmall 1073741823 self.old.along }
        ensures value { self.new ≡ vertical_with self.old node.now }
        ensures small { (count : ℕ) → AreSmall count self.old.along → AreSmall (count + 1) self.new.along }
    {
        self.along.add(vertical_length(node), node);
        self.width = self.width.max(breadth(node));
        self.depth = vertical_hang(self.depth, node);
    }
}

pub(crate) fn measure_horizontal(list: &Nodes) -> HorizontalSizes
    ensures sizes { result ≡ horizontal_sizes list.now }
    ensures small { AreSmall 1073741824 result.along }
{
    let mut sizes = HorizontalSizes::none();
    for node in list.as_slice() {
        sizes.add(node);
    }
    sizes
}

pub(crate) fn measure_vertical(list: &Nodes) -> VerticalSizes
    ensures sizes { result ≡ vertical_sizes list.now }
    ensures small { AreSmall 1073741824 result.along }
{
    let mut sizes = VerticalSizes::none();
    for node in list.as_slice() {
        sizes.add(node);
    }
    sizes
}
