//! What a packing gives.
ghost use Rattle.std.specs.Prelude.{◌≡◌};
ghost use Rattle.etx_matter.specs.Nests.{AreNested, IsNestedBox};
ghost use Rattle.etx_pack.specs.Packs.{box_around, packed_so};

use crate::fitting::Fit;
use etx_matter::{BoxNode, GlueSet, InnerList, Nodes, Report};

/// A list that was packed.
#[derive(Drop)]
pub struct Packed {
    /// The box, with the list in it. Its sizes are in sp.
    pub node: BoxNode,
    /// How badly its glue is set, as `\badness` tells it: from 0 to 10000, and 1000000 where the box is overfull.
    pub badness: i32,
    /// What is to be told of it, if anything.
    pub report: Option<Report>,
}

/// The sizes of a box, in sp.
#[derive(Clone, Copy, Debug, PartialEq, Eq)]
pub(crate) struct BoxSizes {
    pub width: i32,
    pub height: i32,
    pub depth: i32,
}

/// A box of these sizes around a list whose glue is set.
#[tactic(auto, unfolding(crate::specs::Packs::box_around, etx_matter::specs::Nests::IsNestedBox, etx_matter::specs::Nests::IsNestedInner, etx_matter::specs::Nests::box_depth, etx_matter::specs::Nests::inner_depth))]
pub(crate) fn box_around(vertical: bool, sizes: BoxSizes, set: GlueSet, list: Nodes) -> BoxNode
    requires { AreNested list }
    ensures value { result ≡ box_around vertical sizes set list }
    ensures nested { IsNestedBox result }
{
    BoxNode {
        vertical,
        width: sizes.width,
        height: sizes.height,
        depth: sizes.depth,
        shift: 0,
        set,
        list: InnerList::new(list),
    }
}

/// A box, with what is to be told of its glue.
#[tactic(auto, unfolding(crate::specs::Packs::packed_so))]
pub(crate) fn packed_so(fit: Fit, node: BoxNode) -> Packed
    requires { IsNestedBox node }
    ensures value { result ≡ packed_so fit node }
    ensures nested { IsNestedBox result.node }
{
    Packed {
        node,
        badness: fit.badness,
        report: fit.report,
    }
}
