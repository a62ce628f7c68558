//! Glue that has no place in a list that is broken.
ghost use Rattle.std.specs.Prelude.{◌≡◌, ◌++◌, OnOk};
ghost use Rattle.etx_vsplit.specs.Splits.{is_infinite, has_infinite_shrink, place_if};

use etx_lists::Listed;
use etx_matter::{GlueOrder, Node};
use std::alloc::AllocError;

/// Whether a node is glue that can shrink by more than any size.
#[tactic(auto, unfolding(crate::specs::Splits::has_infinite_shrink))]
fn has_infinite_shrink(node: &Node) -> bool
    ensures { result ≡ has_infinite_shrink node.now }
{
    match node.glue() {
        Some(glue) => is_infinite(glue.shrink_order) && glue.shrink != 0,
        None => false,
    }
}

fn is_infinite(order: GlueOrder) -> bool
    ensures { result ≡ is_infinite order }
{
    match order {
        GlueOrder::Normal => false,
        GlueOrder::Fil | GlueOrder::Fill | GlueOrder::Filll => true,
    }
}

/// Notes the place of a node that shrinks infinitely.
pub(crate) fn note(places: &mut Listed<u32>, place: u32, node: &Node) -> Result<(), AllocError>
    ensures { OnOk result (places.new ≡ places.old ++ place_if (has_infinite_shrink node.now) place) }
{
    if has_infinite_shrink(node) {
        places.push(place)?;
    }
    Ok(())
}
