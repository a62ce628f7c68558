//! What a node takes along the list in which it stands, and how far it reaches across it.
ghost use Rattle.std.specs.Prelude.{◌≡◌, ◌≤◌, ◌+ℤ◌, unsigned_abs};
ghost use Rattle.etx_pack.specs.Reaches.{filler_width, filler_height, filler_depth, rise_of, fall_of, breadth_of, length_of, hang_under};

use etx_matter::{Leader, Node};

#[tactic(auto, unfolding(crate::specs::Reaches::filler_width))]
fn filler_width(leader: &Leader) -> i32
    ensures { result ≡ filler_width leader.now }
{
    match leader {
        Leader::Ruled(size) => size.width.unwrap_or(0),
        Leader::Boxes { item, .. } => item.width,
    }
}

#[tactic(auto, unfolding(crate::specs::Reaches::filler_height))]
fn filler_height(leader: &Leader) -> i32
    ensures { result ≡ filler_height leader.now }
{
    match leader {
        Leader::Ruled(size) => size.height.unwrap_or(0),
        Leader::Boxes { item, .. } => item.height,
    }
}

#[tactic(auto, unfolding(crate::specs::Reaches::filler_depth))]
fn filler_depth(leader: &Leader) -> i32
    ensures { result ≡ filler_depth leader.now }
{
    match leader {
        Leader::Ruled(size) => size.depth.unwrap_or(0),
        Leader::Boxes { item, .. } => item.depth,
    }
}

/// How far a node of a horizontal list reaches above the list's baseline, in sp.
#[tactic(auto, unfolding(crate::specs::Reaches::rise_of))]
pub(crate) fn rise(node: &Node) -> i64
    ensures { result ≡ rise_of node.now }
{
    match node {
        Node::Char { size, .. } | Node::Lig { size, .. } => i64::from(size.height),
        Node::Leaders { leader, .. } => i64::from(filler_height(leader.get())),
        Node::Rule(size) => i64::from(size.height.unwrap_or(0)),
        Node::Box(it) => i64::from(it.get().height) - i64::from(it.get().shift),
        Node::Unset(it) => i64::from(it.get().height),
        _ => 0,
    }
}

/// How far a node of a horizontal list reaches below the list's baseline, in sp.
#[tactic(auto, unfolding(crate::specs::Reaches::fall_of))]
pub(crate) fn fall(node: &Node) -> i64
    ensures { result ≡ fall_of node.now }
{
    match node {
        Node::Char { size, .. } | Node::Lig { size, .. } => i64::from(size.depth),
        Node::Leaders { leader, .. } => i64::from(filler_depth(leader.get())),
        Node::Rule(size) => i64::from(size.depth.unwrap_or(0)),
        Node::Box(it) => i64::from(it.get().depth) + i64::from(it.get().shift),
        Node::Unset(it) => i64::from(it.get().depth),
        _ => 0,
    }
}

/// How far a node of a vertical list reaches to the right of the list's left edge, in sp.
#[tactic(auto, unfolding(crate::specs::Reaches::breadth_of))]
pub(crate) fn breadth(node: &Node) -> i64
    ensures { result ≡ breadth_of node.now }
{
    match node {
        Node::Leaders { leader, .. } => i64::from(filler_width(leader.get())),
        Node::Rule(size) => i64::from(size.width.unwrap_or(0)),
        Node::Box(it) => i64::from(it.get().width) + i64::from(it.get().shift),
        Node::Unset(it) => i64::from(it.get().width),
        _ => 0,
    }
}

/// A height and a depth.
fn both(height: i32, depth: i32) -> i64
    ensures value { result ≡ height +ℤ depth }
    ensures small { unsigned_abs result ≤ 4294967296 }
{
    i64::from(height) + i64::from(depth)
}

/// What a node of a vertical list takes from top to bottom, in sp; glue has its natural width.
#[tactic(auto, unfolding(crate::specs::Reaches::length_of))]
pub fn vertical_length(node: &Node) -> i64
    ensures value { result ≡ length_of node.now }
    ensures small { unsigned_abs result ≤ 4294967296 }
{
    match node {
        Node::Kern { width, .. } => i64::from(*width),
        Node::Glue(glue) | Node::Leaders { glue, .. } => i64::from(glue.width),
        Node::Rule(size) => both(size.height.unwrap_or(0), size.depth.unwrap_or(0)),
        Node::Box(it) => both(it.get().height, it.get().depth),
        Node::Unset(it) => both(it.get().height, it.get().depth),
        _ => 0,
    }
}

/// What hangs below the last baseline of a vertical list, in sp, once this node stands under what hangs there.
#[tactic(auto, unfolding(crate::specs::Reaches::hang_under))]
pub fn vertical_hang(above: i32, node: &Node) -> i32
    ensures { result ≡ hang_under above node.now }
{
    match node {
        Node::Kern { .. } | Node::Glue(_) | Node::Leaders { .. } => 0,
        Node::Rule(size) => size.depth.unwrap_or(0),
        Node::Box(it) => it.get().depth,
        Node::Unset(it) => it.get().depth,
        _ => above,
    }
}
