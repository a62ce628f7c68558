//! How a list is sealed: it gets its end, and its glue finite shrink.
ghost use Rattle.std.specs.Prelude.{◌≡◌, ◌++◌, ◌∷◌, [], ◌||◌, map, if◌then◌else◌, IfOk};
ghost use Rattle.std.specs.List.{list_any};
ghost use Rattle.etx_matter.specs.Nests.{IsNested, AreNested};
ghost use Rattle.etx_sealed.specs.Paragraphs.{is_glue, no_break, glue_node, without_last_glue, finished, shrinks_infinitely, finite, finite_node, is_infinite_node, finite_skips};

use crate::breaks::NEVER;
use crate::params::LineSkips;
use etx_matter::{Glue, GlueOrder, Node, Nodes};
use std::alloc::{AllocError, Global};

fn is_glue(node: &Node) -> bool
    ensures { result ≡ is_glue node.now }
{
    node.glue().is_some()
}

#[tactic(auto, unfolding(crate::specs::Paragraphs::no_break, etx_matter::specs::Nests::IsNested, etx_matter::specs::Nests::node_depth))]
fn no_break() -> Node
    ensures value { result ≡ no_break }
    ensures nested { IsNested result }
{
    Node::Penalty(NEVER)
}

/// A node of this glue.
#[tactic(auto, unfolding(crate::specs::Paragraphs::glue_node, etx_matter::specs::Nests::IsNested, etx_matter::specs::Nests::node_depth))]
pub fn glue_node(glue: Glue) -> Node
    ensures value { result ≡ glue_node glue }
    ensures nested { IsNested result }
{
    Node::Glue(glue)
}

/// Puts an item back behind the list, unless it is glue.
fn put_back(mut list: Nodes, last: Node) -> Result<Nodes, AllocError>
    ensures list { IfOk result (λ it. it ≡ if is_glue last then list else list ++ last ∷ []) }
{
    if is_glue(&last) {
        return Ok(list);
    }
    list.push(last)?;
    Ok(list)
}

/// The list without its last item, if that is glue.
fn without_last_glue(mut list: Nodes) -> Result<Nodes, AllocError>
    requires { AreNested list }
    ensures list { IfOk result (λ it. it ≡ without_last_glue list) }
    ensures nested { IfOk result (λ it. AreNested it) }
{
    match list.pop() {
        None => Ok(list),
        Some(last) => {
            let kept = put_back(list, last)?;
            Ok(kept)
        }
    }
}

/// The list with the end of a paragraph.
#[tactic(auto, unfolding(crate::specs::Paragraphs::finished))]
pub fn finished(list: Nodes, fill: Glue) -> Result<Nodes, AllocError>
    requires { AreNested list }
    ensures list { IfOk result (λ it. it ≡ finished list fill) }
    ensures nested { IfOk result (λ it. AreNested it) }
{
    let mut list = without_last_glue(list)?;
    list.push(no_break())?;
    list.push(glue_node(fill))?;
    Ok(list)
}

/// Whether glue shrinks, and infinitely.
#[tactic(auto, unfolding(crate::specs::Paragraphs::shrinks_infinitely))]
fn shrinks_infinitely(glue: Glue) -> bool
    ensures { result ≡ shrinks_infinitely glue }
{
    let infinite = match glue.shrink_order {
        GlueOrder::Normal => false,
        GlueOrder::Fil | GlueOrder::Fill | GlueOrder::Filll => true,
    };
    infinite && glue.shrink != 0
}

/// The glue with finite shrink.
#[tactic(auto, unfolding(crate::specs::Paragraphs::finite))]
fn finite(glue: Glue) -> Glue
    ensures { result ≡ finite glue }
{
    if shrinks_infinitely(glue) {
        Glue {
            shrink_order: GlueOrder::Normal,
            ..glue
        }
    } else {
        glue
    }
}

/// The glue at the sides of lines, and between them, with finite shrink at the sides.
pub fn finite_skips(skips: LineSkips) -> LineSkips
    ensures { result ≡ finite_skips skips }
{
    LineSkips {
        left: finite(skips.left),
        right: finite(skips.right),
        ..skips
    }
}

#[tactic(auto, unfolding(crate::specs::Paragraphs::finite_node, etx_matter::specs::Nests::IsNested, etx_matter::specs::Nests::node_depth))]
fn finite_node(node: Node) -> Node
    ensures value { result ≡ finite_node node }
    ensures nested { IsNested node → IsNested result }
{
    match node {
        Node::Glue(glue) => Node::Glue(finite(glue)),
        Node::Leaders { glue, leader } => Node::Leaders {
            glue: finite(glue),
            leader,
        },
        other => other,
    }
}

#[tactic(auto, unfolding(crate::specs::Paragraphs::is_infinite_node))]
fn is_infinite(node: &Node) -> bool
    ensures { result ≡ is_infinite_node node.now }
{
    match node {
        Node::Glue(glue) | Node::Leaders { glue, .. } => shrinks_infinitely(*glue),
        _ => false,
    }
}

/// Whether some glue of the list shrinks infinitely.
fn has_infinite(list: &Nodes) -> bool
    ensures { result ≡ list_any is_infinite_node list.now }
{
    for node in list.as_slice() {
        if is_infinite(node) {
            return true;
        }
    }
    false
}

/// Whether some glue of the list, or at the sides of lines, shrinks infinitely.
pub fn some_infinite(list: &Nodes, skips: LineSkips) -> bool
    ensures { result ≡ (list_any is_infinite_node list.now || shrinks_infinitely skips.left || shrinks_infinitely skips.right) }
{
    has_infinite(list) || shrinks_infinitely(skips.left) || shrinks_infinitely(skips.right)
}

/// The list, all of whose glue has finite shrink.
pub fn made_finite(alloc: Global, list: Nodes) -> Result<Nodes, AllocError>
    requires { AreNested list }
    ensures list { IfOk result (λ it. it ≡ map finite_node list) }
    ensures nested { IfOk result (λ it. AreNested it) }
{
    let mut made = Nodes::with_room(alloc, list.len())?;
    for node in list {
        made.push(finite_node(node))?;
    }
    Ok(made)
}
