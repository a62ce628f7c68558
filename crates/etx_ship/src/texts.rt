//! What a page writes to other files.
ghost use Rattle.std.specs.Prelude.{◌≡◌, ◌++◌, IfOk, OnOk};
ghost use Rattle.etx_ship.specs.Texts.{texts_of, node_texts, what_texts};

use etx_matter::{BoxNode, Node, What};
use std::alloc::{AllocError, Global};

/// The texts of `\write`, and the commands that open and close files, in the order in which the box is shipped. Those in
/// leaders do nothing ("TeX: The Program", section 1374). Nothing is refused but for want of memory, which each of them takes.
pub fn writes(alloc: Global, b: &BoxNode) -> Result<Vec<What>, AllocError>
    ensures { IfOk result (λ whats. whats.items ≡ texts_of b.now) }
{
    let mut whats = Vec::new(alloc);
    add_texts(b, &mut whats)?;
    Ok(whats)
}

#[cycle(texts)]
#[tactic(auto, unfolding(crate::specs::Texts::texts_of, crate::specs::Texts::node_texts))]
fn add_texts(it: &BoxNode, whats: &mut Vec<What>) -> Result<(), AllocError>
    ensures { OnOk result (whats.new.items ≡ whats.old.items ++ texts_of it.now) }
{
    for node in it.list.nodes.as_slice() {
        add_node_texts(node, whats)?;
    }
    Ok(())
}

#[cycle(texts)]
#[tactic(auto, unfolding(crate::specs::Texts::texts_of, crate::specs::Texts::node_texts))]
fn add_node_texts(node: &Node, whats: &mut Vec<What>) -> Result<(), AllocError>
    ensures { OnOk result (whats.new.items ≡ whats.old.items ++ node_texts node.now) }
{
    match node {
        Node::Box(it) => add_texts(it.get(), whats),
        Node::What(what) => add_what(what.get(), whats),
        _ => Ok(()),
    }
}

fn add_what(what: &What, whats: &mut Vec<What>) -> Result<(), AllocError>
    ensures { OnOk result (whats.new.items ≡ whats.old.items ++ what_texts what.now) }
{
    match what {
        What::OpenFile { .. } | What::Write { .. } | What::CloseFile { .. } => {
            whats.push(what.copy()?)?;
            Ok(())
        }
        What::Special(_) | What::Language { .. } => Ok(()),
    }
}
