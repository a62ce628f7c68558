//! A line, and what moves out of it.
ghost use Rattle.std.specs.Prelude.{◌≡◌, ◌++◌, ◌∷◌, [], OnOk};
ghost use Rattle.etx_matter.specs.Nests.{IsNested, AreNested};
ghost use Rattle.etx_setlines.specs.Sortings.{BothNested};
ghost use Rattle.etx_setlines.specs.Moves.{staying_of, moving_of, staying, moving};

use etx_matter::{Node, Nodes};
use std::alloc::{AllocError, Global};

/// The items of a line, and what moves out of it to the vertical list around.
#[derive(Drop)]
pub struct Sorted {
    pub line: Nodes,
    pub moved: Nodes,
}

impl Sorted {
    #[tactic(auto, unfolding(etx_matter::specs::Nests::AreNested, etx_matter::specs::Nests::list_depth))]
    pub fn new(alloc: Global) -> Sorted
        ensures value { result ≡ record { line = []; moved = [] } }
        ensures nested { BothNested result }
    {
        Sorted {
            line: Nodes::new(alloc),
            moved: Nodes::new(alloc),
        }
    }

    /// Puts an item into the line.
    fn keep(&mut self, node: Node) -> Result<(), AllocError>
        requires { IsNested node }
        ensures line { OnOk result (self.new.line ≡ self.old.line ++ node ∷ []) }
        ensures moved { OnOk result (self.new.moved ≡ self.old.moved) }
        ensures nested { OnOk result (BothNested self.old → BothNested self.new) }
    {
        self.line.push(node)?;
        Ok(())
    }

    /// Moves an item out of the line.
    fn move_out(&mut self, node: Node) -> Result<(), AllocError>
        requires { IsNested node }
        ensures line { OnOk result (self.new.line ≡ self.old.line) }
        ensures moved { OnOk result (self.new.moved ≡ self.old.moved ++ node ∷ []) }
        ensures nested { OnOk result (BothNested self.old → BothNested self.new) }
    {
        self.moved.push(node)?;
        Ok(())
    }

    /// Moves items out of the line.
    fn move_all(&mut self, nodes: Nodes) -> Result<(), AllocError>
        requires { AreNested nodes }
        ensures line { OnOk result (self.new.line ≡ self.old.line) }
        ensures moved { OnOk result (self.new.moved ≡ self.old.moved ++ nodes) }
        ensures nested { OnOk result (BothNested self.old → BothNested self.new) }
    {
        self.moved.append(nodes)?;
        Ok(())
    }

    /// Puts an item where it belongs: an insertion and a mark move out of the line, and so does the material of an
    /// adjustment.
    #[tactic(auto, unfolding(crate::specs::Moves::staying_of, crate::specs::Moves::moving_of, etx_matter::specs::Nests::IsNested, etx_matter::specs::Nests::node_depth, etx_matter::specs::Nests::AreNested, etx_matter::specs::Nests::list_depth))]
    pub fn put(&mut self, node: Node) -> Result<(), AllocError>
        requires { IsNested node }
        ensures line { OnOk result (self.new.line ≡ self.old.line ++ staying_of node) }
        ensures moved { OnOk result (self.new.moved ≡ self.old.moved ++ moving_of node) }
        ensures nested { OnOk result (BothNested self.old → BothNested self.new) }
    {
        match node {
            Node::Ins(it) => self.move_out(Node::Ins(it)),
            Node::Mark(it) => self.move_out(Node::Mark(it)),
            Node::Adjust(list) => self.move_all(list.into_inner().nodes),
            other => self.keep(other),
        }
    }

    /// Puts copies of these items.
    #[tactic(auto, unfolding(crate::specs::Moves::staying, crate::specs::Moves::moving))]
    pub fn put_all(&mut self, alloc: Global, nodes: &[Node]) -> Result<(), AllocError>
        requires { AreNested nodes.now }
        ensures line { OnOk result (self.new.line ≡ self.old.line ++ staying nodes.now) }
        ensures moved { OnOk result (self.new.moved ≡ self.old.moved ++ moving nodes.now) }
        ensures nested { OnOk result (BothNested self.old → BothNested self.new) }
    {
        for node in nodes {
            self.put(node.copy(alloc)?)?;
        }
        Ok(())
    }
}
