//! What stands in a line.
ghost use Rattle.std.specs.Prelude.{◌≡◌, ◌<◌, ◌++◌, ◌∷◌, ◌^◌, pos, IfOk, OnOk};
ghost use Rattle.etx_matter.specs.declared.node.Node.{Node-F, roll-Node};
ghost use Rattle.etx_sealed.specs.Lines.{text_before};
ghost use Rattle.etx_sealed.specs.Breaks.{item_at};
ghost use Rattle.etx_sealed.specs.Paragraphs.{glue_node};
ghost use Rattle.etx_setlines.specs.Items.{spent_disc, broken, broken_in, is_no_glue, left_side, line_items};
ghost use Rattle.etx_matter.specs.Nests.{IsNested, AreNested};
ghost use Rattle.etx_setlines.specs.Sortings.{BothNested};
ghost use Rattle.etx_setlines.specs.Moves.{staying_of, moving_of, staying, moving};

use crate::sorting::Sorted;
use etx_matter::{Boxed, Discretionary, Glue, InnerList, KernKind, Node, Nodes};
use etx_sealed::{Sealed, after_at, glue_node, item_at, kept, text_before};
use std::alloc::{AllocError, Global};

/// A discretionary at which a line was broken.
#[tactic(auto, unfolding(crate::specs::Items::spent_disc, etx_matter::specs::Nests::IsNested, etx_matter::specs::Nests::node_depth, etx_matter::specs::Nests::AreNested, etx_matter::specs::Nests::list_depth, etx_matter::specs::Nests::IsNestedInner, etx_matter::specs::Nests::inner_depth))]
fn spent_disc(alloc: Global) -> Result<Node, AllocError>
    ensures value { IfOk result (λ it. it ≡ spent_disc) }
    ensures nested { IfOk result (λ it. IsNested it) }
{
    let disc = Discretionary {
        pre: InnerList::new(Nodes::new(alloc)),
        post: InnerList::new(Nodes::new(alloc)),
        replaces: 0,
    };
    Ok(Node::Disc(Boxed::new(alloc, disc)?))
}

/// A kern at which a line was broken.
#[tactic(auto, unfolding(etx_matter::specs::Nests::IsNested, etx_matter::specs::Nests::node_depth))]
fn kern_node(kind: KernKind) -> Node
    ensures value { result ≡ roll-Node (Node-F.Kern (pos 0) kind) }
    ensures nested { IsNested result }
{
    Node::Kern { width: 0, kind }
}

/// The edge of a formula at which a line was broken.
#[tactic(auto, unfolding(etx_matter::specs::Nests::IsNested, etx_matter::specs::Nests::node_depth))]
fn edge_node(on: bool) -> Node
    ensures value { result ≡ roll-Node (Node-F.Math on (pos 0)) }
    ensures nested { IsNested result }
{
    Node::Math { on, width: 0 }
}

fn is_no_glue(glue: Glue) -> bool
    ensures { result ≡ is_no_glue glue }
{
    glue.width == 0 && glue.stretch == 0 && glue.shrink == 0
}

impl Sorted {
    /// Puts a discretionary at which the line is broken, and its pre-break text.
    fn put_disc(&mut self, alloc: Global, node: &Node) -> Result<(), AllocError>
        requires { IsNested node.now }
        ensures line { OnOk result (self.new.line ≡ self.old.line ++ staying (spent_disc ∷ text_before node.now)) }
        ensures moved { OnOk result (self.new.moved ≡ self.old.moved ++ moving (spent_disc ∷ text_before node.now)) }
        ensures nested { OnOk result (BothNested self.old → BothNested self.new) }
    {
        self.put(spent_disc(alloc)?)?;
        self.put_all(alloc, text_before(node))?;
        Ok(())
    }

    /// Puts what stays of the item at which the line is broken.
    #[tactic(auto, unfolding(crate::specs::Items::broken, crate::specs::Moves::staying, crate::specs::Moves::moving, etx_sealed::specs::Lines::text_before))]
    fn put_broken(&mut self, alloc: Global, node: &Node) -> Result<(), AllocError>
        requires { IsNested node.now }
        ensures line { OnOk result (self.new.line ≡ self.old.line ++ staying (broken node.now)) }
        ensures moved { OnOk result (self.new.moved ≡ self.old.moved ++ moving (broken node.now)) }
        ensures nested { OnOk result (BothNested self.old → BothNested self.new) }
    {
        match node {
            Node::Glue(_) | Node::Leaders { .. } => Ok(()),
            Node::Disc(_) => self.put_disc(alloc, node),
            Node::Kern { kind, .. } => self.put(kern_node(*kind)),
            Node::Math { on, .. } => self.put(edge_node(*on)),
            other => self.put(other.copy(alloc)?),
        }
    }

    /// Puts what stays of the item at which the line is broken, if there is one.
    fn put_end(&mut self, alloc: Global, nodes: &[Node], place: usize) -> Result<(), AllocError>
        requires { AreNested nodes.now }
        ensures line { OnOk result (self.new.line ≡ self.old.line ++ staying (broken_in (item_at nodes.now place))) }
        ensures moved { OnOk result (self.new.moved ≡ self.old.moved ++ moving (broken_in (item_at nodes.now place))) }
        ensures nested { OnOk result (BothNested self.old → BothNested self.new) }
    {
        match item_at(nodes, place) {
            None => Ok(()),
            Some(node) => self.put_broken(alloc, node),
        }
    }

    #[tactic(auto, unfolding(crate::specs::Items::left_side, crate::specs::Moves::staying, crate::specs::Moves::moving))]
    fn put_left(&mut self, glue: Glue) -> Result<(), AllocError>
        ensures line { OnOk result (self.new.line ≡ self.old.line ++ staying (left_side glue)) }
        ensures moved { OnOk result (self.new.moved ≡ self.old.moved ++ moving (left_side glue)) }
        ensures nested { OnOk result (BothNested self.old → BothNested self.new) }
    {
        if is_no_glue(glue) {
            return Ok(());
        }
        self.put(glue_node(glue))
    }
}

/// The line from one place to another, with the glue on its sides.
#[tactic(auto, unfolding(crate::specs::Items::line_items))]
pub fn line_items(
    alloc: Global,
    sealed: &Sealed,
    from: usize,
    to: usize,
) -> Result<Sorted, AllocError>
    requires { from < 2 ^ 32 }
    ensures line { IfOk result (λ it. it.line ≡ staying (line_items sealed.now from to)) }
    ensures moved { IfOk result (λ it. it.moved ≡ moving (line_items sealed.now from to)) }
    ensures nested { IfOk result BothNested }
{
    let nodes = sealed.list().as_slice();
    let skips = sealed.params().skips;
    let mut sorted = Sorted::new(alloc);
    sorted.put_left(skips.left)?;
    sorted.put_all(alloc, after_at(nodes, from))?;
    sorted.put_all(alloc, kept(nodes, from, to))?;
    sorted.put_end(alloc, nodes, to)?;
    sorted.put(glue_node(skips.right))?;
    Ok(sorted)
}
