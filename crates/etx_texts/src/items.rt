//! Lists of items. Each inner list is known to carry its nesting.
ghost use Rattle.std.specs.Prelude.{IfOk, OnOk};
ghost use Rattle.etx_matter.specs.Nests.{IsNested, AreNested};

use etx_matter::{Boxed, Discretionary, Font, Glue, InnerList, KernKind, Node, Nodes, RuleSize};
use etx_sealed::glue_node;
use etx_tfm::{Neighbour, read_run};
use std::alloc::{AllocError, Global};

/// An item of a list, or a run of characters.
#[derive(Clone, Copy)]
pub enum Item {
    /// Characters of the font between boundaries, with their ligatures and kerns.
    Run(&'static [u8]),
    Glue(Glue),
    Penalty(i32),
    Kern(i32, KernKind),
    /// The edge at which a formula begins, with its width in sp.
    Formula(i32),
    /// A discretionary: the two texts, and how many of the nodes behind it it replaces.
    Disc(&'static [u8], &'static [u8], u16),
    /// A rule of this height in sp that moves out of its line.
    Adjust(i32),
}

#[tactic(auto, unfolding(etx_matter::specs::Nests::AreNested, etx_matter::specs::Nests::list_depth))]
fn no_nodes(alloc: Global) -> Nodes
    ensures { AreNested result }
{
    Nodes::new(alloc)
}

fn put(list: &mut Nodes, node: Node) -> Result<(), AllocError>
    requires { IsNested node }
    ensures { OnOk result (AreNested list.old → AreNested list.new) }
{
    list.push(node)?;
    Ok(())
}

fn put_all(list: &mut Nodes, tail: Nodes) -> Result<(), AllocError>
    requires { AreNested tail }
    ensures { OnOk result (AreNested list.old → AreNested list.new) }
{
    list.append(tail)?;
    Ok(())
}

/// A list of one node.
fn alone(alloc: Global, node: Node) -> Result<Nodes, AllocError>
    requires { IsNested node }
    ensures { IfOk result AreNested }
{
    let mut list = no_nodes(alloc);
    put(&mut list, node)?;
    Ok(list)
}

fn run(alloc: Global, font: &Font, chars: &[u8]) -> Result<Nodes, AllocError>
    ensures { IfOk result AreNested }
{
    let reading = read_run(alloc, font, chars, Neighbour::Boundary, Neighbour::Boundary)?;
    Ok(reading.nodes)
}

#[tactic(auto, unfolding(etx_matter::specs::Nests::IsNested, etx_matter::specs::Nests::node_depth))]
fn penalty(penalty: i32) -> Node
    ensures { IsNested result }
{
    Node::Penalty(penalty)
}

#[tactic(auto, unfolding(etx_matter::specs::Nests::IsNested, etx_matter::specs::Nests::node_depth))]
fn kern(width: i32, kind: KernKind) -> Node
    ensures { IsNested result }
{
    Node::Kern { width, kind }
}

#[tactic(auto, unfolding(etx_matter::specs::Nests::IsNested, etx_matter::specs::Nests::node_depth))]
fn formula(width: i32) -> Node
    ensures { IsNested result }
{
    Node::Math { on: true, width }
}

#[tactic(auto, unfolding(etx_matter::specs::Nests::IsNested, etx_matter::specs::Nests::node_depth))]
fn rule(height: i32) -> Node
    ensures { IsNested result }
{
    Node::Rule(RuleSize {
        width: None,
        height: Some(height),
        depth: None,
    })
}

#[tactic(auto, unfolding(etx_matter::specs::Nests::IsNested, etx_matter::specs::Nests::node_depth, etx_matter::specs::Nests::IsNestedInner, etx_matter::specs::Nests::inner_depth))]
fn discretionary(alloc: Global, pre: Nodes, post: Nodes, replaces: u16) -> Result<Node, AllocError>
    requires pre { AreNested pre }
    requires post { AreNested post }
    ensures { IfOk result (λ it. IsNested it) }
{
    let disc = Discretionary {
        pre: InnerList::new(pre),
        post: InnerList::new(post),
        replaces,
    };
    Ok(Node::Disc(Boxed::new(alloc, disc)?))
}

#[tactic(auto, unfolding(etx_matter::specs::Nests::IsNested, etx_matter::specs::Nests::node_depth, etx_matter::specs::Nests::IsNestedInner, etx_matter::specs::Nests::inner_depth))]
fn adjustment(alloc: Global, list: Nodes) -> Result<Node, AllocError>
    requires { AreNested list }
    ensures { IfOk result (λ it. IsNested it) }
{
    Ok(Node::Adjust(Boxed::new(alloc, InnerList::new(list))?))
}

fn disc_alone(
    alloc: Global,
    font: &Font,
    pre: &[u8],
    post: &[u8],
    replaces: u16,
) -> Result<Nodes, AllocError>
    ensures { IfOk result AreNested }
{
    let pre = run(alloc, font, pre)?;
    let post = run(alloc, font, post)?;
    alone(alloc, discretionary(alloc, pre, post, replaces)?)
}

fn adjust_alone(alloc: Global, height: i32) -> Result<Nodes, AllocError>
    ensures { IfOk result AreNested }
{
    let rules = alone(alloc, rule(height))?;
    alone(alloc, adjustment(alloc, rules)?)
}

fn nodes_of(alloc: Global, font: &Font, item: &Item) -> Result<Nodes, AllocError>
    ensures { IfOk result AreNested }
{
    match item {
        Item::Run(chars) => run(alloc, font, *chars),
        Item::Glue(glue) => alone(alloc, glue_node(*glue)),
        Item::Penalty(it) => alone(alloc, penalty(*it)),
        Item::Kern(width, kind) => alone(alloc, kern(*width, *kind)),
        Item::Formula(width) => alone(alloc, formula(*width)),
        Item::Disc(pre, post, replaces) => disc_alone(alloc, font, *pre, *post, *replaces),
        Item::Adjust(height) => adjust_alone(alloc, *height),
    }
}

/// The list of these items. The only error is want of memory.
pub fn list(alloc: Global, font: &Font, items: &[Item]) -> Result<Nodes, AllocError>
    ensures { IfOk result AreNested }
{
    let mut nodes = no_nodes(alloc);
    for item in items {
        put_all(&mut nodes, nodes_of(alloc, font, item)?)?;
    }
    Ok(nodes)
}
