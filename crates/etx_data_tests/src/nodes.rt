//! Nodes and lists of them, with ample memory.
#![tactic(auto, unfolding(etx_matter::specs::Nests::IsNested, etx_matter::specs::Nests::AreNested, etx_matter::specs::Nests::IsNestedBox, etx_matter::specs::Nests::IsNestedInner, etx_matter::specs::Nests::list_depth, etx_matter::specs::Nests::node_depth, etx_matter::specs::Nests::box_depth, etx_matter::specs::Nests::inner_depth))]

ghost use Rattle.std.specs.Prelude.{IfOk};
ghost use Rattle.etx_matter.specs.Nests.{IsNested, AreNested, IsNestedBox};

use etx_lists::Bytes;
use etx_matter::{
    AtomKind, BoxNode, Boxed, Field, Glue, GlueOrder, GlueSet, InnerList, Leader, LeaderKind,
    LimitPlace, MathChar, Noad, Node, Nodes, RuleSize, What, copy_nodes, nesting,
};
use std::alloc::{AllocError, Global};
use std::mem::size_of;
use std::test::Fail;

fn is_penalty(node: Option<&Node>, wanted: i32) -> bool {
    match node {
        Some(Node::Penalty(penalty)) => *penalty == wanted,
        _ => false,
    }
}

fn boxed(vertical: bool, list: Nodes) -> BoxNode
    requires { AreNested list }
    ensures { IsNestedBox result }
{
    BoxNode {
        vertical,
        width: 1,
        height: 2,
        depth: 3,
        shift: 4,
        set: GlueSet::new(true, GlueOrder::Fill, -5, 6),
        list: InnerList::new(list),
    }
}

fn box_of(alloc: Global, vertical: bool, list: Nodes) -> Result<Node, AllocError>
    requires { AreNested list }
    ensures { IfOk result (λ it. IsNested it) }
{
    Ok(Node::Box(Boxed::new(alloc, boxed(vertical, list))?))
}

fn around(alloc: Global, list: Nodes) -> Result<Nodes, AllocError>
    requires { AreNested list }
    ensures { IfOk result (λ outer. AreNested outer) }
{
    let inner = box_of(alloc, false, list)?;
    let mut outer = Nodes::new(alloc);
    outer.push(Node::Penalty(1))?;
    outer.push(inner)?;
    outer.push(Node::Penalty(2))?;
    Ok(outer)
}

/// A list with one box, in which stands one box, and so on.
fn nested(alloc: Global, times: u32) -> Result<Nodes, AllocError>
    ensures { IfOk result (λ list. AreNested list) }
{
    let mut list = Nodes::new(alloc);
    for _ in 0..times {
        list = around(alloc, list)?;
    }
    Ok(list)
}

#[test]
fn lists_are_copied_appended_and_cut(rt: HostRuntime) -> Result<(), Fail> {
    let alloc = rt.alloc();
    let mut list = Nodes::new(alloc);
    list.push(Node::Penalty(5))?;
    let copy = copy_nodes(alloc, &list)?;
    assert!(rt; copy.len() == 1 && is_penalty(copy.at(0), 5));
    list.append(copy)?;
    assert!(rt; list.len() == 2);
    let rest = list.cut(1)?;
    assert!(rt; list.len() == 1 && is_penalty(list.at(0), 5) && list.at(1).is_none());
    assert!(rt; rest.len() == 1 && is_penalty(rest.at(0), 5));
    assert!(rt; is_penalty(list.pop().as_ref(), 5) && list.pop().is_none());
    Ok(())
}

#[test]
fn boxes_400_deep_are_measured_and_copied(rt: HostRuntime) -> Result<(), Fail> {
    let alloc = rt.alloc();
    let list = nested(alloc, 400)?;
    assert!(rt; nesting(&list) == 400);
    let copy = copy_nodes(alloc, &list)?;
    assert!(rt; nesting(&copy) == 400 && copy.len() == 3 && is_penalty(copy.at(2), 2));
    Ok(())
}

fn set_is_kept(node: &Node) -> bool {
    match node {
        Node::Box(it) => {
            let set = it.get().set;
            set.is_stretching()
                && set.order() == GlueOrder::Fill
                && set.num() == -5
                && set.den() == 6
        }
        _ => false,
    }
}

/// A list is built of so many, and moved as often.
const BYTES_OF_A_NODE: usize = 32;

#[test]
fn a_node_is_small(rt: HostRuntime) -> Result<(), Fail> {
    assert!(rt; size_of::<Node>() == BYTES_OF_A_NODE);
    Ok(())
}

#[test]
fn a_box_has_its_sizes_and_its_copy_too(rt: HostRuntime) -> Result<(), Fail> {
    let alloc = rt.alloc();
    let node = box_of(alloc, true, Nodes::new(alloc))?.copy(alloc)?;
    assert!(rt; node.width() == 1 && node.height() == 2 && node.depth() == 3);
    assert!(rt; set_is_kept(&node) && node.type_number() == 2 && !node.is_discardable());
    assert!(rt; node.nesting() == 1);
    Ok(())
}

#[test]
fn a_rule_that_runs_has_no_width(rt: HostRuntime) -> Result<(), Fail> {
    let rule = Node::Rule(RuleSize {
        width: None,
        height: Some(7),
        depth: Some(8),
    })
    .copy(rt.alloc())?;
    assert!(rt; rule.width() == 0 && rule.height() == 7 && rule.depth() == 8);
    Ok(())
}

fn atom(alloc: Global) -> Result<Node, AllocError> {
    let noad = Noad::Atom {
        kind: AtomKind::Op(LimitPlace::Beside),
        nucleus: Field::Symbol(MathChar {
            family: 1,
            code: 97,
        }),
        superscript: Field::SubBox(Boxed::new(alloc, boxed(false, Nodes::new(alloc)))?),
        subscript: Field::SubFormula(InnerList::new(Nodes::new(alloc))),
    };
    Ok(Node::Noad(Boxed::new(alloc, noad)?))
}

fn special(alloc: Global) -> Result<Node, AllocError> {
    let text = Bytes::from_slice(alloc, b"ink")?;
    Ok(Node::What(Boxed::new(alloc, What::Special(text))?))
}

/// Glue of a leader's boxes.
fn dots(alloc: Global) -> Result<Node, AllocError> {
    let leader = Leader::Boxes {
        kind: LeaderKind::Centered,
        item: boxed(false, Nodes::new(alloc)),
    };
    let glue = Glue {
        width: 9,
        stretch: 1,
        shrink: 0,
        stretch_order: GlueOrder::Filll,
        shrink_order: GlueOrder::Normal,
    };
    Ok(Node::Leaders {
        glue,
        leader: Boxed::new(alloc, leader)?,
    })
}

fn is_dots(node: &Node) -> bool {
    match node {
        Node::Leaders { glue, leader } => match leader.get() {
            Leader::Boxes { item, .. } => {
                glue.stretch_order == GlueOrder::Filll && item.shift == 4
            }
            Leader::Ruled(_) => false,
        },
        _ => false,
    }
}

fn is_atom(node: &Node) -> bool {
    match node {
        Node::Noad(noad) => match noad.get() {
            Noad::Atom {
                superscript: Field::SubBox(it),
                subscript: Field::SubFormula(list),
                ..
            } => { it.get().height == 2 && list.nodes.is_empty() }
            _ => false,
        },
        _ => false,
    }
}

fn is_ink(node: &Node) -> bool {
    match node {
        Node::What(what) => match what.get() {
            What::Special(text) => text.as_slice() == b"ink".as_slice(),
            _ => false,
        },
        _ => false,
    }
}

#[test]
fn parts_behind_a_box_are_copied(rt: HostRuntime) -> Result<(), Fail> {
    let alloc = rt.alloc();
    assert!(rt; is_atom(&atom(alloc)?.copy(alloc)?));
    assert!(rt; is_dots(&dots(alloc)?.copy(alloc)?));
    assert!(rt; is_ink(&special(alloc)?.copy(alloc)?));
    Ok(())
}
