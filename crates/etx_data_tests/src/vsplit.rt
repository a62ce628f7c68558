//! Vectors, and that memory isn't wanting where there is some.
use etx_lists::Listed;
use etx_matter::{Glue, GlueOrder, Node, Nodes, RuleSize};
use etx_vsplit::{Split, vert_break};
use std::alloc::{AllocError, Global};
use std::test::Fail;

/// 5pt.
const LINE: i32 = 327_680;

fn line() -> Node {
    Node::Rule(RuleSize {
        width: Some(LINE),
        height: Some(LINE),
        depth: Some(0),
    })
}

fn glue(shrink: i32, shrink_order: GlueOrder) -> Node {
    Node::Glue(Glue {
        width: 0,
        stretch: 0,
        shrink,
        stretch_order: GlueOrder::Normal,
        shrink_order,
    })
}

/// Four lines of 5pt, with glue of no size between them.
fn four_lines(alloc: Global) -> Result<Nodes, AllocError> {
    let mut list = Nodes::new(alloc);
    for _ in 0..3 {
        list.push(line())?;
        list.push(glue(0, GlueOrder::Normal))?;
    }
    list.push(line())?;
    Ok(list)
}

fn is_at(split: &Split, place: u32, height: i32) -> bool {
    split.at == Some(place) && split.height == height && split.shrinks.is_empty()
}

#[test]
fn three_of_four_lines_fit(rt: HostRuntime) -> Result<(), Fail> {
    let list = four_lines(rt.alloc())?;
    let split = vert_break(rt.alloc(), &list, 983_040, 0)?;
    assert!(rt; is_at(&split, 5, 983_040));
    Ok(())
}

#[test]
fn all_lines_fit(rt: HostRuntime) -> Result<(), Fail> {
    let list = four_lines(rt.alloc())?;
    let split = vert_break(rt.alloc(), &list, 4 * LINE, 0)?;
    assert!(rt; split.at.is_none() && split.height == 4 * LINE);
    Ok(())
}

/// Two lines, between which a break costs the same at two places.
fn twice_the_same(alloc: Global) -> Result<Nodes, AllocError> {
    let mut list = Nodes::new(alloc);
    list.push(line())?;
    list.push(Node::Penalty(7))?;
    list.push(Node::Penalty(7))?;
    list.push(line())?;
    Ok(list)
}

#[test]
fn of_equal_breaks_the_later_is_best(rt: HostRuntime) -> Result<(), Fail> {
    let list = twice_the_same(rt.alloc())?;
    let split = vert_break(rt.alloc(), &list, LINE, 0)?;
    assert!(rt; is_at(&split, 2, LINE));
    Ok(())
}

/// Two lines, with glue that shrinks infinitely at the start and between them.
fn shrinking(alloc: Global) -> Result<Nodes, AllocError> {
    let mut list = Nodes::new(alloc);
    list.push(glue(1, GlueOrder::Fil))?;
    list.push(line())?;
    list.push(glue(1, GlueOrder::Filll))?;
    list.push(line())?;
    list.push(glue(1, GlueOrder::Fil))?;
    list.push(line())?;
    Ok(list)
}

fn are_first_two(places: &Listed<u32>) -> bool {
    places.as_slice() == [0, 2].as_slice()
}

#[test]
fn infinite_shrink_is_told_up_to_the_last_break(rt: HostRuntime) -> Result<(), Fail> {
    let list = shrinking(rt.alloc())?;
    let split = vert_break(rt.alloc(), &list, LINE, 0)?;
    assert!(rt; split.at == Some(2) && split.height == LINE);
    assert!(rt; are_first_two(&split.shrinks));
    Ok(())
}
