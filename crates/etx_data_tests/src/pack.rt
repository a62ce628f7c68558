//! Vectors, and that memory isn't wanting where there is some.
#![tactic(auto, unfolding(etx_matter::specs::Nests::IsNested, etx_matter::specs::Nests::AreNested, etx_matter::specs::Nests::list_depth, etx_matter::specs::Nests::node_depth))]

ghost use Rattle.std.specs.Prelude.{IfOk};
ghost use Rattle.etx_matter.specs.Nests.{IsNested, AreNested};

use etx_matter::{
    BoxNode, CharSize, Glue, GlueOrder, GlueSet, Goal, KernKind, Limits, Node, Nodes, Report,
    ReportKind, RuleSize,
};
use etx_pack::{Packed, growth, hpack, pull, vpack};
use std::alloc::{AllocError, Global};
use std::test::Fail;

/// 5pt.
const HALF: i32 = 327_680;

const NO_LIMITS: Limits = Limits {
    badness: 0,
    fuzz: 0,
    rule: 0,
};

fn letter(code: u8) -> Node
    ensures { IsNested result }
{
    Node::Char {
        font: 1,
        code,
        size: CharSize {
            width: HALF,
            height: HALF,
            depth: 0,
            italic: 0,
        },
    }
}

/// Two letters, each 5pt wide and 5pt high.
fn letters(alloc: Global) -> Result<Nodes, AllocError>
    ensures { IfOk result (λ it. AreNested it) }
{
    let mut list = Nodes::new(alloc);
    list.push(letter(97))?;
    list.push(letter(98))?;
    Ok(list)
}

fn is_quiet(packed: &Packed) -> bool {
    packed.badness == 0 && packed.report.is_none()
}

/// Whether two letters and a rule stand in the box, with glue that shrinks by all that it can.
fn ends_with_rule(node: &BoxNode, wanted: i32) -> bool {
    let is_marked = match node.list.nodes.at(2) {
        Some(Node::Rule(size)) => size.width == Some(wanted) && size.height.is_none(),
        _ => false,
    };
    is_marked && node.list.nodes.len() == 3 && node.set.num() == 1 && node.set.den() == 1
}

#[test]
fn two_letters_fill_their_box(rt: HostRuntime) -> Result<(), Fail> {
    let list = letters(rt.alloc())?;
    let packed = hpack(list, Goal::Exactly(655_360), NO_LIMITS)?;
    assert!(rt; packed.node.width == 655_360 && packed.node.height == HALF);
    assert!(rt; packed.node.depth == 0 && is_quiet(&packed));
    Ok(())
}

#[test]
fn an_empty_list_makes_an_empty_box(rt: HostRuntime) -> Result<(), Fail> {
    let packed = vpack(Nodes::new(rt.alloc()), Goal::Natural, 0, NO_LIMITS);
    assert!(rt; packed.node.width == 0 && packed.node.height == 0 && packed.node.depth == 0);
    assert!(rt; is_quiet(&packed));
    Ok(())
}

fn is_too_wide(packed: &Packed, by: i32) -> bool {
    let told = Report {
        kind: ReportKind::Overfull,
        vertical: false,
        number: by,
    };
    packed.badness == 1_000_000 && packed.report == Some(told)
}

#[test]
fn a_line_that_is_too_long_is_marked(rt: HostRuntime) -> Result<(), Fail> {
    let list = letters(rt.alloc())?;
    let limits = Limits {
        badness: 10_000,
        fuzz: 6553,
        rule: HALF,
    };
    let packed = hpack(list, Goal::Exactly(HALF), limits)?;
    assert!(rt; is_too_wide(&packed, HALF));
    assert!(rt; ends_with_rule(&packed.node, HALF));
    Ok(())
}

/// A rule of 3pt below its baseline, and 1pt above it.
fn hanging(alloc: Global) -> Result<Nodes, AllocError>
    ensures { IfOk result (λ it. AreNested it) }
{
    let mut list = Nodes::new(alloc);
    list.push(Node::Rule(RuleSize {
        width: Some(HALF),
        height: Some(65_536),
        depth: Some(196_608),
    }))?;
    Ok(list)
}

#[test]
fn what_hangs_too_deep_belongs_to_the_height(rt: HostRuntime) -> Result<(), Fail> {
    let packed = vpack(hanging(rt.alloc())?, Goal::Natural, 65_536, NO_LIMITS);
    assert!(rt; packed.node.height == 196_608 && packed.node.depth == 65_536);
    assert!(rt; packed.node.width == HALF && is_quiet(&packed));
    Ok(())
}

/// Three kerns of the least size that TeX knows.
fn least_kerns(alloc: Global) -> Result<Nodes, AllocError>
    ensures { IfOk result (λ it. AreNested it) }
{
    let mut list = Nodes::new(alloc);
    list.push(least_kern())?;
    list.push(least_kern())?;
    list.push(least_kern())?;
    Ok(list)
}

fn least_kern() -> Node
    ensures { IsNested result }
{
    Node::Kern {
        width: -1_073_741_823,
        kind: KernKind::Explicit,
    }
}

#[test]
fn the_least_size_has_a_negative(rt: HostRuntime) -> Result<(), Fail> {
    let line = hpack(least_kerns(rt.alloc())?, Goal::Natural, NO_LIMITS)?;
    assert!(rt; line.node.width == -2_147_483_647);
    let column = vpack(least_kerns(rt.alloc())?, Goal::Natural, 0, NO_LIMITS);
    assert!(rt; column.node.height == -2_147_483_647);
    Ok(())
}

#[test]
fn glue_is_rounded_by_its_sum(rt: HostRuntime) -> Result<(), Fail> {
    let set = GlueSet::new(true, GlueOrder::Fil, 1, 3);
    let glue = Glue {
        width: 0,
        stretch: 1,
        shrink: 0,
        stretch_order: GlueOrder::Fil,
        shrink_order: GlueOrder::Normal,
    };
    assert!(rt; pull(&set, &glue) == 1);
    assert!(rt; growth(&set, 1) == 0 && growth(&set, 2) == 1 && growth(&set, 3) == 1);
    Ok(())
}
