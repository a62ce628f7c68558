//! The lines of chosen breaks, with ample memory.
use etx_matter::{BoxNode, Glue, GlueOrder, KernKind, Node, Nodes};
use etx_patterns::Patterns;
use etx_sealed::{LineSkips, Lines, ParagraphPenalties};
use etx_setlines::{interline_glue, set_lines};
use etx_texts::{Item, POINT, Setup, glue, initex, sealed};
use etx_tfm::FontFault;
use std::alloc::Global;
use std::test::Fail;

const FILL: Glue = Glue {
    width: 0,
    stretch: 65_536,
    shrink: 0,
    stretch_order: GlueOrder::Fil,
    shrink_order: GlueOrder::Normal,
};

const PENALTIES: ParagraphPenalties = ParagraphPenalties {
    inter_line: 1,
    club: 10,
    widow: 100,
    display_widow: 1000,
    broken: 10_000,
};

/// A last line that is filled, and lines whose feet are 12pt apart, or 1pt where they would come nearer than that.
fn skips() -> LineSkips {
    LineSkips {
        par_fill: FILL,
        baseline: glue(12 * POINT),
        line: glue(POINT),
        ..initex(0).skips
    }
}

/// The lines of these items in 20pt that end at these breaks.
fn lines_of(alloc: Global, items: &[Item], breaks: &[u32]) -> Result<Lines, FontFault> {
    let setup = Setup {
        penalties: PENALTIES,
        skips: skips(),
        ..initex(20 * POINT)
    };
    let sealed = sealed(alloc, items, setup, Patterns::new(alloc)?)?;
    let lines = set_lines(alloc, sealed.get(), breaks)?;
    Ok(lines)
}

fn box_at(list: &Nodes, at: usize) -> Option<&BoxNode> {
    match list.at(at) {
        Some(Node::Box(it)) => Some(it.get()),
        _ => None,
    }
}

fn is_glue(list: &Nodes, at: usize, width: i32) -> bool {
    match list.at(at) {
        Some(Node::Glue(glue)) => glue.width == width,
        _ => false,
    }
}

fn is_penalty(list: &Nodes, at: usize, wanted: i32) -> bool {
    match list.at(at) {
        Some(Node::Penalty(penalty)) => *penalty == wanted,
        _ => false,
    }
}

fn is_rule(list: &Nodes, at: usize) -> bool {
    matches!(list.at(at), Some(Node::Rule(_)))
}

/// Whether a line stands at a place that has so many items, with these characters among them.
fn is_line(list: &Nodes, at: usize, items: usize, wanted: &[u8]) -> bool {
    match box_at(list, at) {
        Some(it) => it.list.nodes.len() == items && holds(&it.list.nodes, wanted),
        None => false,
    }
}

/// Whether the characters of a list are these.
fn holds(list: &Nodes, wanted: &[u8]) -> bool {
    let mut i: usize = 0;
    for node in list.as_slice() {
        if let Node::Char { code, .. } = node {
            match wanted.get(i) {
                Some(wanted) if *wanted == *code => i = i.saturating_add(1),
                _ => return false,
            }
        }
    }
    i == wanted.len()
}

/// `ab ab ab`: two words and one.
#[test]
fn two_lines(rt: HostRuntime) -> Result<(), Fail> {
    let items = [
        Item::Run(b"ab"),
        Item::Glue(glue(163_840)),
        Item::Run(b"ab"),
        Item::Glue(glue(163_840)),
        Item::Run(b"ab"),
    ];
    let lines = lines_of(rt.alloc(), &items, &[6, 11])?;
    assert!(rt; lines.count == 2 && lines.badness == 0 && lines.depth == 0);
    assert!(rt; is_line(&lines.list, 0, 6, b"abab") && is_penalty(&lines.list, 1, 111));
    assert!(rt; is_glue(&lines.list, 2, 7 * POINT) && is_line(&lines.list, 3, 5, b"ab"));
    Ok(())
}

/// `ab ab ab ab`: the first line has a club's penalty, the last one but one a widow's, and none stands behind the last.
#[test]
fn penalties_behind_lines(rt: HostRuntime) -> Result<(), Fail> {
    let items = [
        Item::Run(b"ab"),
        Item::Glue(glue(POINT)),
        Item::Run(b"ab"),
        Item::Glue(glue(POINT)),
        Item::Run(b"ab"),
        Item::Glue(glue(POINT)),
        Item::Run(b"ab"),
    ];
    let list = lines_of(rt.alloc(), &items, &[3, 6, 9, 14])?.list;
    assert!(rt; list.len() == 10 && is_penalty(&list, 1, 11));
    assert!(rt; is_penalty(&list, 4, 1) && is_penalty(&list, 7, 101));
    Ok(())
}

/// A line ends with the first text of a discretionary, the next one begins with the second, and what it replaces is gone.
#[test]
fn texts_of_a_discretionary(rt: HostRuntime) -> Result<(), Fail> {
    let items = [
        Item::Run(b"ab"),
        Item::Disc(b"c-", b"d", 2),
        Item::Run(b"ab"),
        Item::Glue(glue(POINT)),
        Item::Run(b"ab"),
    ];
    let list = lines_of(rt.alloc(), &items, &[3, 11])?.list;
    assert!(rt; is_line(&list, 0, 6, b"abc-") && is_penalty(&list, 1, 10_111));
    assert!(rt; is_line(&list, 3, 7, b"dab"));
    Ok(())
}

/// What comes first behind a break goes, up to a kern of a font, and the glue at which a line is broken goes too.
#[test]
fn dropped_items(rt: HostRuntime) -> Result<(), Fail> {
    let items = [
        Item::Run(b"ab"),
        Item::Glue(glue(POINT)),
        Item::Penalty(5),
        Item::Kern(POINT, KernKind::Explicit),
        Item::Formula(POINT),
        Item::Kern(POINT, KernKind::Normal),
        Item::Glue(glue(POINT)),
        Item::Run(b"ab"),
    ];
    let list = lines_of(rt.alloc(), &items, &[3, 13])?.list;
    assert!(rt; is_line(&list, 0, 3, b"ab") && is_line(&list, 3, 7, b"ab"));
    Ok(())
}

/// What moves out of a line stands behind it, before the penalty and the glue.
#[test]
fn moved_material(rt: HostRuntime) -> Result<(), Fail> {
    let items = [
        Item::Run(b"ab"),
        Item::Adjust(POINT),
        Item::Glue(glue(POINT)),
        Item::Run(b"ab"),
    ];
    let list = lines_of(rt.alloc(), &items, &[4, 9])?.list;
    assert!(rt; is_line(&list, 0, 3, b"ab") && is_rule(&list, 1));
    assert!(rt; is_penalty(&list, 2, 111) && is_glue(&list, 3, 7 * POINT));
    Ok(())
}

/// None behind a depth that is ignored, what is left of the distance, and `\lineskip` where that is less than its limit.
#[test]
fn glue_between_lines(rt: HostRuntime) -> Result<(), Fail> {
    let skips = LineSkips {
        limit: 2 * POINT,
        ..skips()
    };
    assert!(rt; interline_glue(skips, -1000 * POINT, 0).is_none());
    assert!(rt; interline_glue(skips, 3 * POINT, 7 * POINT) == Some(glue(2 * POINT)));
    assert!(rt; interline_glue(skips, 3 * POINT, 8 * POINT) == Some(glue(POINT)));
    Ok(())
}
