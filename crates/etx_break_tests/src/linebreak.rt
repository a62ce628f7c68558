//! The breaks of small paragraphs, with ample memory.
use etx_linebreak::{break_paragraph, later_breaks};
use etx_matter::{Deed, Glue, GlueOrder, Node, Nodes};
use etx_patterns::{Patterns, Step};
use etx_sealed::{BreakParams, LineSkips, Outcome, SharedSealed};
use etx_texts::{Item, POINT, Setup, glue, initex, sealed};
use etx_tfm::FontFault;
use std::alloc::{AllocError, Global};
use std::test::Fail;

/// The space of the small font.
const SPACE: Glue = Glue {
    width: 163_840,
    stretch: 81_920,
    shrink: 40_960,
    stretch_order: GlueOrder::Normal,
    shrink_order: GlueOrder::Normal,
};

const FILL: Glue = Glue {
    width: 0,
    stretch: 65_536,
    shrink: 0,
    stretch_order: GlueOrder::Fil,
    shrink_order: GlueOrder::Normal,
};

/// The parameters of INITEX, but that the last line is filled.
fn filled(width: i32) -> Setup {
    let setup = initex(width);
    Setup {
        skips: LineSkips {
            par_fill: FILL,
            ..setup.skips
        },
        ..setup
    }
}

/// `ab ab ab`.
fn three_words(alloc: Global, setup: Setup) -> Result<SharedSealed, FontFault> {
    let items = [
        Item::Run(b"ab"),
        Item::Glue(SPACE),
        Item::Run(b"ab"),
        Item::Glue(SPACE),
        Item::Run(b"ab"),
    ];
    sealed(alloc, &items, setup, Patterns::new(alloc)?)
}

fn is_broken_at(alloc: Global, sealed: &SharedSealed, places: &[u32]) -> Result<bool, AllocError> {
    let breaks = later_breaks(alloc, sealed)?;
    Ok(breaks.as_slice() == places)
}

/// `ab ab ab` in 23pt: with two lines or with the break of one word less the demerits are the same, and the row of the
/// very loose last line stands first.
#[test]
fn the_first_of_equal_rows_ends_a_paragraph(rt: HostRuntime) -> Result<(), Fail> {
    let sealed = three_words(rt.alloc(), initex(23 * POINT))?;
    assert!(rt; is_broken_at(rt.alloc(), &sealed, &[6, 11])?);
    let outcome = break_paragraph(rt.alloc(), &sealed)?;
    assert!(rt; outcome.lines.count == 2 && outcome.second_pass);
    Ok(())
}

/// `ab ab ab` in 20pt, where the last line is filled.
#[test]
fn three_lines(rt: HostRuntime) -> Result<(), Fail> {
    let sealed = three_words(rt.alloc(), filled(20 * POINT))?;
    assert!(rt; is_broken_at(rt.alloc(), &sealed, &[3, 6, 11])?);
    Ok(())
}

const OVERFULL: &[u8] = b"Overfull \\hbox (10.0pt too wide) in paragraph at lines 2--2\n";

fn is_text(deed: Option<&Deed>, wanted: &[u8]) -> bool {
    match deed {
        Some(Deed::Text { bytes, .. }) => bytes.as_slice() == wanted,
        _ => false,
    }
}

/// `abcdef` in 20pt.
#[test]
fn a_word_that_is_too_long_is_an_artificial_line(rt: HostRuntime) -> Result<(), Fail> {
    let items = [Item::Run(b"abcdef")];
    let sealed = sealed(
        rt.alloc(),
        &items,
        initex(20 * POINT),
        Patterns::new(rt.alloc())?,
    )?;
    assert!(rt; is_broken_at(rt.alloc(), &sealed, &[9])?);
    let outcome = break_paragraph(rt.alloc(), &sealed)?;
    assert!(rt; outcome.errors.is_empty() && outcome.reports.len() == 2);
    assert!(rt; is_text(outcome.reports.at(1), OVERFULL));
    Ok(())
}

/// `\hskip0pt afib` in 12.5pt, where `fi` is a ligature.
fn afib(alloc: Global, tables: Patterns) -> Result<Outcome, FontFault> {
    let items = [Item::Glue(glue(0)), Item::Run(b"afib")];
    let sealed = sealed(alloc, &items, filled(25 * POINT / 2), tables)?;
    let outcome = break_paragraph(alloc, &sealed)?;
    Ok(outcome)
}

/// The natural width of the items of the last line, without the glue behind them.
fn last_width(lines: &Nodes) -> i64 {
    let mut width = 0;
    for node in lines.as_slice() {
        if let Node::Box(it) = node {
            width = list_width(&it.get().list.nodes);
        }
    }
    width
}

fn list_width(list: &Nodes) -> i64 {
    let mut width: i64 = 0;
    for node in list.as_slice() {
        width = width.saturating_add(i64::from(node.width()));
    }
    width
}

/// By a pattern the ligature is broken into `f-` and `i`.
#[test]
fn a_pattern_breaks_a_ligature(rt: HostRuntime) -> Result<(), Fail> {
    let mut tables = Patterns::new(rt.alloc())?;
    tables.add(0, &[Step::Letter(b'f'), Step::Digit(1), Step::Letter(b'i')])?;
    let lines = afib(rt.alloc(), tables)?.lines;
    assert!(rt; lines.count == 2 && last_width(&lines.list) == 491_520);
    Ok(())
}

/// By an exception `a-` ends the first line, and the ligature stays.
#[test]
fn an_exception_leaves_a_ligature(rt: HostRuntime) -> Result<(), Fail> {
    let mut tables = Patterns::new(rt.alloc())?;
    tables.except(0, b"afib", &[1])?;
    let lines = afib(rt.alloc(), tables)?.lines;
    assert!(rt; lines.count == 2 && last_width(&lines.list) == 819_200);
    Ok(())
}

/// How many lines four words have that fit on two lines or, more loosely, on three.
fn lines_at(alloc: Global, looseness: i32) -> Result<usize, FontFault> {
    let items = [
        Item::Run(b"ab"),
        Item::Glue(SPACE),
        Item::Run(b"ab"),
        Item::Glue(SPACE),
        Item::Run(b"ab"),
        Item::Glue(SPACE),
        Item::Run(b"ab"),
    ];
    let setup = filled(22 * POINT);
    let setup = Setup {
        breaks: BreakParams {
            looseness,
            ..setup.breaks
        },
        ..setup
    };
    let sealed = sealed(alloc, &items, setup, Patterns::new(alloc)?)?;
    let breaks = later_breaks(alloc, &sealed)?;
    Ok(breaks.len())
}

#[test]
fn looseness_takes_a_line_more(rt: HostRuntime) -> Result<(), Fail> {
    assert!(rt; lines_at(rt.alloc(), 0)? == 2);
    assert!(rt; lines_at(rt.alloc(), 1)? == 3);
    Ok(())
}
