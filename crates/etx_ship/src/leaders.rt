//! What fills the space of a glue.
ghost use Rattle.std.specs.Prelude.{◌≡◌, ◌^◌, pos, ◌<ℤ◌, OnOk};
ghost use Rattle.etx_ship.specs.Hands.{drawn};
ghost use Rattle.etx_ship.specs.Places.{ruled, ruled_down, ruled_across, filled, copy_at, repeated, box_shown, leader_leads, length_along};

use crate::copies::{Repeats, copies};
use crate::draw::{Solid, draw_bar, draw_block, draw_boxed, solid_of};
use crate::pen::Pen;
use crate::place::{Extent, Frame, Point, Spot, minus, plus};
use etx_matter::{BoxNode, Leader, LeaderKind, RuleSize};
use std::alloc::AllocError;

/// Draws leaders from the beginning to the end of their glue.
#[cycle(drawing)]
#[tactic(auto, unfolding(crate::specs::Places::leader_leads, crate::specs::Places::box_shown))]
pub(crate) fn draw_leaders(
    pen: &mut Pen<'_>,
    leader: &Leader,
    frame: &Frame,
    start: Spot,
    end: Spot,
) -> Result<(), AllocError>
    ensures { OnOk result (pen.new ≡ drawn (leader_leads leader.now frame.now start end) pen.old) }
{
    match leader {
        Leader::Ruled(size) => draw_ruled(pen, size, frame, start, end),
        Leader::Boxes { kind, item } => { draw_filled(pen, *kind, item, frame, start, end) }
    }
}

#[tactic(auto, unfolding(crate::specs::Places::ruled))]
fn draw_ruled(
    pen: &mut Pen<'_>,
    size: &RuleSize,
    frame: &Frame,
    start: Spot,
    end: Spot,
) -> Result<(), AllocError>
    ensures { OnOk result (pen.new ≡ drawn (ruled size.now frame.now start end) pen.old) }
{
    let size = solid_of(size, frame);
    if frame.vertical {
        draw_ruled_down(pen, size, frame, start, end)
    } else {
        draw_ruled_across(pen, size, frame, start, end)
    }
}

// A rule that is as high as the space.
fn draw_ruled_down(
    pen: &mut Pen<'_>,
    size: Solid,
    frame: &Frame,
    start: Spot,
    end: Spot,
) -> Result<(), AllocError>
    ensures { OnOk result (pen.new ≡ drawn (ruled_down size.width frame.now start end) pen.old) }
{
    let from = start.place()?;
    let gap = minus(end.place()?, from)?;
    let at = Point {
        h: frame.side,
        v: plus(from, gap)?,
    };
    let size = Extent {
        height: gap,
        width: size.width,
    };
    draw_block(pen, size, at)?;
    Ok(())
}

// A rule that is as wide as the space.
fn draw_ruled_across(
    pen: &mut Pen<'_>,
    size: Solid,
    frame: &Frame,
    start: Spot,
    end: Spot,
) -> Result<(), AllocError>
    ensures { OnOk result (pen.new ≡ drawn (ruled_across size.height size.depth frame.now start end) pen.old) }
{
    let from = start.place()?;
    let gap = minus(end.place()?, from)?;
    let at = Point {
        h: from,
        v: plus(frame.side, size.depth)?,
    };
    let size = Extent {
        height: plus(size.height, size.depth)?,
        width: gap,
    };
    draw_bar(pen, size, at)?;
    Ok(())
}

// The size of a box along the list in which it stands.
#[tactic(auto, unfolding(crate::specs::Places::box_shown))]
fn size_along(frame: &Frame, it: &BoxNode) -> i64
    ensures value { result ≡ length_along frame.now.vertical (box_shown it.now) }
    ensures small { result <ℤ pos (2 ^ 33) }
{
    if frame.vertical {
        it.height as i64 + it.depth as i64
    } else {
        it.width as i64
    }
}

#[cycle(drawing)]
#[tactic(auto, unfolding(crate::specs::Places::filled, crate::specs::Places::repeated))]
fn draw_filled(
    pen: &mut Pen<'_>,
    kind: LeaderKind,
    it: &BoxNode,
    frame: &Frame,
    start: Spot,
    end: Spot,
) -> Result<(), AllocError>
    ensures { OnOk result (pen.new ≡ drawn (filled kind (box_shown it.now) frame.now start end) pen.old) }
{
    let from = start.place()?;
    let gap = minus(end.place()?, from)?;
    let mut row = copies(kind, frame.edge, from, gap, size_along(frame, it))?;
    while row.count > 0 {
        draw_copy(pen, it, frame, row)?;
        row = row.behind_first()?;
    }
    Ok(())
}

// Draws the first of a row of boxes.
#[cycle(drawing)]
#[tactic(auto, unfolding(crate::specs::Places::copy_at, crate::specs::Places::box_shown))]
fn draw_copy(pen: &mut Pen<'_>, it: &BoxNode, frame: &Frame, row: Repeats) -> Result<(), AllocError>
    ensures { OnOk result (pen.new ≡ drawn (copy_at (box_shown it.now) frame.now row.first) pen.old) }
{
    if frame.vertical {
        let at = Point {
            h: plus(frame.side, it.shift as i64)?,
            v: plus(row.first, it.height as i64)?,
        };
        pen.go_right(at.h)?;
        pen.go_down(at.v)?;
        draw_boxed(pen, it, at)
    } else {
        let at = Point {
            h: row.first,
            v: plus(frame.side, it.shift as i64)?,
        };
        pen.go_down(at.v)?;
        pen.go_right(at.h)?;
        draw_boxed(pen, it, at)
    }
}
