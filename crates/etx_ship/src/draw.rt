//! A box is walked, and what it puts on the page is written on the way.
ghost use Rattle.std.specs.Prelude.{◌≡◌, ◌&&◌, ◌+ℤ◌, map, IfOk, OnOk};
ghost use Rattle.std.specs.Int.{is_positive};
ghost use Rattle.etx_ship.specs.Hands.{drawn, Draws};
ghost use Rattle.etx_ship.specs.Places.{here, is_empty, letter_step, rule_step, bar_at, block_at, size_or, down_rule, across_rule, any_boxed, lower_boxed, below_step, beside_step, box_step, box_shown, boxed, what_step, node_moves, places_of};
ghost use Rattle.etx_ship.specs.Spots.{place};

use crate::leaders::draw_leaders;
use crate::pen::Pen;
use crate::place::{Extent, Frame, Point, Spot, plus};
use etx_matter::{BoxNode, CharSize, Node, RuleSize, What};
use std::alloc::AllocError;

/// Draws a box whose reference point stands here.
#[cycle(drawing)]
#[tactic(auto, unfolding(crate::specs::Places::places_of, crate::specs::Places::box_shown, crate::specs::Places::node_moves))]
pub(crate) fn draw_box(pen: &mut Pen<'_>, it: &BoxNode, at: Point) -> Result<(), AllocError>
    ensures { OnOk result (pen.new ≡ drawn (places_of it.now at) pen.old) }
{
    let frame = Frame::new(it, at)?;
    let mut spot = frame.start();
    for node in it.list.nodes.as_slice() {
        spot = draw_node(pen, node, &frame, spot)?;
    }
    Ok(())
}

/// Draws a box between its beginning and its end.
#[cycle(drawing)]
#[tactic(auto, using(crate::proofs::Drawing::drawn_append), unfolding(crate::specs::Places::places_of))]
pub(crate) fn draw_boxed(pen: &mut Pen<'_>, it: &BoxNode, at: Point) -> Result<(), AllocError>
    ensures { OnOk result (pen.new ≡ drawn (boxed (box_shown it.now) at) pen.old) }
{
    pen.open()?;
    draw_box(pen, it, at)?;
    pen.close()
}

// Draws an item of a list, and gives the place of the next one. Most items are characters.
#[inline(always)]
#[cycle(drawing)]
#[tactic(auto, unfolding(crate::specs::Places::node_moves))]
fn draw_node(pen: &mut Pen<'_>, node: &Node, frame: &Frame, spot: Spot) -> Result<Spot, AllocError>
    ensures { IfOk result (λ next. Draws (node_moves node.now frame.now spot) pen.old pen.new next) }
{
    if let Node::Char { font, code, size } = node {
        return draw_letter(pen, *font, *code, size, frame, spot);
    }
    draw_any_node(pen, node, frame, spot)
}

// The same, whatever the item is.
#[cycle(drawing)]
#[tactic(auto, unfolding(crate::specs::Places::node_moves, crate::specs::Places::leader_leads, crate::specs::Places::box_shown))]
fn draw_any_node(
    pen: &mut Pen<'_>,
    node: &Node,
    frame: &Frame,
    spot: Spot,
) -> Result<Spot, AllocError>
    ensures { IfOk result (λ next. Draws (node_moves node.now frame.now spot) pen.old pen.new next) }
{
    match node {
        Node::Char { font, code, size } => { draw_letter(pen, *font, *code, size, frame, spot) }
        Node::Lig {
            font,
            code,
            size,
            ..
        } => draw_letter(pen, *font, *code, size, frame, spot),
        Node::Kern { width, .. } => spot.moved(*width as i64),
        Node::Glue(glue) => spot.glued(&frame.set, glue),
        Node::Leaders { glue, leader } => {
            let end = spot.glued(&frame.set, glue)?;
            draw_leaders(pen, leader.get(), frame, spot, end)?;
            Ok(end)
        }
        Node::Rule(size) => draw_rule(pen, size, frame, spot),
        Node::Box(it) => draw_inner(pen, it.get(), frame, spot),
        Node::What(what) => draw_what(pen, what.get(), frame, spot),
        Node::Math { width, .. } => {
            if frame.vertical {
                Ok(spot)
            } else {
                spot.moved(*width as i64)
            }
        }
        Node::Penalty(_)
        | Node::Ins(_)
        | Node::Mark(_)
        | Node::Adjust(_)
        | Node::Disc(_)
        | Node::Unset(_)
        | Node::Noad(_) => Ok(spot),
    }
}

// Where an item of a list stands.
#[inline(always)]
fn point_of(frame: &Frame, spot: Spot) -> Result<Point, AllocError>
    ensures { IfOk result (λ at. at ≡ here frame.now spot) }
{
    let place = spot.place()?;
    if frame.vertical {
        Ok(Point {
            h: frame.side,
            v: place,
        })
    } else {
        Ok(Point {
            h: place,
            v: frame.side,
        })
    }
}

#[inline(always)]
#[tactic(auto, unfolding(crate::specs::Places::letter_step))]
fn draw_letter(
    pen: &mut Pen<'_>,
    font: u8,
    code: u8,
    size: &CharSize,
    frame: &Frame,
    spot: Spot,
) -> Result<Spot, AllocError>
    ensures { IfOk result (λ next. Draws (letter_step font code size.now frame.now spot) pen.old pen.new next) }
{
    if frame.vertical {
        return Ok(spot);
    }
    let at = point_of(frame, spot)?;
    pen.letter(font, code, size, at)?;
    spot.moved(size.width as i64)
}

/// The sizes of a rule, none of which runs.
#[derive(Clone, Copy)]
pub(crate) struct Solid {
    pub width: i64,
    pub height: i64,
    pub depth: i64,
}

// A size that runs is that of the box around it.
fn size_of(around: i32, size: Option<i32>) -> i64
    ensures { result ≡ size_or around size }
{
    match size {
        Some(size) => size as i64,
        None => around as i64,
    }
}

/// The sizes of a rule in a box.
pub(crate) fn solid_of(size: &RuleSize, frame: &Frame) -> Solid
    ensures width { result.width ≡ size_or frame.now.width size.now.width }
    ensures height { result.height ≡ size_or frame.now.height size.now.height }
    ensures depth { result.depth ≡ size_or frame.now.depth size.now.depth }
{
    Solid {
        width: size_of(frame.width, size.width),
        height: size_of(frame.height, size.height),
        depth: size_of(frame.depth, size.depth),
    }
}

// Whether a rule has a size.
fn is_solid(thick: i64, width: i64) -> bool
    ensures { result ≡ (is_positive thick && is_positive width) }
{
    thick > 0 && width > 0
}

/// Draws a rule of a horizontal list, if it has a size. Its lower left corner stands here.
pub(crate) fn draw_bar(pen: &mut Pen<'_>, size: Extent, at: Point) -> Result<(), AllocError>
    ensures { OnOk result (pen.new ≡ drawn (bar_at size.height size.width at) pen.old) }
{
    if is_solid(size.height, size.width) {
        pen.bar(size, at)?;
    }
    Ok(())
}

/// Draws a rule of a vertical list, if it has a size. Its lower left corner stands here.
pub(crate) fn draw_block(pen: &mut Pen<'_>, size: Extent, at: Point) -> Result<(), AllocError>
    ensures { OnOk result (pen.new ≡ drawn (block_at size.height size.width at) pen.old) }
{
    if is_solid(size.height, size.width) {
        pen.block(size, at)?;
    }
    Ok(())
}

#[tactic(auto, unfolding(crate::specs::Places::rule_step))]
fn draw_rule(
    pen: &mut Pen<'_>,
    size: &RuleSize,
    frame: &Frame,
    spot: Spot,
) -> Result<Spot, AllocError>
    ensures { IfOk result (λ next. Draws (rule_step size.now frame.now spot) pen.old pen.new next) }
{
    let size = solid_of(size, frame);
    if frame.vertical {
        draw_down_rule(pen, size, frame, spot)
    } else {
        draw_across_rule(pen, size, frame, spot)
    }
}

fn draw_down_rule(
    pen: &mut Pen<'_>,
    size: Solid,
    frame: &Frame,
    spot: Spot,
) -> Result<Spot, AllocError>
    ensures { IfOk result (λ next. Draws (down_rule size.height size.depth size.width frame.now spot) pen.old pen.new next) }
{
    let height = plus(size.height, size.depth)?;
    let at = Point {
        h: frame.side,
        v: plus(spot.place()?, height)?,
    };
    let next = spot.moved(height)?;
    let size = Extent {
        height,
        width: size.width,
    };
    draw_block(pen, size, at)?;
    Ok(next)
}

fn draw_across_rule(
    pen: &mut Pen<'_>,
    size: Solid,
    frame: &Frame,
    spot: Spot,
) -> Result<Spot, AllocError>
    ensures { IfOk result (λ next. Draws (across_rule size.height size.depth size.width frame.now spot) pen.old pen.new next) }
{
    let at = Point {
        h: spot.place()?,
        v: plus(frame.side, size.depth)?,
    };
    let next = spot.moved(size.width)?;
    let size = Extent {
        height: plus(size.height, size.depth)?,
        width: size.width,
    };
    draw_bar(pen, size, at)?;
    Ok(next)
}

fn has_no_item(nodes: &[Node]) -> bool
    ensures { result ≡ is_empty (map node_moves nodes.now) }
{
    nodes.is_empty()
}

#[tactic(auto, unfolding(crate::specs::Places::box_shown, crate::specs::Places::node_moves))]
fn is_empty_box(it: &BoxNode) -> bool
    ensures { result ≡ (box_shown it.now).empty }
{
    has_no_item(it.list.nodes.as_slice())
}

// The height and the depth of a box together.
#[tactic(auto, unfolding(crate::specs::Places::box_shown))]
fn tall_of(it: &BoxNode) -> i64
    ensures { result ≡ (box_shown it.now).height +ℤ (box_shown it.now).depth }
{
    it.height as i64 + it.depth as i64
}

// Where a box stands in a vertical list.
#[tactic(auto, unfolding(crate::specs::Places::box_shown))]
fn lower_point(it: &BoxNode, frame: &Frame, spot: Spot) -> Result<Point, AllocError>
    ensures { IfOk result (λ at. at ≡ record { h = frame.now.side +ℤ (box_shown it.now).shift; v = place spot +ℤ (box_shown it.now).height }) }
{
    Ok(Point {
        h: plus(frame.side, it.shift as i64)?,
        v: plus(spot.place()?, it.height as i64)?,
    })
}

// Draws a box between its beginning and its end, unless it has no item.
#[cycle(drawing)]
fn draw_any(pen: &mut Pen<'_>, it: &BoxNode, at: Point) -> Result<(), AllocError>
    ensures { OnOk result (pen.new ≡ drawn (any_boxed (box_shown it.now) at) pen.old) }
{
    if is_empty_box(it) {
        return Ok(());
    }
    draw_boxed(pen, it, at)
}

// The same, and its place down is gone to before it begins.
#[cycle(drawing)]
fn draw_lower(pen: &mut Pen<'_>, it: &BoxNode, at: Point) -> Result<(), AllocError>
    ensures { OnOk result (pen.new ≡ drawn (lower_boxed (box_shown it.now) at) pen.old) }
{
    if is_empty_box(it) {
        return Ok(());
    }
    pen.go_down(at.v)?;
    draw_boxed(pen, it, at)
}

// Draws a box in a list.
#[cycle(drawing)]
#[tactic(auto, unfolding(crate::specs::Places::box_step, crate::specs::Places::box_shown))]
fn draw_inner(
    pen: &mut Pen<'_>,
    it: &BoxNode,
    frame: &Frame,
    spot: Spot,
) -> Result<Spot, AllocError>
    ensures { IfOk result (λ next. Draws (box_step (box_shown it.now) frame.now spot) pen.old pen.new next) }
{
    if frame.vertical {
        draw_below(pen, it, frame, spot)
    } else {
        draw_beside(pen, it, frame, spot)
    }
}

// A box in a vertical list. Its place down is gone to before it begins.
#[cycle(drawing)]
fn draw_below(
    pen: &mut Pen<'_>,
    it: &BoxNode,
    frame: &Frame,
    spot: Spot,
) -> Result<Spot, AllocError>
    ensures { IfOk result (λ next. Draws (below_step (box_shown it.now) frame.now spot) pen.old pen.new next) }
{
    let at = lower_point(it, frame, spot)?;
    let next = spot.moved(tall_of(it))?;
    draw_lower(pen, it, at)?;
    Ok(next)
}

// A box in a horizontal list.
#[cycle(drawing)]
#[tactic(auto, unfolding(crate::specs::Places::box_shown))]
fn draw_beside(
    pen: &mut Pen<'_>,
    it: &BoxNode,
    frame: &Frame,
    spot: Spot,
) -> Result<Spot, AllocError>
    ensures { IfOk result (λ next. Draws (beside_step (box_shown it.now) frame.now spot) pen.old pen.new next) }
{
    let at = Point {
        h: spot.place()?,
        v: plus(frame.side, it.shift as i64)?,
    };
    let next = spot.moved(it.width as i64)?;
    draw_any(pen, it, at)?;
    Ok(next)
}

#[tactic(auto, unfolding(crate::specs::Places::what_step))]
fn draw_what(pen: &mut Pen<'_>, what: &What, frame: &Frame, spot: Spot) -> Result<Spot, AllocError>
    ensures { IfOk result (λ next. Draws (what_step what.now frame.now spot) pen.old pen.new next) }
{
    match what {
        What::Special(text) => {
            let at = point_of(frame, spot)?;
            pen.note(text, at)?;
            Ok(spot)
        }
        What::OpenFile { .. }
        | What::Write { .. }
        | What::CloseFile { .. }
        | What::Language { .. } => Ok(spot),
    }
}
