//! Places on a page, in sp, right of and below its upper left corner.
ghost use Rattle.std.specs.Prelude.{◌≡◌, ◌+ℤ◌, ◌-ℤ◌, if◌then◌else◌, IfOk};
ghost use Rattle.etx_ship.specs.Pens.{right_of};
ghost use Rattle.etx_ship.specs.Spots.{place, moved, glued, frame_of, start_of};

use etx_matter::{BoxNode, Glue, GlueSet};
use etx_pack::{growth, pull};
use std::alloc::AllocError;

/// A place of a page.
#[derive(Clone, Copy)]
pub(crate) struct Point {
    pub h: i64,
    pub v: i64,
}

/// The sizes of a rule.
#[derive(Clone, Copy)]
pub(crate) struct Extent {
    pub height: i64,
    pub width: i64,
}

/// A box that is being shipped: its sizes, how its glue is set, and where it stands.
#[derive(Drop)]
pub(crate) struct Frame {
    pub vertical: bool,
    pub width: i32,
    pub height: i32,
    pub depth: i32,
    pub set: GlueSet,
    /// Where its list begins: its left edge, or in a vertical box its upper one.
    pub edge: i64,
    /// The baseline of a horizontal box, or the left edge of a vertical one.
    pub side: i64,
}

/// How far the list of a box has come.
#[derive(Clone, Copy)]
pub(crate) struct Spot {
    /// Where the next item would begin, had all glue its natural size.
    pub natural: i64,
    /// The stretch of the governing order up to here, or where the box shrinks its shrink with a minus sign.
    pub total: i64,
    /// By how much that sets the glue up to here: the item begins so much behind `natural`.
    pub set: i64,
}

/// A sum of places. One that passes 63 bits is refused as memory is. No node moves what follows by 2^33 sp, so 2^30 nodes
/// at least, of 32 bytes each, stand before such a place.
#[inline(always)]
pub(crate) fn plus(a: i64, b: i64) -> Result<i64, AllocError>
    ensures { IfOk result (λ sum. sum ≡ a +ℤ b) }
{
    match a.checked_add(b) {
        Some(sum) => Ok(sum),
        None => Err(AllocError),
    }
}

/// A difference of places, refused as [`plus`] is.
#[inline(always)]
pub(crate) fn minus(a: i64, b: i64) -> Result<i64, AllocError>
    ensures { IfOk result (λ rest. rest ≡ a -ℤ b) }
{
    match a.checked_sub(b) {
        Some(rest) => Ok(rest),
        None => Err(AllocError),
    }
}

// A sum of stretch or shrink, refused as [`plus`] is. The at most 2^30 items of a list have none beyond 63 bits.
#[inline(always)]
fn sum_of(a: i64, b: i64) -> Result<i64, AllocError>
    ensures { IfOk result (λ sum. sum ≡ a +ℤ b) }
{
    match a.checked_add(b) {
        Some(sum) => Ok(sum),
        None => Err(AllocError),
    }
}

impl Point {
    /// The place behind something of this width.
    #[inline(always)]
    pub(crate) fn right_of(self, width: i64) -> Result<Point, AllocError>
        ensures { IfOk result (λ at. at ≡ right_of self width) }
    {
        Ok(Point {
            h: plus(self.h, width)?,
            v: self.v,
        })
    }
}

// Where the list of a box begins.
fn edge_of(it: &BoxNode, at: Point) -> Result<i64, AllocError>
    ensures { IfOk result (λ edge. edge ≡ (if it.now.vertical then at.v -ℤ it.now.height else at.h)) }
{
    if it.vertical {
        minus(at.v, it.height as i64)
    } else {
        Ok(at.h)
    }
}

// Beside which place its list stands.
fn side_of(it: &BoxNode, at: Point) -> i64
    ensures { result ≡ (if it.now.vertical then at.h else at.v) }
{
    if it.vertical { at.h } else { at.v }
}

impl Frame {
    /// The frame of a box whose reference point stands here.
    #[tactic(auto, unfolding(crate::specs::Spots::frame_of))]
    pub(crate) fn new(it: &BoxNode, at: Point) -> Result<Frame, AllocError>
        ensures { IfOk result (λ frame. frame ≡ frame_of it.now.vertical it.now.width it.now.height it.now.depth it.now.set at) }
    {
        let edge = edge_of(it, at)?;
        Ok(Frame {
            vertical: it.vertical,
            width: it.width,
            height: it.height,
            depth: it.depth,
            set: it.set,
            edge,
            side: side_of(it, at),
        })
    }

    /// Where its list begins.
    pub(crate) fn start(&self) -> Spot
        ensures { result ≡ start_of self.now }
    {
        Spot {
            natural: self.edge,
            total: 0,
            set: 0,
        }
    }
}

impl Spot {
    #[inline(always)]
    pub(crate) fn place(self) -> Result<i64, AllocError>
        ensures { IfOk result (λ here. here ≡ place self) }
    {
        plus(self.natural, self.set)
    }

    /// Behind something of a fixed size.
    #[inline(always)]
    pub(crate) fn moved(self, by: i64) -> Result<Spot, AllocError>
        ensures { IfOk result (λ spot. spot ≡ moved by self) }
    {
        Ok(Spot {
            natural: plus(self.natural, by)?,
            total: self.total,
            set: self.set,
        })
    }

    /// Behind a glue.
    #[tactic(auto, unfolding(crate::specs::Spots::glued))]
    pub(crate) fn glued(self, set: &GlueSet, glue: &Glue) -> Result<Spot, AllocError>
        ensures { IfOk result (λ spot. spot ≡ glued set.now glue.now self) }
    {
        let total = sum_of(self.total, pull(set, glue))?;
        Ok(Spot {
            natural: plus(self.natural, glue.width as i64)?,
            total,
            set: growth(set, total),
        })
    }
}
