//! The shape of a paragraph's lines ("TeX: The Program", sections 847 to 849).
ghost use Rattle.std.specs.Prelude.{◌≡◌, slice_get};
ghost use Rattle.etx_sealed.specs.Shapes.{shape_or, hangs, hung, straight, shape_of, special_lines, line_shape};

use crate::sealed::Sealed;
use etx_lists::Listed;
use etx_pack::within_32_bits;

/// Where a line stands, and how wide it is, in sp.
#[derive(Clone, Copy, Debug, PartialEq, Eq)]
pub struct LineShape {
    /// How far it is moved to the right.
    pub indent: i32,
    pub width: i32,
}

/// The shape of a paragraph's lines, which are numbered from 1.
#[derive(Drop)]
pub enum ParShape {
    /// All lines are `width` wide, but that some hang by `indent`: `\hsize` and `\hangindent`, in sp, and `\hangafter`, a
    /// number of lines. Where `after` is negative, so many first lines hang, else all lines behind the first `after`. Lines
    /// hang on the left where `indent` is positive, and on the right where it is negative.
    Hanging {
        width: i32,
        indent: i32,
        after: i32,
    },
    /// Each of the first lines has a shape of its own, and all later lines have one: `\parshape`.
    Lines {
        first: Listed<LineShape>,
        rest: LineShape,
    },
}

#[tactic(auto, unfolding(crate::specs::Shapes::hangs))]
fn hangs(after: i32, line: u128) -> bool
    ensures { result ≡ hangs after line }
{
    let count = u128::from(after.unsigned_abs());
    if after < 0 {
        line <= count
    } else {
        line > count
    }
}

#[tactic(auto, unfolding(crate::specs::Shapes::hung))]
fn hung(width: i32, indent: i32) -> LineShape
    ensures { result ≡ hung width indent }
{
    LineShape {
        indent: indent.max(0),
        width: within_32_bits(i128::from(width) - i128::from(indent.unsigned_abs())),
    }
}

fn straight(width: i32) -> LineShape
    ensures { result ≡ straight width }
{
    LineShape { indent: 0, width }
}

/// The shape at a place, counted from 0, or else another one.
#[tactic(auto, using(crate::proofs::Shaping::past_end))]
fn shape_at(first: &Listed<LineShape>, rest: LineShape, place: u128) -> LineShape
    ensures { result ≡ shape_or rest (slice_get first.now place) }
{
    if place >= first.len() as u128 {
        return rest;
    }
    first.at(place as usize).copied().unwrap_or(rest)
}

impl ParShape {
    /// The shape of a line, by its number from 1 on.
    #[tactic(auto, unfolding(crate::specs::Shapes::shape_of))]
    fn line(&self, number: u128) -> LineShape
        ensures { result ≡ shape_of self.now number }
    {
        match self {
            ParShape::Hanging {
                width,
                indent,
                after,
            } => {
                if hangs(*after, number) {
                    hung(*width, *indent)
                } else {
                    straight(*width)
                }
            }
            ParShape::Lines { first, rest } => shape_at(first, *rest, number.saturating_sub(1)),
        }
    }

    /// The number of the last line behind which all lines have one shape.
    #[tactic(auto, unfolding(crate::specs::Shapes::special_lines))]
    pub fn special_lines(&self) -> usize
        ensures { result ≡ special_lines self.now }
    {
        match self {
            ParShape::Hanging { indent, after, .. } => {
                if *indent == 0 {
                    0
                } else {
                    after.unsigned_abs() as usize
                }
            }
            ParShape::Lines { first, .. } => first.len(),
        }
    }
}

impl Sealed {
    /// The shape of a line of this part of the paragraph, by its number from 1 on. `\prevgraf` lines come before it.
    #[tactic(auto, unfolding(crate::specs::Shapes::line_shape))]
    pub fn line_shape(&self, number: usize) -> LineShape
        ensures { result ≡ line_shape self.now number }
    {
        let params = self.params();
        params
            .shape
            .line(u128::from(params.prevgraf) + number as u128)
    }
}
