//! Sums and differences.
ghost use Rattle.std.specs.Prelude.{◌≡◌, ◌<◌, ℤ};
ghost use Rattle.std.specs.Option.{option_map};
ghost use Rattle.etx_exprs.specs.Values.{normal, normal_glue, normal_value, normalized, stretch_of, shrink_of, joined, rank, amount_joined, glue_joined, value_joined, sum_of, glue_from, amount_from, dimension};

use crate::step::{dimension, integer};
use crate::value::Value;
use etx_matter::{Glue, GlueOrder};

/// A value that was formed: `None` where a number on the way was out of its range.
pub(crate) type Formed = Option<Value>;

/// A stretch or shrink.
#[derive(Clone, Copy)]
pub(crate) struct Amount {
    pub size: i32,
    pub order: GlueOrder,
}

/// The sign between two terms.
#[derive(Clone, Copy)]
pub(crate) enum Sign {
    Plus,
    Minus,
}

fn stretch_of(glue: Glue) -> Amount
    ensures { result ≡ stretch_of glue }
{
    Amount {
        size: glue.stretch,
        order: glue.stretch_order,
    }
}

fn shrink_of(glue: Glue) -> Amount
    ensures { result ≡ shrink_of glue }
{
    Amount {
        size: glue.shrink,
        order: glue.shrink_order,
    }
}

pub(crate) fn glue_from(
    width: Option<i32>,
    stretch: Option<Amount>,
    shrink: Option<Amount>,
) -> Option<Glue>
    ensures { result ≡ glue_from width stretch shrink }
{
    let width = width?;
    let stretch = stretch?;
    let shrink = shrink?;
    Some(Glue {
        width,
        stretch: stretch.size,
        shrink: shrink.size,
        stretch_order: stretch.order,
        shrink_order: shrink.order,
    })
}

// Nothing is finite.
fn normal(amount: Amount) -> Amount
    ensures { result ≡ normal amount }
{
    if amount.size == 0 {
        Amount {
            size: 0,
            order: GlueOrder::Normal,
        }
    } else {
        amount
    }
}

fn normal_glue(glue: Glue) -> Glue
    ensures { result ≡ normal_glue glue }
{
    let stretch = normal(stretch_of(glue));
    let shrink = normal(shrink_of(glue));
    Glue {
        width: glue.width,
        stretch: stretch.size,
        shrink: shrink.size,
        stretch_order: stretch.order,
        shrink_order: shrink.order,
    }
}

fn normal_value(value: Value) -> Value
    ensures { result ≡ normal_value value }
{
    match value {
        Value::Int(n) => Value::Int(n),
        Value::Dim(d) => Value::Dim(d),
        Value::Glue(glue) => Value::Glue(normal_glue(glue)),
        Value::MuGlue(glue) => Value::MuGlue(normal_glue(glue)),
    }
}

/// The value with a stretch or shrink of nothing made finite.
#[tactic(auto, unfolding(crate::specs::Values::normalized))]
pub(crate) fn normalized(value: Formed) -> Formed
    ensures { result ≡ normalized value }
{
    Some(normal_value(value?))
}

impl Sign {
    fn join(self, x: i32, y: i32) -> i128
        ensures { result ≡ joined self x y }
    {
        match self {
            Sign::Plus => x as i128 + y as i128,
            Sign::Minus => x as i128 - y as i128,
        }
    }
}

fn rank(order: GlueOrder) -> u8
    ensures { result ≡ rank order }
{
    match order {
        GlueOrder::Normal => 0,
        GlueOrder::Fil => 1,
        GlueOrder::Fill => 2,
        GlueOrder::Filll => 3,
    }
}

fn same_order_joined(sign: Sign, x: Amount, y: Amount) -> Option<Amount>
    ensures { result ≡ option_map normal (amount_from (dimension (joined sign x.size y.size)) x.order) }
{
    let size = dimension(sign.join(x.size, y.size))?;
    Some(normal(Amount {
        size,
        order: x.order,
    }))
}

// Of two orders the higher counts, if it isn't that of nothing on the right.
fn amount_joined(sign: Sign, x: Amount, y: Amount) -> Option<Amount>
    ensures { result ≡ amount_joined sign x y }
{
    if rank(x.order) == rank(y.order) {
        same_order_joined(sign, x, y)
    } else if rank(x.order) < rank(y.order) && y.size != 0 {
        Some(y)
    } else {
        Some(normal(x))
    }
}

fn glue_joined(sign: Sign, g: Glue, h: Glue) -> Option<Glue>
    ensures { result ≡ glue_joined sign g h }
{
    glue_from(
        dimension(sign.join(g.width, h.width)),
        amount_joined(sign, stretch_of(g), stretch_of(h)),
        amount_joined(sign, shrink_of(g), shrink_of(h)),
    )
}

fn integers_joined(sign: Sign, x: i32, right: Value) -> Formed
    ensures { result ≡ value_joined sign (Value.Int x) right }
{
    match right {
        Value::Int(y) => Some(Value::Int(integer(sign.join(x, y))?)),
        _ => None,
    }
}

fn dimensions_joined(sign: Sign, x: i32, right: Value) -> Formed
    ensures { result ≡ value_joined sign (Value.Dim x) right }
{
    match right {
        Value::Dim(y) => Some(Value::Dim(dimension(sign.join(x, y))?)),
        _ => None,
    }
}

fn glues_joined(sign: Sign, x: Glue, right: Value) -> Formed
    ensures { result ≡ value_joined sign (Value.Glue x) right }
{
    match right {
        Value::Glue(y) => Some(Value::Glue(glue_joined(sign, x, y)?)),
        _ => None,
    }
}

fn mu_glues_joined(sign: Sign, x: Glue, right: Value) -> Formed
    ensures { result ≡ value_joined sign (Value.MuGlue x) right }
{
    match right {
        Value::MuGlue(y) => Some(Value::MuGlue(glue_joined(sign, x, y)?)),
        _ => None,
    }
}

fn value_joined(sign: Sign, left: Value, right: Value) -> Formed
    ensures { result ≡ value_joined sign left right }
{
    match left {
        Value::Int(x) => integers_joined(sign, x, right),
        Value::Dim(x) => dimensions_joined(sign, x, right),
        Value::Glue(x) => glues_joined(sign, x, right),
        Value::MuGlue(x) => mu_glues_joined(sign, x, right),
    }
}

/// The sum or difference of two values of one kind.
#[tactic(auto, unfolding(crate::specs::Values::sum_of))]
pub(crate) fn sum_of(sign: Sign, left: Formed, right: Formed) -> Formed
    ensures { result ≡ sum_of sign left right }
{
    value_joined(sign, left?, right?)
}
