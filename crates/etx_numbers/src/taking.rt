//! What becomes of an amount that is known, where an integer, a dimension or glue is wanted.
ghost use Rattle.std.specs.Prelude.{◌≡◌, ◌+ℤ◌, ◌*ℤ◌, pos, int_div, IfOk};
ghost use Rattle.etx_numbers.specs.Taking.{dimension, glue_amount, incompatible, mu_dimension_taken, behind_width, width_units, negated, signed, amount_in, glue_in, negated_glue, attached, begin_units, again, integer_taken, dimension_taken, unit_total, unit_taken, glue_taken, taken, width_glue};

use etx_answers::{Read, behind, failing, gives, goes_on};
use etx_exprs::Value as Quantity;
use etx_matter::{Glue, GlueOrder};
use etx_state::{Factor, Length, NumberScan, Outer, Want};
use std::alloc::{AllocError, Global};

/// The greatest dimension.
const GREATEST: i32 = 1_073_741_823;

/// The number with the other sign. The least number that 32 bits hold is none of TeX's.
pub(crate) fn negated(number: i32) -> i32
    ensures { result ≡ negated number }
{
    number.saturating_neg()
}

/// The number, or that with the other sign.
pub(crate) fn signed(is_negative: bool, number: i32) -> i32
    ensures { result ≡ signed is_negative number }
{
    if is_negative { negated(number) } else { number }
}

/// An amount as one number: glue counts as its width.
pub fn amount_in(amount: Quantity) -> i32
    ensures { result ≡ amount_in amount }
{
    match amount {
        Quantity::Int(number) => number,
        Quantity::Dim(number) => number,
        Quantity::Glue(glue) => glue.width,
        Quantity::MuGlue(glue) => glue.width,
    }
}

/// Glue that can't stretch or shrink.
pub(crate) fn width_glue(width: i32) -> Glue
    ensures { result ≡ width_glue width }
{
    Glue {
        width,
        stretch: 0,
        shrink: 0,
        stretch_order: GlueOrder::Normal,
        shrink_order: GlueOrder::Normal,
    }
}

/// An amount as glue.
pub fn glue_in(amount: Quantity) -> Glue
    ensures { result ≡ glue_in amount }
{
    match amount {
        Quantity::Int(number) => width_glue(number),
        Quantity::Dim(number) => width_glue(number),
        Quantity::Glue(glue) => glue,
        Quantity::MuGlue(glue) => glue,
    }
}

/// Glue as an amount.
pub(crate) fn glue_amount(is_mu: bool, glue: Glue) -> Quantity
    ensures { result ≡ glue_amount is_mu glue }
{
    if is_mu {
        Quantity::MuGlue(glue)
    } else {
        Quantity::Glue(glue)
    }
}

/// Glue with the other sign.
fn negated_glue(is_negative: bool, glue: Glue) -> Glue
    ensures { result ≡ negated_glue is_negative glue }
{
    if is_negative {
        Glue {
            width: negated(glue.width),
            stretch: negated(glue.stretch),
            shrink: negated(glue.shrink),
            ..glue
        }
    } else {
        glue
    }
}

/// The error about units that don't fit.
fn incompatible(alloc: Global, read: Read) -> Result<Read, AllocError>
    ensures { IfOk result (λ it. it ≡ incompatible read) }
{
    failing(alloc, b"Incompatible glue units", read)
}

/// The error about units that don't fit, behind which the amount is taken as another kind.
fn again(alloc: Global, want: Want, amount: Quantity) -> Result<Read, AllocError>
    ensures { IfOk result (λ read. read ≡ again want amount) }
{
    incompatible(alloc, behind(Outer::Again(want), gives(amount)))
}

/// The end of a dimension: a size of 2^30 sp or more is too large. No size is one that is too large.
#[tactic(auto, unfolding(crate::specs::Taking::attached))]
pub(crate) fn attached(
    alloc: Global,
    is_negative: bool,
    size: Option<i32>,
) -> Result<Read, AllocError>
    ensures { IfOk result (λ read. read ≡ attached is_negative size) }
{
    match size {
        Some(size) => {
            if size.unsigned_abs() < 1_073_741_824 {
                return Ok(gives(Quantity::Dim(signed(is_negative, size))));
            }
        }
        None => {}
    }
    let greatest = gives(Quantity::Dim(signed(is_negative, GREATEST)));
    failing(alloc, b"Dimension too large", greatest)
}

/// The unit of a dimension comes next, behind a number.
pub(crate) fn begin_units(length: Length, number: i32) -> NumberScan
    ensures { result ≡ begin_units length number }
{
    NumberScan::Unit {
        length: Length {
            is_negative: length.is_negative != (number < 0),
            ..length
        },
        factor: Factor {
            whole: signed(number < 0, number),
            fraction: 0,
        },
        is_true: false,
    }
}

#[tactic(auto, unfolding(crate::specs::Taking::integer_taken))]
fn integer_taken(alloc: Global, is_negative: bool, amount: Quantity) -> Result<Read, AllocError>
    ensures { IfOk result (λ read. read ≡ integer_taken is_negative amount) }
{
    let read = gives(Quantity::Int(signed(is_negative, amount_in(amount))));
    match amount {
        Quantity::Int(_) => Ok(read),
        Quantity::Dim(_) => Ok(read),
        Quantity::Glue(_) => Ok(read),
        Quantity::MuGlue(_) => incompatible(alloc, read),
    }
}

/// Of a dimension in mu.
fn mu_dimension_taken(alloc: Global, length: Length, amount: Quantity) -> Result<Read, AllocError>
    ensures { IfOk result (λ read. read ≡ mu_dimension_taken length amount) }
{
    let number = amount_in(amount);
    match amount {
        Quantity::Int(_) => Ok(goes_on(begin_units(length, number))),
        Quantity::Dim(_) => incompatible(alloc, goes_on(begin_units(length, number))),
        Quantity::Glue(_) => incompatible(alloc, goes_on(begin_units(length, number))),
        Quantity::MuGlue(_) => attached(alloc, length.is_negative, Some(number)),
    }
}

#[tactic(auto, unfolding(crate::specs::Taking::dimension_taken))]
fn dimension_taken(alloc: Global, length: Length, amount: Quantity) -> Result<Read, AllocError>
    ensures { IfOk result (λ read. read ≡ dimension_taken length amount) }
{
    if length.is_mu {
        return mu_dimension_taken(alloc, length, amount);
    }
    match amount {
        Quantity::Int(number) => Ok(goes_on(begin_units(length, number))),
        Quantity::Dim(number) => attached(alloc, length.is_negative, Some(number)),
        Quantity::Glue(glue) => attached(alloc, length.is_negative, Some(glue.width)),
        Quantity::MuGlue(glue) => {
            again(alloc, Want::Dimension(length), Quantity::Dim(glue.width))
        }
    }
}

/// So many of a unit of this size. `None` where that is no dimension.
pub(crate) fn unit_total(factor: Factor, unit: i32) -> Option<i32>
    ensures { result ≡ unit_total factor unit }
{
    let part = part_of(product(unit, factor.fraction));
    dimension(sum(product(unit, factor.whole), part))
}

fn product(unit: i32, number: i32) -> i64
    ensures { result ≡ unit *ℤ number }
{
    i64::from(unit) * i64::from(number)
}

/// A 65536th, cut off.
fn part_of(product: i64) -> i64
    ensures { result ≡ int_div product (pos 65536) }
{
    product / 65536
}

fn sum(product: i64, part: i64) -> i128
    ensures { result ≡ product +ℤ part }
{
    i128::from(product) + i128::from(part)
}

/// The number, where its size is at most the greatest dimension's.
fn dimension(total: i128) -> Option<i32>
    ensures { result ≡ dimension total }
{
    if total.unsigned_abs() < 1_073_741_824 {
        Some(total as i32)
    } else {
        None
    }
}

#[tactic(auto, unfolding(crate::specs::Taking::unit_taken))]
fn unit_taken(
    alloc: Global,
    length: Length,
    factor: Factor,
    amount: Quantity,
) -> Result<Read, AllocError>
    ensures { IfOk result (λ read. read ≡ unit_taken length factor amount) }
{
    let number = amount_in(amount);
    let fits = match amount {
        Quantity::Int(_) => !length.is_mu,
        Quantity::Dim(_) => !length.is_mu,
        Quantity::Glue(_) => !length.is_mu,
        Quantity::MuGlue(_) => length.is_mu,
    };
    if fits {
        return attached(alloc, length.is_negative, unit_total(factor, number));
    }
    let want = Want::Unit { length, factor };
    if length.is_mu {
        again(alloc, want, Quantity::MuGlue(width_glue(number)))
    } else {
        again(alloc, want, Quantity::Dim(number))
    }
}

/// Glue has this width, and its stretch may come next.
pub(crate) fn behind_width(is_mu: bool, width: i32) -> Read
    ensures { result ≡ behind_width is_mu width }
{
    goes_on(NumberScan::Plus {
        glue: width_glue(width),
        is_mu,
    })
}

/// The unit of a width comes next, behind an integer.
fn width_units(is_negative: bool, is_mu: bool, number: i32) -> Read
    ensures { result ≡ width_units is_negative is_mu number }
{
    let length = Length {
        is_negative,
        is_mu,
        is_infinite: false,
    };
    behind(Outer::Width { is_mu }, goes_on(begin_units(length, number)))
}

#[tactic(auto, unfolding(crate::specs::Taking::glue_taken))]
fn glue_taken(
    alloc: Global,
    is_negative: bool,
    is_mu: bool,
    amount: Quantity,
) -> Result<Read, AllocError>
    ensures { IfOk result (λ read. read ≡ glue_taken is_negative is_mu amount) }
{
    match amount {
        Quantity::Int(number) => Ok(width_units(is_negative, is_mu, number)),
        Quantity::Dim(number) => {
            let read = behind_width(is_mu, signed(is_negative, number));
            if is_mu {
                incompatible(alloc, read)
            } else {
                Ok(read)
            }
        }
        Quantity::Glue(glue) => {
            let read = gives(glue_amount(is_mu, negated_glue(is_negative, glue)));
            if is_mu {
                incompatible(alloc, read)
            } else {
                Ok(read)
            }
        }
        Quantity::MuGlue(glue) => {
            let read = gives(glue_amount(is_mu, negated_glue(is_negative, glue)));
            if is_mu {
                Ok(read)
            } else {
                incompatible(alloc, read)
            }
        }
    }
}

/// What becomes of an amount that is known, by what is wanted.
#[tactic(auto, unfolding(crate::specs::Taking::taken))]
pub(crate) fn taken(alloc: Global, want: Want, amount: Quantity) -> Result<Read, AllocError>
    ensures { IfOk result (λ read. read ≡ taken want amount) }
{
    match want {
        Want::Integer { is_negative } => integer_taken(alloc, is_negative, amount),
        Want::Dimension(length) => dimension_taken(alloc, length, amount),
        Want::Unit { length, factor } => unit_taken(alloc, length, factor, amount),
        Want::Glue { is_negative, is_mu } => glue_taken(alloc, is_negative, is_mu, amount),
        Want::Whole => Ok(gives(amount)),
    }
}
