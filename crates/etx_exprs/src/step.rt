//! Products, quotients and scalings by integers.
ghost use Rattle.std.specs.Prelude.{◌≡◌, ◌≢◌, ◌≤◌, ◌^◌, pos, false, ℤ, ◌*ℤ◌, unsigned_abs};
ghost use Rattle.etx_exprs.specs.Values.{integer, dimension, divided, sized, is_zero, divides_by_zero, amount_from, glue_from, glue_formed, formed, checked, stepped, product, quotient, scaled};

use crate::sum::{Amount, Formed, glue_from};
use crate::value::Value;
use etx_matter::{Glue, GlueOrder};
use etx_scaled::round_half;

/// What an integer factor, or two, do to each size of a value.
#[derive(Clone, Copy)]
pub(crate) enum Step {
    /// Times this.
    Times(i32),
    /// Divided by this.
    Over(i32),
    /// Times the first and divided by the second, with one rounding and no bound on the product.
    Scale(i32, i32),
}

/// One more than the greatest integer.
const INTEGER_LIMIT: u128 = 2_147_483_648;

/// One more than the greatest dimension in sp.
const DIMENSION_LIMIT: u128 = 1_073_741_824;

/// `None` exactly where the number is out of the range of integers.
pub(crate) fn integer(z: i128) -> Option<i32>
    ensures { result ≡ integer z }
{
    if z.unsigned_abs() < INTEGER_LIMIT {
        Some(z as i32)
    } else {
        None
    }
}

/// `None` exactly where the number is out of the range of dimensions.
pub(crate) fn dimension(z: i128) -> Option<i32>
    ensures { result ≡ dimension z }
{
    if z.unsigned_abs() < DIMENSION_LIMIT {
        Some(z as i32)
    } else {
        None
    }
}

fn times(z: i32, n: i32) -> i128
    ensures value { result ≡ z *ℤ n }
    ensures small { unsigned_abs result ≤ 2 ^ 62 }
{
    z as i128 * n as i128
}

// The nearest whole number, halves away from zero.
fn divided(z: i128, d: i32) -> i128
    requires small { unsigned_abs z ≤ 2 ^ 62 }
    requires nonzero { is_zero d ≡ false }
    ensures { result ≡ divided z d }
{
    if d > 0 {
        round_half(z, d as i128)
    } else {
        round_half(-z, -(d as i128))
    }
}

fn is_zero(d: i32) -> bool
    ensures { result ≡ is_zero d }
{
    d == 0
}

impl Step {
    fn divides_by_zero(self) -> bool
        ensures { result ≡ divides_by_zero self }
    {
        match self {
            Step::Times(_) => false,
            Step::Over(d) => is_zero(d),
            Step::Scale(_, d) => is_zero(d),
        }
    }

    // What a size comes to.
    fn of(self, z: i32) -> i128
        requires { divides_by_zero self ≡ false }
        ensures { result ≡ sized self z }
    {
        match self {
            Step::Times(n) => times(z, n),
            Step::Over(d) => divided(z as i128, d),
            Step::Scale(n, d) => divided(times(z, n), d),
        }
    }

    fn of_amount(self, size: i32, order: GlueOrder) -> Option<Amount>
        requires { divides_by_zero self ≡ false }
        ensures { result ≡ amount_from (dimension (sized self size)) order }
    {
        let size = dimension(self.of(size))?;
        Some(Amount { size, order })
    }

    fn of_glue(self, glue: Glue) -> Option<Glue>
        requires { divides_by_zero self ≡ false }
        ensures { result ≡ glue_formed (sized self) glue }
    {
        glue_from(
            dimension(self.of(glue.width)),
            self.of_amount(glue.stretch, glue.stretch_order),
            self.of_amount(glue.shrink, glue.shrink_order),
        )
    }

    fn of_value(self, value: Value) -> Option<Value>
        requires { divides_by_zero self ≡ false }
        ensures { result ≡ formed (sized self) value }
    {
        match value {
            Value::Int(n) => Some(Value::Int(integer(self.of(n))?)),
            Value::Dim(d) => Some(Value::Dim(dimension(self.of(d))?)),
            Value::Glue(glue) => Some(Value::Glue(self.of_glue(glue)?)),
            Value::MuGlue(glue) => Some(Value::MuGlue(self.of_glue(glue)?)),
        }
    }

    fn apply(self, value: Value) -> Option<Value>
        ensures { result ≡ stepped self value }
    {
        if self.divides_by_zero() {
            return None;
        }
        self.of_value(value)
    }
}

fn checked_amount(size: i32, order: GlueOrder) -> Option<Amount>
    ensures { result ≡ amount_from (dimension size) order }
{
    let size = dimension(size as i128)?;
    Some(Amount { size, order })
}

fn checked_glue(glue: Glue) -> Option<Glue>
    ensures { result ≡ glue_formed (λ z. z) glue }
{
    glue_from(
        dimension(glue.width as i128),
        checked_amount(glue.stretch, glue.stretch_order),
        checked_amount(glue.shrink, glue.shrink_order),
    )
}

/// An operand, if it is in its range.
#[tactic(auto, unfolding(crate::specs::Values::checked))]
pub(crate) fn checked(value: Value) -> Formed
    ensures { result ≡ checked value }
{
    match value {
        Value::Int(n) => Some(Value::Int(integer(n as i128)?)),
        Value::Dim(d) => Some(Value::Dim(dimension(d as i128)?)),
        Value::Glue(glue) => Some(Value::Glue(checked_glue(glue)?)),
        Value::MuGlue(glue) => Some(Value::MuGlue(checked_glue(glue)?)),
    }
}

/// `value` times `factor`, an integer.
#[tactic(auto, unfolding(crate::specs::Values::product))]
pub(crate) fn product(value: Formed, factor: Formed) -> Formed
    ensures { result ≡ product value factor }
{
    let value = value?;
    match factor? {
        Value::Int(n) => Step::Times(n).apply(value),
        _ => None,
    }
}

/// `value` divided by `divisor`, an integer.
#[tactic(auto, unfolding(crate::specs::Values::quotient))]
pub(crate) fn quotient(value: Formed, divisor: Formed) -> Formed
    ensures { result ≡ quotient value divisor }
{
    let value = value?;
    match divisor? {
        Value::Int(d) => Step::Over(d).apply(value),
        _ => None,
    }
}

#[tactic(auto, unfolding(crate::specs::Values::scaled))]
fn scaled_by(value: Value, n: i32, divisor: Value) -> Formed
    ensures { result ≡ scaled (Some value) (Some (Value.Int n)) (Some divisor) }
{
    match divisor {
        Value::Int(d) => Step::Scale(n, d).apply(value),
        _ => None,
    }
}

/// `value` times `factor` and divided by `divisor`, both integers, rounded once.
#[tactic(auto, unfolding(crate::specs::Values::scaled))]
pub(crate) fn scaled(value: Formed, factor: Formed, divisor: Formed) -> Formed
    ensures { result ≡ scaled value factor divisor }
{
    let value = value?;
    match factor? {
        Value::Int(n) => scaled_by(value, n, divisor?),
        _ => None,
    }
}
