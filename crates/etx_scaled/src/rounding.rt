// The nearest whole number to a fraction, halves away from zero, and a fraction of glue that is set.
ghost use Rattle.std.specs.Prelude.{ℕ, ◌≡◌, ◌+◌, ◌*◌, ◌/◌, ◌<◌, ◌≤◌, ◌^◌, ℤ, pos, ◌*ℤ◌, ◌≤ℤ◌, ◌<ℤ◌, unsigned_abs};
ghost use Rattle.etx_scaled.specs.Rounding.{IsNearest, nearest, within_billion};

// A half is rounded up.
fn nearest_size(size: u128, den: u128) -> u128
    requires { 0 < den }
    ensures value { result ≡ (2 * size + den) / (2 * den) }
    ensures small { result ≤ size }
{
    let rest = size % den;
    if rest >= den - rest {
        size / den + 1
    } else {
        size / den
    }
}

/// The whole number nearest to `num / den`; of two that are equally near, the one further from zero. `den` is positive,
/// and the size of `num` below 2^127.
pub fn round_half(num: i128, den: i128) -> i128
    requires size { unsigned_abs num < 2 ^ 127 }
    requires divides { pos 0 <ℤ den }
    ensures nearest { IsNearest num den result }
    ensures value { result ≡ nearest num den }
{
    let size = nearest_size(num.unsigned_abs(), den.unsigned_abs());
    if num < 0 {
        -(size as i128)
    } else {
        size as i128
    }
}

/// The fraction of its stretch or shrink by which the glue of a box is set: `num / den`, `den` positive.
#[derive(Debug, Clone, Copy, PartialEq, Eq)]
pub struct Ratio {
    pub num: i64,
    pub den: i64,
    pub ghost positive: { pos 0 <ℤ den },
}

/// The most, and with a minus sign the least, that glue is set by, in sp.
const BILLION: i128 = 1_000_000_000;

fn product(num: i64, total: i64) -> i128
    ensures value { result ≡ num *ℤ total }
    ensures small { unsigned_abs result < 2 ^ 127 }
{
    num as i128 * total as i128
}

fn bounded(value: i128) -> i64
    ensures { result ≡ within_billion value }
{
    value.max(-BILLION).min(BILLION) as i64
}

impl Ratio {
    /// The sum `total` of stretch or shrink, in sp, times this fraction, rounded to the nearest whole number, halves away
    /// from zero, and then brought into -10^9 to 10^9. ("TeX: The Program", section 625, with exact fractions.)
    pub fn of(&self, total: i64) -> i64
        ensures { result ≡ within_billion (nearest (self.now.num *ℤ total) self.now.den) }
    {
        bounded(round_half(product(self.num, total), self.den as i128))
    }
}
