// A product divided, and a product with a sum, each within the greatest dimension.
ghost use Rattle.std.specs.Prelude.{ℕ, ◌≡◌, ◌<◌, ◌≤◌, ◌^◌, ℤ, pos, ◌+ℤ◌, ◌*ℤ◌, ◌≤ℤ◌, ◌<ℤ◌, unsigned_abs, int_div, int_rem, IfSome};
ghost use Rattle.std.specs.Option.{SomeIff};
ghost use Rattle.etx_scaled.specs.Division.{IsDivided};

/// One more than the greatest dimension in sp, and than the greatest quotient.
const LIMIT: u64 = 1_073_741_824;

fn product(x: i32, n: i32) -> i64
    ensures value { result ≡ x *ℤ n }
    ensures small { unsigned_abs result ≤ 2 ^ 62 }
{
    x as i64 * n as i64
}

fn quotient(product: i64, d: i32) -> i64
    requires { pos 0 <ℤ d }
    ensures { result ≡ int_div product d }
{
    product / d as i64
}

fn remainder(product: i64, d: i32) -> i32
    requires { pos 0 <ℤ d }
    ensures { result ≡ int_rem product d }
{
    (product % d as i64) as i32
}

fn sum(product: i64, y: i32) -> i64
    requires { unsigned_abs product ≤ 2 ^ 62 }
    ensures { result ≡ product +ℤ y }
{
    product + y as i64
}

// `None` exactly where the size is above 2^30-1.
fn within_limit(value: i64) -> Option<i32>
    ensures { SomeIff result (unsigned_abs value < 2 ^ 30) value }
{
    if value.unsigned_abs() < LIMIT {
        Some(value as i32)
    } else {
        None
    }
}

/// `x * n / d` rounded toward zero, and what remains: `x * n` is the quotient times `d` plus the remainder, whose size
/// is below `d` and whose sign is that of `x`.
///
/// `n` is from 0 and `d` from 1 to 65536. `None` exactly where the size of the quotient is 2^30 or more.
/// ("TeX: The Program", section 107.)
pub fn xn_over_d(x: i32, n: i32, d: i32) -> Option<(i32, i32)>
    requires multiplies { (pos 0 ≤ℤ n) × (n ≤ℤ pos 65536) }
    requires divides { (pos 1 ≤ℤ d) × (d ≤ℤ pos 65536) }
    ensures divided { IfSome result (λ r. IsDivided (x *ℤ n) d r.0 r.1) }
    ensures exactly { SomeIff result (unsigned_abs (int_div (x *ℤ n) d) < 2 ^ 30) (record { 0 = int_div (x *ℤ n) d; 1 = int_rem (x *ℤ n) d }) }
{
    let product = product(x, n);
    let quotient = within_limit(quotient(product, d))?;
    Some((quotient, remainder(product, d)))
}

/// `n * x + y`. `None` exactly where its size is above the greatest dimension, 2^30-1.
/// ("TeX: The Program", section 105.)
pub fn nx_plus_y(n: i32, x: i32, y: i32) -> Option<i32>
    ensures { SomeIff result (unsigned_abs (n *ℤ x +ℤ y) < 2 ^ 30) (n *ℤ x +ℤ y) }
{
    within_limit(sum(product(n, x), y))
}
