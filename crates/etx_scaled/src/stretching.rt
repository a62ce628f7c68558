// How bad it is to stretch or shrink glue that much.
ghost use Rattle.std.specs.Prelude.{ℕ, ◌≡◌, ◌<◌, ◌≤◌, ◌^◌, ℤ, pos, ◌≤ℤ◌, unsigned_abs};
ghost use Rattle.etx_scaled.specs.Badness.{badness_of, ratio_of, badness_at};

/// The badness of a line that can't be set at all, and of any whose ratio is too large.
const INFINITELY_BAD: u32 = 10_000;

/// The badness of stretching or shrinking by `t` sp glue whose stretch or shrink is `s` sp in all; `t` is at least 0.
///
/// It is about 100 times the cube of `t / s`, and at most 10000. ("TeX: The Program", section 108.)
pub fn badness(t: i32, s: i32) -> i32
    requires { pos 0 ≤ℤ t }
    ensures { result ≡ pos (badness_of (unsigned_abs t) s) }
{
    if t == 0 {
        0
    } else if s <= 0 {
        INFINITELY_BAD as i32
    } else {
        badness_of_ratio(ratio(t.unsigned_abs(), s.unsigned_abs())) as i32
    }
}

// About 297 times `t / s`, whose cube is about 2^18 times 100 times that of `t / s`.
fn ratio(t: u32, s: u32) -> u32
    requires nonzero { 0 < s }
    requires small { t < 2 ^ 31 }
    ensures { result ≡ ratio_of t s }
{
    if t <= 7_230_584 {
        t * 297 / s
    } else if s >= 1_663_497 {
        t / (s / 297)
    } else {
        t
    }
}

fn badness_of_ratio(ratio: u32) -> u32
    ensures value { result ≡ badness_at ratio }
    ensures small { result ≤ 10000 }
{
    if ratio > 1290 {
        INFINITELY_BAD
    } else {
        (ratio * ratio * ratio + 131_072) / 262_144
    }
}
