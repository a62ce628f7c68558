// A number of points in decimal.
ghost use Rattle.std.specs.Prelude.{ℕ, ◌≡◌, ◌<◌, ◌≤◌, ◌++◌, map, ℤ, IfOk, OnOk, OnErr};
ghost use Rattle.std.specs.Fmt.{decimal};
ghost use Rattle.etx_scaled.specs.Decimal.{decimal_text, fraction_digits, glyphs, rounded};

use std::alloc::{AllocError, Global};

/// The fraction part, from 0 to 1, is counted in this many parts, as a point has that many sp.
const UNITY: u32 = 65536;

/// The most bytes that [`print_scaled`] writes: a minus sign, five digits, a full stop and five digits.
const LONGEST: usize = 12;

/// Appends `s` sp as a number of points in decimal: the shortest decimal fraction that TeX reads as `s` again.
///
/// For want of memory `out` is what it was. ("TeX: The Program", section 103.)
pub fn print_scaled(alloc: Global, s: i32, out: &mut Vec<u8>) -> Result<(), AllocError>
    ensures ok { OnOk result (out.new.items ≡ out.old.items ++ decimal_text s) }
    ensures err { OnErr result (out.new.items ≡ out.old.items) }
{
    let text = text_of(alloc, s)?;
    out.extend_from_slice(text.as_slice())
}

fn text_of(alloc: Global, s: i32) -> Result<Vec<u8>, AllocError>
    ensures { IfOk result (λ text. text.items ≡ decimal_text s) }
{
    let mut text = Vec::with_capacity(alloc, LONGEST)?;
    if s < 0 {
        text.push(b'-')?;
    }
    let size = s.unsigned_abs();
    push_whole(size / UNITY, &mut text)?;
    text.push(b'.')?;
    push_fraction(5, 10 * (size % UNITY) + 5, 10, &mut text)?;
    Ok(text)
}

fn push_whole(whole: u32, text: &mut Vec<u8>) -> Result<(), AllocError>
    ensures { OnOk result (text.new.items ≡ text.old.items ++ decimal whole) }
{
    if whole >= 10 {
        push_whole(whole / 10, text)?;
    }
    text.push(b'0' + (whole % 10) as u8)?;
    Ok(())
}

// Rounds the last digit where that is the fifth.
fn rounded(s: u32, delta: u32) -> u32
    requires below_one { s < 655360 }
    requires unfinished { 65536 < delta → 65536 < s }
    ensures value { result ≡ rounded s delta }
    ensures below_one { result < 655360 }
{
    if delta > UNITY { s + 32768 - 50000 } else { s }
}

// At most `places` digits. What is to be printed is `s / 655360`, within `delta / 655360`.
fn push_fraction(places: u32, s: u32, delta: u32, text: &mut Vec<u8>) -> Result<(), AllocError>
    requires below_one { s < 655360 }
    requires fits { delta ≤ 655360 }
    requires unfinished { 65536 < delta → 65536 < s }
    ensures { OnOk result (text.new.items ≡ text.old.items ++ glyphs (fraction_digits places s delta)) }
{
    if places == 0 {
        return Ok(());
    }
    let digit = rounded(s, delta);
    text.push(b'0' + (digit / UNITY) as u8)?;
    let rest = 10 * (digit % UNITY);
    if rest <= 10 * delta {
        return Ok(());
    }
    push_fraction(places - 1, rest, 10 * delta, text)
}
