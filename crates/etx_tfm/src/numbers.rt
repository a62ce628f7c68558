//! Words that stand for numbers.
ghost use Rattle.std.specs.Prelude.{◌≡◌, ◌+◌, ◌*◌, ◌/◌, ◌≤◌, ◌<◌};
ghost use Rattle.etx_tfm.specs.Numbers.{divisor_of, product_of, fix_word, whole_of, slant_of};

use crate::word::Word;

/// The least power of two that brings a size below 2^23; sizes are below 2^27.
fn divisor_of(size: u32) -> u32
    requires { size < 134217728 }
    ensures value { result ≡ divisor_of size }
    ensures small { size / result < 8388608 }
    ensures positive { 1 ≤ result }
    ensures most { result ≤ 16 }
{
    if size < 1 << 23 {
        1
    } else if size < 1 << 24 {
        2
    } else if size < 1 << 25 {
        4
    } else if size < 1 << 26 {
        8
    } else {
        16
    }
}

/// The lower three bytes of a word times a size, as a number of 2^-8.
fn product_of(size: u32, word: Word) -> u32
    requires { size < 8388608 }
    ensures value { result ≡ product_of size word }
    ensures small { result ≤ 256 * size }
{
    let [b, c, d] = [u32::from(word.b), u32::from(word.c), u32::from(word.d)];
    (d * size / 256 + c * size) / 256 + b * size
}

/// The number of sp that a word stands for at this size, rounded toward minus infinity as TeX does it ("TeX: The
/// Program", section 572).
#[tactic(auto, unfolding(crate::specs::Numbers::fix_word))]
pub fn fix_word(size: u32, word: Word) -> i32
    requires { size < 134217728 }
    ensures { result ≡ fix_word size word }
{
    let divisor = divisor_of(size);
    let size = size / divisor;
    let alpha = 16 * divisor;
    let value = product_of(size, word) / (256 / alpha);
    let below = if word.a == 255 { alpha * size } else { 0 };
    (i64::from(value) - i64::from(below)) as i32
}

fn whole_of(word: Word) -> u32
    ensures { result ≡ whole_of word }
{
    ((u32::from(word.a) * 256 + u32::from(word.b)) * 256 + u32::from(word.c)) * 256
        + u32::from(word.d)
}

/// The number of sp for each pt that a word stands for: no multiple of the size, rounded toward minus infinity ("TeX:
/// The Program", section 575).
#[tactic(auto, unfolding(crate::specs::Numbers::slant_of))]
pub fn slant_of(word: Word) -> i32
    ensures { result ≡ slant_of word }
{
    let below = if word.a >= 128 { 1 << 28 } else { 0 };
    (i64::from(whole_of(word) / 16) - below) as i32
}
