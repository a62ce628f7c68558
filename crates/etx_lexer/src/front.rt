// Fronts, and the next character of a line.
ghost use Rattle.std.specs.Prelude.{◌≡◌, ◌<◌, ◌≤◌, ◌&&◌, false, true, ◌∷◌, MatchOption, Some, None, length, drop};
ghost use Rattle.etx_lexer.specs.Fronts.{is_hex, hex_value, hex_code, shifted, replaced, front_of};
ghost use Rattle.etx_lexer.specs.Reading.{first_of};

use crate::{CatOf, Line};

/// What stands for a front: a character, and the index of the byte behind the front.
#[derive(Clone, Copy)]
pub(crate) struct Front {
    pub code: u8,
    pub next: usize,
}

/// The next character of a line with its category, and the index of the byte behind it.
#[derive(Clone, Copy)]
pub(crate) struct First {
    pub code: u8,
    pub cat: u8,
    pub next: usize,
}

/// The value of a digit of `0123456789abcdef`. `None` exactly for another byte.
#[tactic(auto, unfolding(crate::specs::Fronts::is_hex, crate::specs::Fronts::hex_value))]
fn hex(c: u8) -> Option<u8>
    ensures { MatchOption result (is_hex c ≡ false) (λ v. (is_hex c ≡ true) × (v ≡ hex_value c) × (v < 16)) }
{
    match c {
        b'0'..=b'9' => Some(c - b'0'),
        b'a'..=b'f' => Some(c - b'a' + 10),
        _ => None,
    }
}

/// The code that two digits stand for. `None` exactly where one of them is no digit.
#[tactic(auto, unfolding(crate::specs::Fronts::hex_code))]
fn pair_code(high: u8, low: u8) -> Option<u8>
    ensures { MatchOption result ((is_hex high && is_hex low) ≡ false)
        (λ code. ((is_hex high && is_hex low) ≡ true) × (code ≡ hex_code high low)) }
{
    let high = hex(high)?;
    let low = hex(low)?;
    Some(16 * high + low)
}

/// The character 64 before or behind.
#[tactic(auto, unfolding(crate::specs::Fronts::shifted))]
fn shift(third: u8) -> u8
    requires { third < 128 }
    ensures { result ≡ shifted third }
{
    if third < 64 { third + 64 } else { third - 64 }
}

/// What a front with this third character stands for. `next` is the index of the byte behind that character.
#[tactic(auto, unfolding(crate::specs::Fronts::replaced))]
fn replace(line: &Line<'_>, third: u8, next: usize) -> Front
    requires third_is_ascii { third < 128 }
    requires in_line { next ≤ length line.now }
    ensures text { result.code ∷ drop result.next line.now ≡ replaced third (drop next line.now) }
    ensures forward { next ≤ result.next }
    ensures in_line { result.next ≤ length line.now }
{
    if next < line.len()
        && let Some(code) = pair_code(third, line.at(next))
    {
        return Front {
            code,
            next: next + 1,
        };
    }
    Front {
        code: shift(third),
        next,
    }
}

/// The front that `code` begins where it stands before byte `at`. `None` exactly where it begins none.
#[tactic(auto, unfolding(crate::specs::Fronts::front_of, crate::specs::Fronts::is_front))]
fn front_at<C: CatOf>(line: &Line<'_>, code: u8, at: usize, cats: &C) -> Option<Front>
    requires { at ≤ length line.now }
    ensures { let found = front_of (C.category cats.now) (code ∷ drop at line.now) in
        MatchOption result (found ≡ None)
        (λ f. (found ≡ Some (f.code ∷ drop f.next line.now)) × (at < f.next) × (f.next ≤ length line.now)) }
{
    if line.len() - at < 2 {
        return None;
    }
    let third = line.at(at + 1);
    if line.at(at) != code || third >= 128 || cats.cat(code) != 7 {
        return None;
    }
    Some(replace(line, third, at + 2))
}

/// The next character where `code` stands before byte `at`: one front after another is replaced.
pub(crate) fn first_from<C: CatOf>(line: &Line<'_>, mut code: u8, mut at: usize, cats: &C) -> First
    requires { at ≤ length line.now }
    ensures first { first_of (C.category cats.now) (code ∷ drop at line.now)
        ≡ Some (record { code = result.code; rest = drop result.next line.now }) }
    ensures cat { result.cat ≡ C.category cats.now result.code }
    ensures small { result.cat ≤ 15 }
    ensures forward { at ≤ result.next }
    ensures in_line { result.next ≤ length line.now }
{
    while let Some(front) = front_at(line, code, at, cats) {
        code = front.code;
        at = front.next;
    }
    First {
        code,
        cat: cats.cat(code),
        next: at,
    }
}

/// The next character from byte `at` of a line on. `None` exactly where no byte is left.
pub(crate) fn first_in<C: CatOf>(line: &Line<'_>, at: usize, cats: &C) -> Option<First>
    ensures { let found = first_of (C.category cats.now) (drop at line.now) in
        MatchOption result (found ≡ None)
        (λ f. (found ≡ Some (record { code = f.code; rest = drop f.next line.now }))
        × (f.cat ≡ C.category cats.now f.code) × (f.cat ≤ 15) × (at < f.next) × (f.next ≤ length line.now)) }
{
    if at >= line.len() {
        return None;
    }
    Some(first_from(line, line.at(at), at + 1, cats))
}
