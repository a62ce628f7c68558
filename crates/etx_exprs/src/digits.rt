//! The digits of an integer constant.
ghost use Rattle.std.specs.Prelude.{◌≡◌, ◌<◌, ◌≤◌, ◌++◌, ◌*◌, ◌+◌, ◌-◌, ◌==◌, ℕ, List, [], pos, false, Bool, nat_le, nat_lt, Some, None, IfSome, MatchResult, true};
ghost use Rattle.std.specs.Option.{option_map, option_to_list};
ghost use Rattle.etx_exprs.specs.Constants.{IsBase, StandsFor, digit_of, digit_at, is_decimal, is_hexadecimal, is_space, turn_at, digit_turn, digits_fed, said_behind, number_of, number_with, with_digit, within};

use crate::part::Turn;
use etx_matter::Token;
use std::marker::Model;

/// A constant is above the greatest integer, 2^31-1. TeX then reports `Number too big`, and takes 2^31-1.
#[derive(Clone, Copy, Debug, PartialEq, Eq)]
pub struct TooBig;

/// An integer constant of which some digits were fed.
#[derive(Drop)]
pub struct Digits {
    base: u8,
    /// `None` where the number is above the greatest.
    number: Option<u32>,
    empty: bool,
}

impl Model for Digits {
    ghost use Rattle.std.specs.Prelude.{◌≤◌, IfSome};
    ghost use Rattle.etx_exprs.specs.Constants.{DigitsState};

    ghost Value = { DigitsState };

    ghost view = { λ it. record { base = it.base; number = it.number; empty = it.empty } };

    ghost invariant = { λ it. IfSome it.number (λ n. n ≤ 2147483647) };
}

/// The greatest integer.
const GREATEST: u64 = 2_147_483_647;

const OTHER: u8 = 12;

const LETTER: u8 = 11;

const SPACE: u8 = 10;

fn is_decimal(base: u8, code: u8, cat: u8) -> bool
    ensures { result ≡ is_decimal base code cat }
{
    cat == OTHER && code >= b'0' && code <= b'9' && code - b'0' < base
}

fn is_hexadecimal(base: u8, code: u8, cat: u8) -> bool
    ensures { result ≡ is_hexadecimal base code cat }
{
    base == 16 && (cat == LETTER || cat == OTHER) && code >= b'A' && code <= b'F'
}

fn digit_at(base: u8, code: u8, cat: u8) -> Option<u8>
    ensures { result ≡ digit_at base code cat }
{
    if is_decimal(base, code, cat) {
        Some(code - b'0')
    } else if is_hexadecimal(base, code, cat) {
        Some(code - b'A' + 10)
    } else {
        None
    }
}

fn digit_of(base: u8, t: Token) -> Option<u8>
    ensures { result ≡ digit_of base t }
{
    match t {
        Token::Char { code, cat } => digit_at(base, code, cat),
        Token::Name(_) => None,
        Token::Param(_) => None,
    }
}

fn is_space(t: Token) -> bool
    ensures { result ≡ is_space t }
{
    match t {
        Token::Char { code: _, cat } => cat == SPACE,
        Token::Name(_) => false,
        Token::Param(_) => false,
    }
}

fn within(n: u64) -> Option<u32>
    ensures value { result ≡ within n }
    ensures small { IfSome result (λ n. n ≤ 2147483647) }
{
    if n <= GREATEST { Some(n as u32) } else { None }
}

fn number_with(number: Option<u32>, base: u8, digit: u8) -> Option<u32>
    ensures value { result ≡ number_with number base digit }
    ensures small { IfSome result (λ n. n ≤ 2147483647) }
{
    match number {
        None => None,
        Some(n) => within(n as u64 * base as u64 + digit as u64),
    }
}

impl Digits {
    /// A constant in base 8, 10 or 16, to which nothing was fed.
    pub fn new(base: u8) -> Digits
        requires { IsBase base }
        ensures state { result ≡ record { base = base; number = Some 0; empty = true } }
        ensures stands { StandsFor result [] }
    {
        Digits {
            base,
            number: Some(0),
            empty: true,
        }
    }

    /// Whether no digit was taken. TeX then reports `Missing number, treated as zero`.
    pub fn is_empty(&self) -> bool
        ensures { result ≡ self.now.empty }
    {
        self.empty
    }

    /// Takes the next token, if it belongs to the constant.
    ///
    /// `More` for a digit: the characters `0` to `9` of category 12 below the base, and in base 16 also `A` to `F` of
    /// category 11 or 12. `Done` for a character of category 10 behind a digit, which is used up, and `DoneBack` for all else.
    /// The constant ends with the first answer that isn't `More`; that isn't remembered. A control sequence that means a space
    /// is for the caller to know. ("TeX: The Program", sections 444 and 445.)
    pub fn feed(&mut self, t: Token) -> Turn
        ensures turn { result ≡ digit_turn self.old t }
        ensures state { self.new ≡ digits_fed self.old t }
        ensures says { (digits : List ℕ) → StandsFor self.old digits → result ≡ said_behind self.old.base digits t }
        ensures stands { (digits : List ℕ) → StandsFor self.old digits → StandsFor self.new (digits ++ option_to_list (digit_of self.old.base t)) }
    {
        match digit_of(self.base, t) {
            Some(digit) => {
                self.number = number_with(self.number, self.base, digit);
                self.empty = false;
                Turn::More
            }
            None => {
                if !self.empty && is_space(t) {
                    Turn::Done
                } else {
                    Turn::DoneBack
                }
            }
        }
    }

    /// The number that the digits stand for, 0 where there is none.
    ///
    /// `TooBig` exactly where it is above 2^31-1.
    pub fn value(&self) -> Result<i32, TooBig>
        ensures state { MatchResult result (λ z. option_map pos self.now.number ≡ Some z) (λ _. self.now.number ≡ None) }
        ensures value { (digits : List ℕ) → StandsFor self.now digits →
            let number = number_of self.now.base digits in
            MatchResult result (λ z. (z ≡ pos number) × (number ≤ 2147483647)) (λ _. 2147483647 < number) }
    {
        match self.number {
            Some(n) => Ok(n as i32),
            None => Err(TooBig),
        }
    }
}
