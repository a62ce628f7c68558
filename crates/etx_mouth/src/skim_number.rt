//! The turns of a decimal constant, many at once: where an integer begins on top of the stack, and a list is read.
//!
//! The digits that come next are taken together, with a space behind them. What is made here changes no meaning, only the time that
//! it takes: the general turn makes the same.
ghost use Rattle.std.specs.Prelude.{◌≡◌, ◌+◌, ◌<◌, ◌≤◌, ℕ, ℤ, pos, length, Some, true, false, is_some, get_or, IsTrue, IfOk, OnOk};
ghost use Rattle.etx_exprs.specs.Constants.{DigitsState};
ghost use Rattle.etx_state.specs.Mouths.{mouth_of};
ghost use Rattle.etx_expand.specs.Moves.{entered};
ghost use Rattle.etx_numbers.specs.Numbers.{no_digits, number_in, number_or_greatest};
ghost use Rattle.etx_mouth.specs.Counting.{at_start, in_digits, given as given_entry, IsDigit, IsDigitMore, AreDigits, IsSpace, IsSpaceAt};
ghost use Rattle.etx_input.specs.Runs.{fresh_in};
ghost use Rattle.etx_mouth.specs.Passing.{past};
ghost use Rattle.etx_mouth.specs.Mouths.{mouth_at};
ghost use Rattle.etx_mouth.specs.Runs.{Runs};

use crate::machine::MOST;
use crate::mouth::Source;
use etx_expand::enter;
use etx_exprs::{Digits, TooBig, Value as Quantity};
use etx_matter::{Boxed, GlueOrder, Token};
use etx_state::{Entry, NumberScan, Scan, State, Taker, Value, Want};
use std::alloc::AllocError;

/// How often a programme may go on for nothing that a token began.
const MOST_STAGES: u8 = 7;

/// A number up to this has room for a digit more.
const ROOMY: i32 = 99_999_999;

/// Whether a token is a decimal digit.
fn is_digit(token: Token) -> bool
    ensures { IsTrue result → IsDigit token }
{
    match token {
        Token::Char { code, cat } => cat == 12 && code >= b'0' && code <= b'9',
        Token::Name(_) => false,
        Token::Param(_) => false,
    }
}

/// Whether a token is a space.
fn is_space(token: Token) -> bool
    ensures { IsTrue result → IsSpace token }
{
    match token {
        Token::Char { cat, .. } => cat == 10,
        Token::Name(_) => false,
        Token::Param(_) => false,
    }
}

/// A digit is taken, unless the number may be too big with it.
fn take_digit(digits: &mut Digits, token: Token) -> bool
    requires base { digits.old.base ≡ 10 }
    ensures more { IsTrue result → IsDigitMore digits.old token digits.new }
    ensures same { result ≡ false → digits.new ≡ digits.old }
    ensures base { digits.new.base ≡ 10 }
{
    if !is_digit(token) {
        return false;
    }
    match digits.value() {
        Ok(number) => {
            if number > ROOMY {
                return false;
            }
            let _ = digits.feed(token);
            true
        }
        Err(TooBig) => false,
    }
}

/// A constant of which some digits were taken.
#[derive(Drop)]
struct Constant {
    digits: Digits,
    /// How many tokens they are.
    count: usize,
}

/// The digits at the beginning, as many as there is room for.
fn read_constant(tokens: &[Token], room: u64) -> Constant
    ensures digits { AreDigits result.count tokens.now result.digits }
    ensures fits { result.count ≤ room }
    ensures most { result.count ≤ length tokens.now }
{
    let mut digits = Digits::new(10);
    let mut count = 0;
    for token in tokens {
        if count as u64 >= room || !take_digit(&mut digits, *token) {
            return Constant { digits, count };
        }
        count += 1;
    }
    Constant { digits, count }
}

/// Whether a space stands behind so many tokens.
fn ends_at(tokens: &[Token], count: usize) -> bool
    ensures space { IsTrue result → IsSpaceAt count tokens.now }
    ensures less { IsTrue result → count < length tokens.now }
{
    count < tokens.len() && is_space(tokens[count])
}

/// Whether a space stands behind so many tokens, and there is room for it.
fn is_whole(tokens: &[Token], count: usize, room: u64) -> bool
    ensures space { IsTrue result → IsSpaceAt count tokens.now }
    ensures less { IsTrue result → count < length tokens.now }
    ensures room { IsTrue result → count < room }
{
    (count as u64) < room && ends_at(tokens, count)
}

/// The number that these digits come to, or the greatest where it is too big.
fn number_of(digits: &Digits) -> i32
    ensures { result ≡ number_or_greatest (number_in digits.now) }
{
    match digits.value() {
        Ok(number) => number,
        Err(TooBig) => i32::MAX,
    }
}

/// The integer is whole: its value stands on the stack.
fn give(s: &mut State, digits: &Digits, taker: Boxed<Taker>) -> Result<(), AllocError>
    ensures { OnOk result (mouth_of s.new ≡ entered (given_entry digits.now taker) (mouth_of s.old)) }
{
    let amount = Quantity::Int(number_of(digits));
    let value = Value::Number {
        amount,
        order: GlueOrder::Normal,
        taker,
    };
    enter(
        s,
        Entry::Given {
            left: MOST_STAGES,
            value,
        },
    )
}

/// The integer goes on behind these digits.
fn enter_digits(s: &mut State, digits: Digits, taker: Boxed<Taker>) -> Result<(), AllocError>
    ensures { OnOk result (mouth_of s.new ≡ entered (in_digits digits taker) (mouth_of s.old)) }
{
    let scan = NumberScan::Digits {
        want: Want::Integer { is_negative: false },
        digits,
        is_decimal: true,
    };
    enter(
        s,
        Entry::Scan {
            left: MOST_STAGES,
            scan: Scan::Number { scan, taker },
        },
    )
}

/// The integer begins.
fn enter_start(s: &mut State, left: u8, taker: Boxed<Taker>) -> Result<(), AllocError>
    ensures { OnOk result (mouth_of s.new ≡ entered (at_start left taker) (mouth_of s.old)) }
{
    let scan = NumberScan::Start(Want::Integer { is_negative: false });
    enter(
        s,
        Entry::Scan {
            left,
            scan: Scan::Number { scan, taker },
        },
    )
}

/// So many tokens are used up, each in a step.
fn use_up(s: &mut State, count: usize) -> Result<(), AllocError>
    requires some { 0 < count }
    requires there { count ≤ length (fresh_in (mouth_of s.old).input.levels) }
    requires fits { (mouth_of s.old).spent + count ≤ 18446744073709551615 }
    ensures { OnOk result (mouth_of s.new ≡ past count (mouth_of s.old)) }
{
    s.input.skip(count)?;
    s.spent += count as u64;
    Ok(())
}

/// An integer that begins takes the digits that come next, as many as fit and within the budget, and a space behind them. It was taken
/// off the stack; its value stands there then, or the scan of what comes behind the digits.
#[tactic(auto, using(crate::proofs::Gathers::stays))]
fn take_constant(
    s: &mut State,
    budget: u64,
    left: u8,
    taker: Boxed<Taker>,
) -> Result<(), AllocError>
    requires within { (mouth_of s.old).spent ≤ budget }
    requires levels { length (mouth_of s.old).input.levels ≤ 10000 }
    requires entries { length (mouth_of s.old).entries < 10000 }
    ensures runs { OnOk result (Runs budget (mouth_at Source.Reading (entered (at_start left taker) (mouth_of s.old))) (mouth_at Source.Reading (mouth_of s.new))) }
    ensures within { OnOk result ((mouth_of s.new).spent ≤ budget) }
{
    let tokens = s.input.fresh();
    let room = budget - s.spent;
    let constant = read_constant(tokens, room);
    if constant.count == 0 {
        return enter_start(s, left, taker);
    }
    let Constant { digits, count } = constant;
    if is_whole(tokens, count, room) {
        use_up(s, count + 1)?;
        give(s, &digits, taker)?;
        return Ok(());
    }
    use_up(s, count)?;
    enter_digits(s, digits, taker)?;
    Ok(())
}

/// An integer that begins, and was taken off the stack, takes what can be taken many at once.
#[tactic(auto, using(crate::proofs::Gathers::stays))]
pub(crate) fn skim_constant(
    s: &mut State,
    budget: u64,
    left: u8,
    taker: Boxed<Taker>,
) -> Result<(), AllocError>
    requires within { (mouth_of s.old).spent ≤ budget }
    ensures runs { OnOk result (Runs budget (mouth_at Source.Reading (entered (at_start left taker) (mouth_of s.old))) (mouth_at Source.Reading (mouth_of s.new))) }
    ensures within { OnOk result ((mouth_of s.new).spent ≤ budget) }
{
    if s.input.depth() > MOST || s.entries.len() >= MOST {
        enter_start(s, left, taker)?;
        return Ok(());
    }
    take_constant(s, budget, left, taker)
}
