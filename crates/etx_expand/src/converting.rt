//! What expansion writes: numbers, meanings, lists of tokens and their characters.
ghost use Rattle.std.specs.Prelude.{◌≡◌, IfOk, OnOk};
ghost use Rattle.etx_state.specs.Rests.{Keeps, rest_of};
ghost use Rattle.etx_answers.specs.Answers.{starting, quiet_end};
ghost use Rattle.etx_answers.specs.Showing.{integer_text, roman_text, amount_text};
ghost use Rattle.etx_answers.specs.Reads.{kept_by};
ghost use Rattle.etx_expand.specs.Converting.{written, text_ended, meaning_row, number_given, text_given};

use etx_answers::{
    Ended, Insert, Move, Plan, Push, Start, Then, character_tokens, finished, insert_tokens,
    push_amount, push_integer, push_meaning_text, push_roman, quiet, starting, text_of_tokens,
};
use etx_conditionals::{case_taken, first_taken, odd_taken, second_taken};
use etx_exprs::Value as Quantity;
use etx_lists::Bytes;
use etx_matter::{Boxed, SharedTokens, Tokens};
use etx_numbers::amount_in;
use etx_state::{ExpansionNumber, ExpansionText, Meaning, Rest};
use std::alloc::{AllocError, Global};

/// These characters are read next.
pub(crate) fn written(alloc: Global, text: &[u8]) -> Result<Insert, AllocError>
    ensures { IfOk result (λ insert. insert ≡ written text.now) }
{
    let tokens = character_tokens(alloc, text)?;
    insert_tokens(alloc, tokens)
}

/// A text that is known begins.
pub(crate) fn text_begun(alloc: Global, text: &[u8]) -> Result<Start, AllocError>
    ensures { IfOk result (λ start. start ≡ starting (Push.Insert (written text.now))) }
{
    Ok(starting(Push::Insert(written(alloc, text)?)))
}

/// `\meaning` gets a token.
#[tactic(auto, unfolding(crate::specs::Converting::meaning_row))]
pub(crate) fn meaning_row(rest: &Rest, meaning: &Meaning) -> Result<Plan, AllocError>
    ensures { IfOk result (λ plan. plan ≡ meaning_row meaning.now (rest_of rest.now)) }
{
    let mut text = Bytes::new(rest.alloc());
    push_meaning_text(rest, &mut text, meaning)?;
    Ok(quiet(Move::Used(written(rest.alloc(), text.as_slice())?)))
}

fn text_ended(alloc: Global, text: &[u8]) -> Result<Ended, AllocError>
    ensures { IfOk result (λ ended. ended ≡ text_ended text.now) }
{
    Ok(finished(Then::Insert(written(alloc, text)?)))
}

fn number_written(alloc: Global, number: i32) -> Result<Ended, AllocError>
    ensures { IfOk result (λ ended. ended ≡ text_ended (integer_text number)) }
{
    let mut text = Bytes::new(alloc);
    push_integer(alloc, &mut text, number)?;
    text_ended(alloc, text.as_slice())
}

fn roman_written(alloc: Global, number: i32) -> Result<Ended, AllocError>
    ensures { IfOk result (λ ended. ended ≡ text_ended (roman_text number)) }
{
    let mut text = Bytes::new(alloc);
    push_roman(&mut text, number)?;
    text_ended(alloc, text.as_slice())
}

fn amount_written(alloc: Global, amount: Quantity) -> Result<Ended, AllocError>
    ensures { IfOk result (λ ended. ended ≡ text_ended (amount_text amount)) }
{
    let mut text = Bytes::new(alloc);
    push_amount(alloc, &mut text, amount)?;
    text_ended(alloc, text.as_slice())
}

/// A line for each number that expansion takes.
#[tactic(auto, unfolding(crate::specs::Converting::number_given))]
pub(crate) fn number_given(
    rest: &mut Rest,
    line: u32,
    finish: ExpansionNumber,
    amount: Quantity,
) -> Result<Ended, AllocError>
    ensures rest { OnOk result (rest_of rest.new ≡ (number_given finish amount line (rest_of rest.old)).rest) }
    ensures ended { IfOk result (λ ended. ended ≡ (number_given finish amount line (rest_of rest.old)).ended) }
    ensures kept { Keeps rest.old rest.new }
{
    let number = amount_in(amount);
    match finish {
        ExpansionNumber::Number => number_written(rest.alloc(), number),
        ExpansionNumber::RomanNumeral => roman_written(rest.alloc(), number),
        ExpansionNumber::The { .. } => amount_written(rest.alloc(), amount),
        ExpansionNumber::First { test, is_dimension } => {
            Ok(first_taken(test, is_dimension, number))
        }
        ExpansionNumber::Second { test, first, order } => {
            second_taken(rest, line, test, first, order, number)
        }
        ExpansionNumber::Odd(test) => odd_taken(rest, line, test, number),
        ExpansionNumber::Case(test) => case_taken(rest, line, test, number),
    }
}

/// Tokens that may be none are read next, as they stand or not.
fn kept_by(alloc: Global, is_kept: bool, tokens: Tokens) -> Result<Insert, AllocError>
    ensures { IfOk result (λ insert. insert ≡ kept_by is_kept tokens) }
{
    if tokens.is_empty() {
        return Ok(Insert::Nothing);
    }
    let tokens = SharedTokens::new(alloc, tokens)?;
    if is_kept {
        Ok(Insert::Kept(tokens))
    } else {
        Ok(Insert::Text(tokens))
    }
}

/// The tokens of `\unexpanded` are read next.
fn unexpanded(alloc: Global, is_kept: bool, tokens: Tokens) -> Result<Ended, AllocError>
    ensures { IfOk result (λ ended. ended ≡ quiet_end (Then.Insert (kept_by is_kept tokens))) }
{
    Ok(finished(Then::Insert(kept_by(alloc, is_kept, tokens)?)))
}

/// A line for each text that expansion takes.
#[tactic(auto, unfolding(crate::specs::Converting::text_given))]
pub(crate) fn text_given(
    rest: &Rest,
    finish: ExpansionText,
    text: Boxed<Tokens>,
) -> Result<Ended, AllocError>
    ensures ended { IfOk result (λ ended. ended ≡ text_given finish text (rest_of rest.now)) }
{
    let alloc = rest.alloc();
    match finish {
        ExpansionText::Unexpanded { is_kept } => unexpanded(alloc, is_kept, text.into_inner()),
        ExpansionText::Detokenize => {
            let written = text_of_tokens(rest, text.get().as_slice())?;
            text_ended(alloc, written.as_slice())
        }
    }
}
