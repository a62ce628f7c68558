//! The turns of a conditional's text that isn't taken, many at once: where its scan is on top of the stack, and a list is read.
//!
//! Such a text goes on at each token but the parts of conditionals. What is made here changes no meaning, only the time that it
//! takes: the general turn makes the same.
ghost use Rattle.std.specs.Prelude.{◌≡◌, ◌<◌, ◌≤◌, ℕ, length, false, IsTrue, OnOk};
ghost use Rattle.etx_state.specs.Reading.{token_meaning};
ghost use Rattle.etx_state.specs.Rests.{rest_of};
ghost use Rattle.etx_state.specs.Mouths.{mouth_of};
ghost use Rattle.etx_answers.specs.Meanings.{is_outer};
ghost use Rattle.etx_expand.specs.Moves.{scanning};
ghost use Rattle.etx_conditionals.specs.declared.skips.Skipped.TheVariants as part;
ghost use Rattle.etx_conditionals.specs.Conditionals.{primitive_skipped, skipped_of};
ghost use Rattle.etx_mouth.specs.Passing.{in_skipped, IsPassed, ArePassed};
ghost use Rattle.etx_mouth.specs.Mouths.{mouth_at};
ghost use Rattle.etx_mouth.specs.Runs.{Runs};

use crate::machine::MOST;
use crate::mouth::Source;
use etx_expand::enter;
use etx_matter::Token;
use etx_prims::Primitive;
use etx_state::{Entry, ExpansionScan, Meaning, Rest, Scan, Skip, State};
use std::alloc::AllocError;

/// Whether a primitive is no part of a conditional.
fn is_no_part(primitive: Primitive) -> bool
    ensures { IsTrue result → primitive_skipped primitive ≡ part.Other }
{
    match primitive {
        Primitive::Conditional(_) => false,
        Primitive::FiOrElse(_) => false,
        _ => true,
    }
}

/// Whether a text that isn't taken goes on at what has this meaning.
#[tactic(auto, unfolding(etx_answers::specs::Meanings::is_outer))]
fn is_other(meaning: &Meaning) -> bool
    ensures inner { IsTrue result → is_outer meaning.now ≡ false }
    ensures other { IsTrue result → skipped_of meaning.now ≡ part.Other }
{
    match meaning {
        Meaning::Undefined => true,
        Meaning::Primitive(primitive) => is_no_part(*primitive),
        Meaning::Char { .. } => true,
        Meaning::Macro(definition) => !definition.is_outer(),
        Meaning::Unexpanded => true,
        Meaning::EndTemplate => true,
        Meaning::CharGiven(_) => true,
        Meaning::MathGiven(_) => true,
        Meaning::Register { .. } => true,
    }
}

/// Whether such a text goes on at this token. Active characters aren't looked up.
#[tactic(auto, unfolding(etx_answers::specs::Meanings::is_outer, etx_state::specs::Reading::token_meaning))]
fn is_passed(rest: &Rest, token: Token) -> bool
    ensures inner { IsTrue result → is_outer (token_meaning (rest_of rest.now).values token) ≡ false }
    ensures other { IsTrue result → skipped_of (token_meaning (rest_of rest.now).values token) ≡ part.Other }
{
    match token {
        Token::Char { cat: 13, .. } => false,
        Token::Char { .. } => true,
        Token::Name(name) => is_other(rest.meaning(name)),
        Token::Param(_) => false,
    }
}

/// At how many tokens at the beginning such a text goes on, as many as there is room for.
fn count_passed(rest: &Rest, tokens: &[Token], room: u64) -> usize
    ensures passed { ArePassed (rest_of rest.now).values result tokens.now }
    ensures fits { result ≤ room }
{
    let mut count = 0;
    for token in tokens {
        if count as u64 >= room || !is_passed(rest, *token) {
            return count;
        }
        count += 1;
    }
    count
}

/// The scan of such a text stands on the stack.
fn enter_skipped(s: &mut State, left: u8, skip: Skip) -> Result<(), AllocError>
    ensures { OnOk result (mouth_of s.new ≡ scanning left (in_skipped skip) (mouth_of s.old)) }
{
    enter(
        s,
        Entry::Scan {
            left,
            scan: Scan::Expansion(ExpansionScan::Skip(skip)),
        },
    )
}

/// A text that isn't taken passes tokens, as many as come and within the budget.
#[tactic(auto, using(crate::proofs::Gathers::stays))]
fn pass(s: &mut State, budget: u64, left: u8, skip: Skip) -> Result<(), AllocError>
    requires within { (mouth_of s.old).spent ≤ budget }
    requires levels { length (mouth_of s.old).input.levels ≤ 10000 }
    requires entries { length (mouth_of s.old).entries < 10000 }
    ensures runs { OnOk result (Runs budget (mouth_at Source.Reading (scanning left (in_skipped skip) (mouth_of s.old))) (mouth_at Source.Reading (mouth_of s.new))) }
    ensures within { OnOk result ((mouth_of s.new).spent ≤ budget) }
{
    let tokens = s.input.fresh();
    let count = count_passed(&s.rest, tokens, budget - s.spent);
    if count == 0 {
        enter_skipped(s, left, skip)?;
        return Ok(());
    }
    s.input.skip(count)?;
    s.spent += count as u64;
    enter_skipped(s, left, skip)?;
    Ok(())
}

/// A text that isn't taken, whose scan was taken off the stack, passes what can be passed many at once.
#[tactic(auto, using(crate::proofs::Gathers::stays))]
pub(crate) fn skim_skipped(
    s: &mut State,
    budget: u64,
    left: u8,
    skip: Skip,
) -> Result<(), AllocError>
    requires within { (mouth_of s.old).spent ≤ budget }
    ensures runs { OnOk result (Runs budget (mouth_at Source.Reading (scanning left (in_skipped skip) (mouth_of s.old))) (mouth_at Source.Reading (mouth_of s.new))) }
    ensures within { OnOk result ((mouth_of s.new).spent ≤ budget) }
{
    if s.input.depth() > MOST || s.entries.len() >= MOST {
        enter_skipped(s, left, skip)?;
        return Ok(());
    }
    pass(s, budget, left, skip)
}
