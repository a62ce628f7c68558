//! Turns at rest that are made many at once: where nothing stands on the stack and the innermost level is a list of tokens.
//!
//! Each of them is a turn of the machine, and a step. What is made here changes no meaning, only the time that it takes: the
//! general turn makes the same. The first token is looked at once, and its kind says how the next turns are made.
ghost use Rattle.std.specs.Prelude.{◌≡◌, ◌≤◌, ◌⊎◌, Some, None, IsTrue, IfOk, OnOk, MatchOption};
ghost use Rattle.etx_state.specs.Reading.{token_meaning};
ghost use Rattle.etx_state.specs.Rests.{rest_of};
ghost use Rattle.etx_state.specs.Mouths.{mouth_of};
ghost use Rattle.etx_answers.specs.Meanings.{primitive_expandable};
ghost use Rattle.etx_mouth.specs.Mouths.{mouth_at};
ghost use Rattle.etx_mouth.specs.Runs.{Runs};
ghost use Rattle.etx_mouth.specs.Skimming.{IsIdle, AreIdle, IsAtRest, IsNext, IsCommand, IsGlance, plain_body};

use crate::machine::MOST;
use crate::mouth::Source;
use crate::skim_command::skim_command;
use etx_expand::is_plain;
use etx_input::Origin;
use etx_matter::{SharedTokens, Token};
use etx_prims::Primitive;
use etx_state::{Macro, Meaning, Rest, State};
use std::alloc::AllocError;

/// What the next token at rest is.
#[derive(Drop)]
pub enum Glance {
    /// Main control does nothing at it.
    Idle,
    /// It calls a macro by its name alone, and this is the macro's body.
    Call(SharedTokens),
    /// It is a command that isn't expanded, and this is its meaning.
    Command(Meaning),
    /// Something else, or what isn't looked up here.
    Other,
}

fn is_idle_primitive(primitive: Primitive) -> bool
    ensures { IsTrue result → (primitive ≡ Primitive.Relax) ⊎ (primitive ≡ Primitive.Par) }
{
    match primitive {
        Primitive::Relax => true,
        Primitive::Par => true,
        _ => false,
    }
}

/// Whether main control does nothing at this meaning.
fn is_idle_meaning(meaning: &Meaning) -> bool
    ensures { IsTrue result → IsIdle meaning.now }
{
    match meaning {
        Meaning::Undefined => false,
        Meaning::Primitive(primitive) => is_idle_primitive(*primitive),
        Meaning::Char { cat, .. } => *cat == 10,
        Meaning::Macro(_) => false,
        Meaning::Unexpanded => true,
        Meaning::EndTemplate => false,
        Meaning::CharGiven(_) => false,
        Meaning::MathGiven(_) => false,
        Meaning::Register { .. } => false,
    }
}

/// Whether main control does nothing at this token. Active characters aren't looked up.
#[tactic(auto, unfolding(etx_state::specs::Reading::token_meaning))]
fn is_idle(rest: &Rest, token: Token) -> bool
    ensures { IsTrue result → IsIdle (token_meaning (rest_of rest.now).values token) }
{
    match token {
        Token::Char { cat, .. } => cat == 10,
        Token::Name(name) => is_idle_meaning(rest.meaning(name)),
        Token::Param(_) => false,
    }
}

/// At how many tokens at the beginning main control does nothing.
fn count_idle(rest: &Rest, tokens: &[Token]) -> usize
    ensures { AreIdle (rest_of rest.now).values result tokens.now }
{
    let mut count = 0;
    for token in tokens {
        if !is_idle(rest, *token) {
            return count;
        }
        count += 1;
    }
    count
}

/// So many, or as many as there is room for.
fn count_within(count: usize, room: u64) -> usize
    ensures some { result ≤ count }
    ensures fits { result ≤ room }
{
    if count as u64 <= room {
        count
    } else {
        room as usize
    }
}

/// Makes the turns at which main control does nothing, as many as come and within the budget.
fn skim_idle(s: &mut State, budget: u64) -> Result<(), AllocError>
    requires rest { IsAtRest (mouth_of s.old) }
    requires within { (mouth_of s.old).spent ≤ budget }
    ensures runs { OnOk result (Runs budget (mouth_at Source.Reading (mouth_of s.old)) (mouth_at Source.Reading (mouth_of s.new))) }
    ensures rest { OnOk result (IsAtRest (mouth_of s.new)) }
    ensures within { OnOk result ((mouth_of s.new).spent ≤ budget) }
    ensures forth { OnOk result ((mouth_of s.old).spent ≤ (mouth_of s.new).spent) }
{
    let count = count_within(count_idle(&s.rest, s.input.fresh()), budget - s.spent);
    if count == 0 {
        return Ok(());
    }
    s.input.skip(count)?;
    s.spent += count as u64;
    Ok(())
}

/// Whether a primitive is a command that is built, and isn't expanded.
#[tactic(auto, unfolding(etx_answers::specs::Meanings::primitive_expandable))]
fn is_command(primitive: Primitive) -> bool
    ensures { IsTrue result → primitive_expandable primitive ≡ None }
{
    match primitive {
        Primitive::SemiSimpleGroup(_) => true,
        Primitive::After(_) => true,
        Primitive::IgnoreSpaces => true,
        Primitive::Message(_) => true,
        Primitive::Prefix(_) => true,
        Primitive::Def(_) => true,
        Primitive::Let(_) => true,
        Primitive::Code(_) => true,
        _ => false,
    }
}

#[tactic(auto, unfolding(etx_answers::specs::Meanings::expandable_of))]
fn look_at_primitive(primitive: Primitive) -> Glance
    ensures { IsGlance (Meaning.Primitive primitive) result }
{
    if is_idle_primitive(primitive) {
        return Glance::Idle;
    }
    if is_command(primitive) {
        return Glance::Command(Meaning::Primitive(primitive));
    }
    Glance::Other
}

fn look_at_macro(definition: &Macro) -> Result<Glance, AllocError>
    ensures { IfOk result (λ glance. IsGlance (Meaning.Macro definition.now) glance) }
{
    if is_plain(definition.pattern()) {
        Ok(Glance::Call(definition.body().share()?))
    } else {
        Ok(Glance::Other)
    }
}

/// A meaning that is a character's.
#[tactic(auto, unfolding(etx_answers::specs::Meanings::expandable_of))]
fn look_at_character(code: u8, cat: u8) -> Glance
    ensures { IsGlance (Meaning.Char code cat) result }
{
    if cat == 10 {
        Glance::Idle
    } else if cat == 1 || cat == 2 {
        Glance::Command(Meaning::Char { code, cat })
    } else {
        Glance::Other
    }
}

fn look_at_meaning(meaning: &Meaning) -> Result<Glance, AllocError>
    ensures { IfOk result (λ glance. IsGlance meaning.now glance) }
{
    match meaning {
        Meaning::Undefined => Ok(Glance::Other),
        Meaning::Primitive(primitive) => Ok(look_at_primitive(*primitive)),
        Meaning::Char { code, cat } => Ok(look_at_character(*code, *cat)),
        Meaning::Macro(definition) => look_at_macro(definition),
        Meaning::Unexpanded => Ok(Glance::Idle),
        Meaning::EndTemplate => Ok(Glance::Other),
        Meaning::CharGiven(_) => Ok(Glance::Other),
        Meaning::MathGiven(_) => Ok(Glance::Other),
        Meaning::Register { .. } => Ok(Glance::Other),
    }
}

/// What a token is. Active characters aren't looked up.
#[tactic(auto, unfolding(etx_state::specs::Reading::token_meaning, etx_answers::specs::Meanings::expandable_of))]
fn look_at(rest: &Rest, token: Token) -> Result<Glance, AllocError>
    ensures { IfOk result (λ glance. IsGlance (token_meaning (rest_of rest.now).values token) glance) }
{
    match token {
        Token::Char { code, cat } => {
            if cat == 10 {
                Ok(Glance::Idle)
            } else if cat == 1 {
                Ok(Glance::Command(Meaning::Char { code, cat }))
            } else if cat == 2 {
                Ok(Glance::Command(Meaning::Char { code, cat }))
            } else {
                Ok(Glance::Other)
            }
        }
        Token::Name(name) => look_at_meaning(rest.meaning(name)),
        Token::Param(_) => Ok(Glance::Other),
    }
}

/// Makes the turn at which this token calls a macro by its name alone, if that is within the budget.
fn skim_call(s: &mut State, token: Token, body: SharedTokens, budget: u64) -> Result<(), AllocError>
    requires next { IsNext token (mouth_of s.old) }
    requires called { plain_body (token_meaning (mouth_of s.old).rest.values token) ≡ Some body }
    requires within { (mouth_of s.old).spent ≤ budget }
    ensures runs { OnOk result (Runs budget (mouth_at Source.Reading (mouth_of s.old)) (mouth_at Source.Reading (mouth_of s.new))) }
    ensures within { OnOk result ((mouth_of s.new).spent ≤ budget) }
    ensures forth { OnOk result ((mouth_of s.old).spent ≤ (mouth_of s.new).spent) }
{
    if s.spent == budget {
        return Ok(());
    }
    s.input.skip(1)?;
    s.input.push_shared(body, Origin::Fresh)?;
    s.spent += 1;
    Ok(())
}

/// The next token, where nothing stands on the stack, a list of fresh tokens is read, and one more may be read above it.
fn next_token(s: &State) -> Option<Token>
    ensures { MatchOption result (Unit {0}) (λ token. IsNext token (mouth_of s.now)) }
{
    if !s.at_rest() || s.input.depth() >= MOST {
        return None;
    }
    match s.input.fresh() {
        [] => None,
        [token, ..] => Some(*token),
    }
}

/// Makes the turns that this token is good for, within the budget. After an `Err` the state is only dropped.
fn skim_next(s: &mut State, token: Token, budget: u64) -> Result<(), AllocError>
    requires next { IsNext token (mouth_of s.old) }
    requires within { (mouth_of s.old).spent ≤ budget }
    ensures runs { OnOk result (Runs budget (mouth_at Source.Reading (mouth_of s.old)) (mouth_at Source.Reading (mouth_of s.new))) }
    ensures within { OnOk result ((mouth_of s.new).spent ≤ budget) }
    ensures forth { OnOk result ((mouth_of s.old).spent ≤ (mouth_of s.new).spent) }
{
    let seen = look_at(&s.rest, token)?;
    match seen {
        Glance::Idle => skim_idle(s, budget),
        Glance::Call(body) => skim_call(s, token, body, budget),
        Glance::Command(meaning) => skim_command(s, token, meaning, budget),
        Glance::Other => Ok(()),
    }
}

/// Makes turns at rest while they are of these kinds. After an `Err` the state is only dropped.
pub(crate) fn skim(s: &mut State, budget: u64) -> Result<(), AllocError>
    requires within { (mouth_of s.old).spent ≤ budget }
    ensures runs { OnOk result (Runs budget (mouth_at Source.Reading (mouth_of s.old)) (mouth_at Source.Reading (mouth_of s.new))) }
    ensures within { OnOk result ((mouth_of s.new).spent ≤ budget) }
{
    'runs: loop {
        let Some(token) = next_token(s) else {
            return Ok(());
        };
        let before = s.spent;
        skim_next(s, token, budget)?;
        if s.spent == before {
            return Ok(());
        }
    }
}
