//! The few answers that rows are made of. Errors are made here alone.
ghost use Rattle.std.specs.Prelude.{◌≡◌, IfOk, Some, false};
ghost use Rattle.etx_answers.specs.Answers.{quiet, used, ends, fails, fails_back, fails_under, starting, nothing, start_ends, start_fails, start_fails_back, start_fails_under, plan_of, value_ends, insert_of, insert_token};
ghost use Rattle.etx_answers.specs.declared.plan.Did.TheVariants as did;

use crate::plan::{Did, Ended, Failure, Insert, Move, Plan, Push, Start, Then};
use etx_lists::Bytes;
use etx_matter::{Boxed, End, SharedTokens, Token, Tokens};
use std::alloc::{AllocError, Global};

/// Nothing is done beside.
pub fn quiet(go: Move) -> Plan
    ensures { result ≡ quiet go }
{
    Plan {
        go,
        did: Did::Nothing,
    }
}

/// The token is used up, and the scan is over.
pub fn used() -> Move
    ensures { result ≡ used }
{
    Move::Used(Insert::Nothing)
}

/// The job ends.
pub fn ends(end: End) -> Plan
    ensures { result ≡ ends end }
{
    Plan {
        go: Move::Used(Insert::Nothing),
        did: Did::End(end),
    }
}

/// An error.
fn error(
    alloc: Global,
    text: &[u8],
    is_back: bool,
    inserted: Option<Token>,
) -> Result<Did, AllocError>
    ensures { IfOk result (λ d. d ≡ did.Error (record { text = text.now; is_back = is_back; inserted = inserted })) }
{
    let text = Bytes::from_slice(alloc, text)?;
    let failure = Boxed::new(
        alloc,
        Failure {
            text,
            is_back,
            inserted,
        },
    )?;
    Ok(Did::Error(failure))
}

/// An error after which the token is gone.
pub fn fails(alloc: Global, text: &[u8], go: Move) -> Result<Plan, AllocError>
    ensures { IfOk result (λ p. p ≡ fails text.now go) }
{
    let did = error(alloc, text, false, None)?;
    Ok(Plan { go, did })
}

/// An error after which the token is read again.
pub fn fails_back(alloc: Global, text: &[u8], go: Move) -> Result<Plan, AllocError>
    ensures { IfOk result (λ p. p ≡ fails_back text.now go) }
{
    let did = error(alloc, text, true, None)?;
    Ok(Plan { go, did })
}

/// An error after which `upper` is read, and then the token again.
pub fn fails_under(alloc: Global, upper: Token, text: &[u8], go: Move) -> Result<Plan, AllocError>
    ensures { IfOk result (λ p. p ≡ fails_under upper text.now go) }
{
    let did = error(alloc, text, true, Some(upper))?;
    Ok(Plan { go, did })
}

/// An error after which the token is gone, and this one is read, if there is one.
pub fn fails_before(alloc: Global, text: &[u8], inserted: Option<Token>) -> Result<Plan, AllocError>
    ensures { IfOk result (λ p. p ≡ record { go = used; did = did.Error (record { text = text.now; is_back = false; inserted = inserted }) }) }
{
    let did = error(alloc, text, false, inserted)?;
    Ok(Plan {
        go: Move::Used(Insert::Nothing),
        did,
    })
}

/// Nothing is done beside.
pub fn starting(push: Push) -> Start
    ensures { result ≡ starting push }
{
    Start {
        push,
        did: Did::Nothing,
    }
}

/// Nothing begins.
pub fn nothing() -> Push
    ensures { result ≡ nothing }
{
    Push::Insert(Insert::Nothing)
}

/// The job ends.
pub fn start_ends(end: End) -> Start
    ensures { result ≡ start_ends end }
{
    Start {
        push: Push::Insert(Insert::Nothing),
        did: Did::End(end),
    }
}

/// An error after which the token is gone.
pub fn start_fails(alloc: Global, text: &[u8], push: Push) -> Result<Start, AllocError>
    ensures { IfOk result (λ s. s ≡ start_fails text.now push) }
{
    let did = error(alloc, text, false, None)?;
    Ok(Start { push, did })
}

/// An error after which the token is read again.
pub fn start_fails_back(alloc: Global, text: &[u8], push: Push) -> Result<Start, AllocError>
    ensures { IfOk result (λ s. s ≡ start_fails_back text.now push) }
{
    let did = error(alloc, text, true, None)?;
    Ok(Start { push, did })
}

/// An error after which `upper` is read, and then the token again.
pub fn start_fails_under(
    alloc: Global,
    upper: Token,
    text: &[u8],
    push: Push,
) -> Result<Start, AllocError>
    ensures { IfOk result (λ s. s ≡ start_fails_under upper text.now push) }
{
    let did = error(alloc, text, true, Some(upper))?;
    Ok(Start { push, did })
}

/// A scan that is over begins what a start begins.
pub fn plan_of(start: Start) -> Plan
    ensures { result ≡ plan_of start }
{
    let Start { push, did } = start;
    match push {
        Push::Insert(insert) => Plan {
            go: Move::Used(insert),
            did,
        },
        Push::Begin(scan) => Plan {
            go: Move::Begin(scan),
            did,
        },
    }
}

/// The job ends.
pub fn value_ends(end: End) -> Ended
    ensures { result ≡ record { then = Then.Insert Insert.Nothing; did = Did.End end } }
{
    Ended {
        then: Then::Insert(Insert::Nothing),
        did: Did::End(end),
    }
}

/// Nothing is done beside.
pub fn finished(then: Then) -> Ended
    ensures { result ≡ record { then = then; did = Did.Nothing } }
{
    Ended {
        then,
        did: Did::Nothing,
    }
}

/// Tokens that may be none are read next.
pub fn insert_tokens(alloc: Global, tokens: Tokens) -> Result<Insert, AllocError>
    ensures { IfOk result (λ i. i ≡ insert_of tokens) }
{
    if tokens.is_empty() {
        return Ok(Insert::Nothing);
    }
    Ok(Insert::Text(SharedTokens::new(alloc, tokens)?))
}

/// A token that may be there is read next.
pub fn insert_token(token: Option<Token>) -> Insert
    ensures { result ≡ insert_token token }
{
    match token {
        None => Insert::Nothing,
        Some(token) => Insert::Token(token),
    }
}
