//! What a scan of a number decides, and how it is carried out with the one who takes the number.
ghost use Rattle.std.specs.Prelude.{◌≡◌, ◌<◌, Some, None, false, true, not, IfOk};
ghost use Rattle.etx_matter.specs.declared.glue.GlueOrder.TheVariants.{Normal};
ghost use Rattle.etx_state.specs.Rests.{rest_of};
ghost use Rattle.etx_answers.specs.Reads.{goes_on, gives, gives_order, failing, behind, reads_end, waits, waits_if, plan_next, ended_next, error_did, list_insert, list_given, value_move, move_then, read_plan, read_ended};

use crate::answers::{ends, value_ends};
use crate::plan::{Did, Ended, Failure, Insert, Move, Plan, Then};
use etx_exprs::Value as Quantity;
use etx_keys::Key;
use etx_lists::Bytes;
use etx_matter::{Boxed, End, GlueOrder, Limit};
use etx_state::{ExpansionNumber, NumberFinish, NumberScan, Outer, Rest, Scan, Taker, Value};
use std::alloc::{AllocError, Global};

/// What comes behind a token, or behind a number that was read first.
#[derive(Drop)]
pub enum Next {
    /// The scan goes on so.
    Scan(NumberScan),
    /// The token is the first letter of a word, which the scan reads.
    Letter(NumberScan),
    /// The number is whole.
    Gives { amount: Quantity, order: GlueOrder },
    /// The list of tokens under this key is taken, as it stands.
    List(Key),
    /// The job ends.
    Ends(End),
}

/// What a scan of a number decides.
#[derive(Drop)]
pub struct Read {
    pub next: Next,
    /// Whether the token is read again.
    pub is_back: bool,
    /// The text of an error.
    pub error: Option<Bytes>,
    /// What waits for what is read now.
    pub outer: Option<Outer>,
    /// What waits for that.
    pub further: Option<Outer>,
}

/// The most scans that wait for one number.
const MOST_OUTERS: usize = 10_000;

/// The scan goes on so.
#[inline(always)]
pub fn goes_on(scan: NumberScan) -> Read
    ensures { result ≡ goes_on scan }
{
    Read {
        next: Next::Scan(scan),
        is_back: false,
        error: None,
        outer: None,
        further: None,
    }
}

/// A word begins with the token.
#[inline(always)]
pub fn letter(scan: NumberScan) -> Read
    ensures { result ≡ record { next = Next.Letter scan; is_back = false; error = None; outer = None; further = None } }
{
    Read {
        next: Next::Letter(scan),
        is_back: false,
        error: None,
        outer: None,
        further: None,
    }
}

/// The number is whole, and the token is used up.
#[inline(always)]
pub fn gives(amount: Quantity) -> Read
    ensures { result ≡ gives amount }
{
    gives_order(amount, GlueOrder::Normal)
}

/// The same of an amount of an order.
#[inline(always)]
pub fn gives_order(amount: Quantity, order: GlueOrder) -> Read
    ensures { result ≡ gives_order amount order }
{
    Read {
        next: Next::Gives { amount, order },
        is_back: false,
        error: None,
        outer: None,
        further: None,
    }
}

/// The token is read again.
#[inline(always)]
pub fn back(read: Read) -> Read
    ensures { result ≡ record read { is_back = true } }
{
    Read {
        is_back: true,
        ..read
    }
}

/// The token is read again, if it is no space that belongs to the number.
#[inline(always)]
pub fn back_unless(is_space: bool, read: Read) -> Read
    ensures { result ≡ record read { is_back = not is_space } }
{
    Read {
        is_back: !is_space,
        ..read
    }
}

/// With an error.
pub fn failing(alloc: Global, text: &[u8], read: Read) -> Result<Read, AllocError>
    ensures { IfOk result (λ r. r ≡ failing text.now read) }
{
    let text = Bytes::from_slice(alloc, text)?;
    Ok(Read {
        error: Some(text),
        ..read
    })
}

/// What is read now is for this outer scan.
#[inline(always)]
pub fn behind(outer: Outer, read: Read) -> Read
    ensures { result ≡ behind outer read }
{
    Read {
        outer: Some(outer),
        ..read
    }
}

/// What is read now is in the end for this outer scan, behind the one that may wait already.
pub fn behind_all(outer: Outer, read: Read) -> Read
    ensures { result ≡ record read { further = Some outer } }
{
    Read {
        further: Some(outer),
        ..read
    }
}

/// The job ends.
pub fn reads_end(end: End) -> Read
    ensures { result ≡ reads_end end }
{
    Read {
        next: Next::Ends(end),
        is_back: false,
        error: None,
        outer: None,
        further: None,
    }
}

/// The outer scan waits, if there is one. `None` where there is no room for it.
#[inline(always)]
fn wait(mut taker: Boxed<Taker>, outer: Option<Outer>) -> Result<Option<Boxed<Taker>>, AllocError>
    ensures { IfOk result (λ waiting. waiting ≡ waits outer taker) }
{
    match outer {
        None => Ok(Some(taker)),
        Some(outer) => {
            if taker.get().outers.len() >= MOST_OUTERS {
                return Ok(None);
            }
            taker.get_mut().outers.push(outer)?;
            Ok(Some(taker))
        }
    }
}

/// Both outer scans wait, where they are there. `None` where there is no room for them.
#[inline(always)]
fn wait_both(
    taker: Boxed<Taker>,
    outer: Option<Outer>,
    further: Option<Outer>,
) -> Result<Option<Boxed<Taker>>, AllocError>
    ensures { IfOk result (λ waiting. waiting ≡ waits_if outer (waits further taker)) }
{
    match wait(taker, further)? {
        None => Ok(None),
        Some(taker) => wait(taker, outer),
    }
}

/// The error, if there is one.
#[inline(always)]
fn error_of(alloc: Global, is_back: bool, error: Option<Bytes>) -> Result<Did, AllocError>
    ensures { IfOk result (λ did. did ≡ error_did is_back error) }
{
    match error {
        None => Ok(Did::Nothing),
        Some(text) => {
            let failure = Failure {
                text,
                is_back,
                inserted: None,
            };
            Ok(Did::Error(Boxed::new(alloc, failure)?))
        }
    }
}

/// A list of tokens is read next, by `\the`; to another it is zero.
fn list_given(rest: &Rest, key: Key, taker: Boxed<Taker>) -> Result<Then, AllocError>
    ensures { IfOk result (λ it. it ≡ list_given key taker (rest_of rest.now)) }
{
    match taker.get().finish {
        NumberFinish::Expansion(ExpansionNumber::The { is_kept }) => {
            Ok(Then::Insert(list_insert(rest, key, is_kept)?))
        }
        _ => Ok(Then::Gives(Value::Number {
            amount: Quantity::Int(0),
            order: GlueOrder::Normal,
            taker,
        })),
    }
}

/// A list of tokens is read next.
pub(crate) fn list_insert(rest: &Rest, key: Key, is_kept: bool) -> Result<Insert, AllocError>
    ensures { IfOk result (λ insert. insert ≡ list_insert key is_kept (rest_of rest.now)) }
{
    let tokens = rest.tokens(key)?;
    if tokens.as_slice().is_empty() {
        Ok(Insert::Nothing)
    } else if is_kept {
        Ok(Insert::Kept(tokens))
    } else {
        Ok(Insert::Text(tokens))
    }
}

/// A number that is whole goes to the one who takes it. An error puts the token back itself.
fn value_move(is_back: bool, has_error: bool, value: Value) -> Move
    ensures { result ≡ value_move is_back has_error value }
{
    if is_back && !has_error {
        Move::GivesBack(value)
    } else {
        Move::Gives(value)
    }
}

/// The list of tokens, where the token that named it is used up.
fn list_move(rest: &Rest, key: Key, taker: Boxed<Taker>) -> Result<Move, AllocError>
    ensures { IfOk result (λ go. go ≡ move_then (list_given key taker (rest_of rest.now))) }
{
    match list_given(rest, key, taker)? {
        Then::Insert(insert) => Ok(Move::Used(insert)),
        Then::More(_) => Ok(Move::Used(Insert::Nothing)),
        Then::MoreBehind(_, _) => Ok(Move::Used(Insert::Nothing)),
        Then::Say(_) => Ok(Move::Used(Insert::Nothing)),
        Then::Gives(value) => Ok(Move::Gives(value)),
    }
}

/// What becomes of the scan and its token, with the error, if there is one.
#[inline(always)]
fn plan_with_error(
    alloc: Global,
    is_back: bool,
    error: Option<Bytes>,
    go: Move,
) -> Result<Plan, AllocError>
    ensures { IfOk result (λ plan. plan ≡ record { go = go; did = error_did is_back error }) }
{
    let did = error_of(alloc, is_back, error)?;
    Ok(Plan { go, did })
}

/// Carries out what comes next, where a token was got.
#[inline(always)]
fn plan_next(
    rest: &Rest,
    taker: Boxed<Taker>,
    next: Next,
    is_back: bool,
    error: Option<Bytes>,
) -> Result<Plan, AllocError>
    ensures { IfOk result (λ plan. plan ≡ plan_next next is_back error taker (rest_of rest.now)) }
{
    let alloc = rest.alloc();
    match next {
        Next::Scan(scan) => {
            let go = Move::Begin(Scan::Number { scan, taker });
            plan_with_error(alloc, is_back, error, go)
        }
        Next::Letter(scan) => {
            let go = Move::Letter(Scan::Number { scan, taker });
            plan_with_error(alloc, is_back, error, go)
        }
        Next::Gives { amount, order } => {
            let value = Value::Number {
                amount,
                order,
                taker,
            };
            let go = value_move(is_back, error.is_some(), value);
            plan_with_error(alloc, is_back, error, go)
        }
        Next::List(key) => {
            let go = list_move(rest, key, taker)?;
            plan_with_error(alloc, is_back, error, go)
        }
        Next::Ends(end) => Ok(ends(end)),
    }
}

/// Carries out what a scan decided of a token.
#[tactic(auto, unfolding(crate::specs::Reads::read_plan))]
#[inline(always)]
pub fn read_plan(rest: &Rest, taker: Boxed<Taker>, read: Read) -> Result<Plan, AllocError>
    ensures { IfOk result (λ plan. plan ≡ read_plan taker read (rest_of rest.now)) }
{
    let Read {
        next,
        is_back,
        error,
        outer,
        further,
    } = read;
    match wait_both(taker, outer, further)? {
        None => Ok(ends(End::Capacity(Limit::Scans))),
        Some(taker) => plan_next(rest, taker, next, is_back, error),
    }
}

/// What comes then, with the error, if there is one.
fn ended_with_error(alloc: Global, error: Option<Bytes>, then: Then) -> Result<Ended, AllocError>
    ensures { IfOk result (λ ended. ended ≡ record { then = then; did = error_did false error }) }
{
    let did = error_of(alloc, false, error)?;
    Ok(Ended { then, did })
}

/// Carries out what comes next, where no token was got.
fn ended_next(
    rest: &Rest,
    taker: Boxed<Taker>,
    next: Next,
    error: Option<Bytes>,
) -> Result<Ended, AllocError>
    ensures { IfOk result (λ ended. ended ≡ ended_next next error taker (rest_of rest.now)) }
{
    let alloc = rest.alloc();
    match next {
        Next::Scan(scan) => {
            ended_with_error(alloc, error, Then::More(Scan::Number { scan, taker }))
        }
        Next::Letter(scan) => {
            ended_with_error(alloc, error, Then::More(Scan::Number { scan, taker }))
        }
        Next::Gives { amount, order } => {
            let value = Value::Number {
                amount,
                order,
                taker,
            };
            ended_with_error(alloc, error, Then::Gives(value))
        }
        Next::List(key) => {
            let then = list_given(rest, key, taker)?;
            ended_with_error(alloc, error, then)
        }
        Next::Ends(end) => Ok(value_ends(end)),
    }
}

/// Carries out what is decided where no token was got.
#[tactic(auto, unfolding(crate::specs::Reads::read_ended))]
pub fn read_ended(rest: &Rest, taker: Boxed<Taker>, read: Read) -> Result<Ended, AllocError>
    ensures { IfOk result (λ ended. ended ≡ read_ended taker read (rest_of rest.now)) }
{
    let Read {
        next,
        is_back: _,
        error,
        outer,
        further,
    } = read;
    match wait_both(taker, outer, further)? {
        None => Ok(value_ends(End::Capacity(Limit::Scans))),
        Some(taker) => ended_next(rest, taker, next, error),
    }
}
