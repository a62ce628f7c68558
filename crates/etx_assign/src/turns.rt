//! The turns of assignments: a scan gets a token, a finisher a number, and `\futurelet` the second of its tokens.
ghost use Rattle.std.specs.Prelude.{◌≡◌, OnOk, IfOk};
ghost use Rattle.etx_state.specs.Rests.{rest_of, Keeps};
ghost use Rattle.etx_state.specs.Mouths.{mouth_of};
ghost use Rattle.etx_answers.specs.Answers.{quiet, used};
ghost use Rattle.etx_expand.specs.Moves.{entered, put_back, insert_if};
ghost use Rattle.etx_assign.specs.Assignments.{over};
ghost use Rattle.etx_assign.specs.Turn.{word_plan, assign_word_turn, text_turn, noted_in, kept_for_later, assign_row, assign_token, number_turn, future_over, future_token, future_idle, future_with, future_turn};

use crate::arithmetic::{arithmetic_row, by_row, by_word_row};
use crate::assignment::{over, used};
use crate::body::body_row;
use crate::equals::{give_meaning, let_equals_row, let_over, let_space_row};
use crate::lists::{list_row, text_taken};
use crate::naming::name_row;
use crate::numbers::number_taken;
use crate::parameters::params_row;
use crate::prefix::prefix_row;
use etx_answers::{Move, Plan, Then, Turned, WordPlan, finished, quiet};
use etx_expand::{
    Fetched, Idle, do_alone, enter, error_deed, expand_token, fetch_behind, follow, insert_if,
    make, make_word, put_both_back,
};
use etx_exprs::Value as Quantity;
use etx_groups::after;
use etx_matter::{Boxed, Token, Tokens};
use etx_state::{
    AssignNumber, AssignScan, AssignText, Entry, Keeper, Key, Meaning, Rest, Scan, Single, State,
    Val,
};
use std::alloc::AllocError;

/// `\aftergroup` notes a token in the innermost group.
#[tactic(auto, unfolding(crate::specs::Turn::noted_in))]
fn noted_in(rest: &mut Rest, token: Token) -> Result<Plan, AllocError>
    ensures rest { OnOk result (rest_of rest.new ≡ noted_in token (rest_of rest.old)) }
    ensures plan { IfOk result (λ plan. plan ≡ quiet used) }
    ensures kept { Keeps rest.old rest.new }
{
    after(rest, token)?;
    Ok(quiet(used()))
}

/// `\afterassignment` keeps a token, in the place of an earlier one.
#[tactic(auto, unfolding(crate::specs::Turn::kept_for_later))]
fn kept_for_later(rest: &mut Rest, token: Token) -> Result<Plan, AllocError>
    ensures rest { OnOk result (rest_of rest.new ≡ kept_for_later token (rest_of rest.old)) }
    ensures plan { IfOk result (λ plan. plan ≡ quiet used) }
    ensures kept { Keeps rest.old rest.new }
{
    rest.set(Key::Single(Single::AfterAssignment), Val::Kept(Some(token)))?;
    Ok(quiet(used()))
}

/// A line for each scan of assignments.
#[tactic(auto, unfolding(crate::specs::Turn::assign_row))]
fn assign_row(
    rest: &mut Rest,
    line: u32,
    scan: AssignScan,
    token: Token,
    meaning: Meaning,
) -> Result<Plan, AllocError>
    ensures rest { OnOk result (rest_of rest.new ≡ (assign_row scan token meaning line (rest_of rest.old)).rest) }
    ensures plan { IfOk result (λ plan. plan ≡ (assign_row scan token meaning line (rest_of rest.old)).plan) }
    ensures kept { Keeps rest.old rest.new }
{
    match scan {
        AssignScan::Prefix(prefixes) => prefix_row(rest, prefixes, token, &meaning),
        AssignScan::Name(naming) => name_row(rest, naming, token),
        AssignScan::Params(definition) => params_row(rest, definition, token, &meaning),
        AssignScan::Body(definition) => body_row(rest, definition, token, &meaning),
        AssignScan::LetEquals { is_global, name } => {
            let_equals_row(rest, is_global, name, token, meaning)
        }
        AssignScan::LetSpace { is_global, name } => let_space_row(rest, is_global, name, meaning),
        AssignScan::LetToken { is_global, name } => let_over(rest, is_global, name, meaning),
        AssignScan::FutureFirst { is_global, name } => {
            Ok(quiet(Move::Hold(Keeper::Future { is_global, name })))
        }
        AssignScan::AfterGroup => noted_in(rest, token),
        AssignScan::AfterAssignment => kept_for_later(rest, token),
        AssignScan::Arithmetic { kind, is_global } => {
            arithmetic_row(rest, kind, is_global, &meaning)
        }
        AssignScan::By {
            kind,
            is_global,
            key,
        } => by_row(rest, line, kind, key, is_global, token, &meaning),
        AssignScan::List {
            key,
            is_global,
            reader,
            is_behind,
        } => list_row(rest, key, is_global, reader, is_behind, token, &meaning),
    }
}

/// A scan of assignments, which was taken off the stack, gets a token. After an `Err` the state is only dropped.
pub fn scan(
    s: &mut State,
    left: u8,
    scan: AssignScan,
    token: Token,
    meaning: Meaning,
) -> Result<Turned, AllocError>
    ensures now { OnOk result (mouth_of s.new ≡ (assign_token left scan token meaning (mouth_of s.old)).now) }
    ensures turned { IfOk result (λ t. t ≡ (assign_token left scan token meaning (mouth_of s.old)).turned) }
{
    let line = s.input.line();
    let plan = assign_row(&mut s.rest, line, scan, token, meaning)?;
    make(s, left, token, plan)
}

/// An assignment takes a number. After an `Err` the state is only dropped.
pub fn number(
    s: &mut State,
    left: u8,
    taker: AssignNumber,
    amount: Quantity,
) -> Result<Turned, AllocError>
    ensures now { OnOk result (mouth_of s.new ≡ (number_turn left taker amount (mouth_of s.old)).now) }
    ensures turned { IfOk result (λ t. t ≡ (number_turn left taker amount (mouth_of s.old)).turned) }
{
    let ended = number_taken(&mut s.rest, taker, amount)?;
    follow(s, left, ended)
}

/// The control sequence gets the meaning of the second token, and both are read again.
fn future_token(
    s: &mut State,
    is_global: bool,
    name: Token,
    first: Token,
    token: Token,
    meaning: Meaning,
) -> Result<Turned, AllocError>
    ensures now { OnOk result (mouth_of s.new ≡ (future_token is_global name first token meaning (mouth_of s.old)).now) }
    ensures turned { IfOk result (λ t. t ≡ Turned.Again) }
{
    give_meaning(&mut s.rest, is_global, name, meaning)?;
    let kept = over(&mut s.rest)?;
    put_both_back(s, first, token)?;
    insert_if(s, kept)?;
    Ok(Turned::Again)
}

/// The first token goes on being kept.
fn keep_on(s: &mut State, is_global: bool, name: Token, first: Token) -> Result<(), AllocError>
    ensures { OnOk result (mouth_of s.new ≡ entered (Entry.Kept first (Keeper.Future is_global name)) (mouth_of s.old)) }
{
    enter(
        s,
        Entry::Kept {
            token: first,
            by: Keeper::Future { is_global, name },
        },
    )
}

fn future_idle(
    s: &mut State,
    is_global: bool,
    name: Token,
    first: Token,
    idle: Idle,
) -> Result<Turned, AllocError>
    ensures now { OnOk result (mouth_of s.new ≡ (future_idle is_global name first idle (mouth_of s.old)).now) }
    ensures turned { IfOk result (λ t. t ≡ (future_idle is_global name first idle (mouth_of s.old)).turned) }
{
    match idle {
        Idle::Expands { token, what } => {
            keep_on(s, is_global, name, first)?;
            expand_token(s, what, token)
        }
        Idle::Over(did) => {
            let turned = do_alone(s, did)?;
            keep_on(s, is_global, name, first)?;
            Ok(turned)
        }
        Idle::Cut(text) => {
            let turned = error_deed(s, text)?;
            keep_on(s, is_global, name, first)?;
            Ok(turned)
        }
    }
}

/// `\futurelet` gets the second of its tokens. After an `Err` the state is only dropped.
#[tactic(auto, unfolding(crate::specs::Turn::future_turn))]
pub fn future(
    s: &mut State,
    is_global: bool,
    name: Token,
    first: Token,
) -> Result<Turned, AllocError>
    ensures now { OnOk result (mouth_of s.new ≡ (future_turn is_global name first (mouth_of s.old)).now) }
    ensures turned { IfOk result (λ t. t ≡ (future_turn is_global name first (mouth_of s.old)).turned) }
{
    match fetch_behind(s, Keeper::Future { is_global, name })? {
        Fetched::Token { token, meaning } => {
            future_token(s, is_global, name, first, token, meaning)
        }
        Fetched::Idle(why) => future_idle(s, is_global, name, first, why),
    }
}

/// An assignment takes a text. After an `Err` the state is only dropped.
pub fn text(
    s: &mut State,
    left: u8,
    taker: AssignText,
    text: Boxed<Tokens>,
) -> Result<Turned, AllocError>
    ensures now { OnOk result (mouth_of s.new ≡ (text_turn left taker text (mouth_of s.old)).now) }
    ensures turned { IfOk result (λ t. t ≡ (text_turn left taker text (mouth_of s.old)).turned) }
{
    let ended = text_taken(&mut s.rest, taker, text)?;
    follow(s, left, ended)
}

/// What becomes of a word that assignments read. Only arithmetic reads one.
#[tactic(auto, unfolding(crate::specs::Turn::word_plan))]
fn word_plan(
    rest: &Rest,
    scan: AssignScan,
    letters: &[Token],
    token: Token,
) -> Result<WordPlan, AllocError>
    ensures { IfOk result (λ plan. plan ≡ word_plan scan letters.now token) }
{
    match scan {
        AssignScan::By {
            kind,
            is_global,
            key,
        } => by_word_row(rest, kind, key, is_global, letters, token),
        scan => Ok(WordPlan::Lost(finished(Then::More(Scan::Assign(scan))))),
    }
}

/// A scan of assignments that reads a word gets a token. After an `Err` the state is only dropped.
pub fn word(
    s: &mut State,
    left: u8,
    scan: AssignScan,
    letters: Boxed<Tokens>,
    token: Token,
) -> Result<Turned, AllocError>
    ensures now { OnOk result (mouth_of s.new ≡ (assign_word_turn left scan letters token (mouth_of s.old)).now) }
    ensures turned { IfOk result (λ t. t ≡ (assign_word_turn left scan letters token (mouth_of s.old)).turned) }
{
    let plan = word_plan(&s.rest, scan, letters.get().as_slice(), token)?;
    make_word(s, left, letters, token, plan)
}
