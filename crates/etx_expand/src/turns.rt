//! What expansion's entries make of a token. Each was taken off the stack.
ghost use Rattle.std.specs.Prelude.{◌≡◌, OnOk, IfOk};
ghost use Rattle.etx_state.specs.Rests.{Keeps, rest_of};
ghost use Rattle.etx_state.specs.Mouths.{mouth_of};
ghost use Rattle.etx_expand.specs.Moves.{entered, put_back, turned_by, error_deed};
ghost use Rattle.etx_expand.specs.Turn.{expansion_row, expansion_token, number_token, text_token, number_word_turn, outer_turn, expansion_number_turn, expansion_text_turn, expanded_turn, kept_idle, kept_with, expand_after_turn, due_turn, say_turn};

use crate::call::call_row;
use crate::converting::{meaning_row, number_given, text_given};
use crate::fetch::{Fetched, Idle, expand_token, fetch_behind};
use crate::moves::{do_alone, enter, error_deed, follow, make, make_word, put_back};
use crate::names::{cs_name_row, string_row};
use crate::texts::text_row;
use etx_answers::{Expandable, Move, Plan, Turned, quiet};
use etx_conditionals::{
    defined_row, first_character_row, first_meaning_row, if_cs_name_row, relation_row,
    second_character_row, second_meaning_row, skip_row, unless_row,
};
use etx_exprs::Value as Quantity;
use etx_lists::Bytes;
use etx_matter::{Audience, Boxed, Deed, GlueOrder, Token, Tokens};
use etx_numbers::{number_row, number_word_row, outer_row};
use etx_state::{
    Entry, ExpansionNumber, ExpansionScan, ExpansionText, Keeper, Meaning, NumberScan, OpenText,
    Outer, Rest, State, Taker, TextFinish,
};
use std::alloc::AllocError;

/// A line for each scan of expansion.
#[tactic(auto, unfolding(crate::specs::Turn::expansion_row))]
fn expansion_row(
    rest: &mut Rest,
    line: u32,
    scan: ExpansionScan,
    token: Token,
    meaning: &Meaning,
) -> Result<Plan, AllocError>
    ensures rest { OnOk result (rest_of rest.new ≡ (expansion_row scan token meaning.now line (rest_of rest.old)).rest) }
    ensures plan { IfOk result (λ p. p ≡ (expansion_row scan token meaning.now line (rest_of rest.old)).plan) }
    ensures kept { Keeps rest.old rest.new }
{
    match scan {
        ExpansionScan::ExpandAfter => Ok(quiet(Move::Hold(Keeper::ExpandAfter))),
        ExpansionScan::NoExpand => Ok(quiet(Move::Unexpanded)),
        ExpansionScan::StringOf => Ok(quiet(string_row(rest, token)?)),
        ExpansionScan::CsName(name) => cs_name_row(rest, name, token, meaning),
        ExpansionScan::Call(call) => call_row(rest, call, token),
        ExpansionScan::MeaningOf => meaning_row(rest, meaning),
        ExpansionScan::Unless => unless_row(rest, line, token, meaning),
        ExpansionScan::FirstCharacter { test, is_cat } => {
            Ok(first_character_row(test, is_cat, token, meaning))
        }
        ExpansionScan::SecondCharacter {
            test,
            is_cat,
            first,
        } => second_character_row(rest, line, test, is_cat, first, token, meaning),
        ExpansionScan::FirstMeaning(test) => first_meaning_row(rest.alloc(), test, meaning),
        ExpansionScan::SecondMeaning { test, first } => {
            second_meaning_row(rest, line, test, first.get(), meaning)
        }
        ExpansionScan::Relation {
            test,
            is_dimension,
            first,
        } => relation_row(rest, test, is_dimension, first, token, meaning),
        ExpansionScan::Defined(test) => defined_row(rest, line, test, meaning),
        ExpansionScan::IfCsName { test, name } => {
            if_cs_name_row(rest, line, test, name, token, meaning)
        }
        ExpansionScan::Skip(skip) => skip_row(rest, line, skip, meaning),
    }
}

/// A scan of expansion, which was taken off the stack, gets a token. After an `Err` the state is only dropped.
pub fn take_expansion(
    s: &mut State,
    left: u8,
    scan: ExpansionScan,
    token: Token,
    meaning: &Meaning,
) -> Result<Turned, AllocError>
    ensures now { OnOk result (mouth_of s.new ≡ (expansion_token left scan token meaning.now (mouth_of s.old)).now) }
    ensures turned { IfOk result (λ t. t ≡ (expansion_token left scan token meaning.now (mouth_of s.old)).turned) }
{
    let line = s.input.line();
    let plan = expansion_row(&mut s.rest, line, scan, token, meaning)?;
    make(s, left, token, plan)
}

/// A scan of a number, which was taken off the stack, gets a token. After an `Err` the state is only dropped.
pub fn take_number(
    s: &mut State,
    left: u8,
    scan: NumberScan,
    taker: Boxed<Taker>,
    token: Token,
    meaning: &Meaning,
) -> Result<Turned, AllocError>
    ensures now { OnOk result (mouth_of s.new ≡ (number_token left scan taker token meaning.now (mouth_of s.old)).now) }
    ensures turned { IfOk result (λ t. t ≡ (number_token left scan taker token meaning.now (mouth_of s.old)).turned) }
{
    let line = s.input.line();
    let plan = number_row(&s.rest, line, scan, taker, token, meaning)?;
    make(s, left, token, plan)
}

/// A scan of a text, which was taken off the stack, gets a token. After an `Err` the state is only dropped.
pub fn take_text(
    s: &mut State,
    left: u8,
    text: Boxed<OpenText>,
    finish: TextFinish,
    token: Token,
    meaning: &Meaning,
) -> Result<Turned, AllocError>
    ensures now { OnOk result (mouth_of s.new ≡ (text_token left text finish token meaning.now (mouth_of s.old)).now) }
    ensures turned { IfOk result (λ t. t ≡ (text_token left text finish token meaning.now (mouth_of s.old)).turned) }
{
    let plan = text_row(s.alloc(), text, finish, token, meaning)?;
    make(s, left, token, plan)
}

/// Two tokens are read again, `first` before `second`. After an `Err` the state is only dropped.
pub fn put_both_back(s: &mut State, first: Token, second: Token) -> Result<(), AllocError>
    ensures { OnOk result (mouth_of s.new ≡ put_back first (put_back second (mouth_of s.old))) }
{
    put_back(s, second)?;
    put_back(s, first)
}

fn expand_under(
    s: &mut State,
    kept: Token,
    what: Expandable,
    token: Token,
) -> Result<Turned, AllocError>
    ensures now { OnOk result (mouth_of s.new ≡ (expanded_turn what token (entered (Entry.Due kept) (mouth_of s.old))).now) }
    ensures turned { IfOk result (λ t. t ≡ (expanded_turn what token (entered (Entry.Due kept) (mouth_of s.old))).turned) }
{
    enter(s, Entry::Due(kept))?;
    expand_token(s, what, token)
}

/// A token goes on being kept.
fn keep_on(s: &mut State, kept: Token) -> Result<(), AllocError>
    ensures { OnOk result (mouth_of s.new ≡ entered (Entry.Kept kept Keeper.ExpandAfter) (mouth_of s.old)) }
{
    enter(
        s,
        Entry::Kept {
            token: kept,
            by: Keeper::ExpandAfter,
        },
    )
}

fn kept_idle(s: &mut State, kept: Token, idle: Idle) -> Result<Turned, AllocError>
    ensures now { OnOk result (mouth_of s.new ≡ (kept_idle kept idle (mouth_of s.old)).now) }
    ensures turned { IfOk result (λ t. t ≡ (kept_idle kept idle (mouth_of s.old)).turned) }
{
    match idle {
        Idle::Expands { token, what } => expand_under(s, kept, what, token),
        Idle::Over(did) => {
            let turned = do_alone(s, did)?;
            keep_on(s, kept)?;
            Ok(turned)
        }
        Idle::Cut(text) => {
            let turned = error_deed(s, text)?;
            keep_on(s, kept)?;
            Ok(turned)
        }
    }
}

/// `\expandafter` gets the token behind the one that it keeps. After an `Err` the state is only dropped.
#[tactic(auto, unfolding(crate::specs::Turn::expand_after_turn))]
pub fn turn_expand_after(s: &mut State, kept: Token) -> Result<Turned, AllocError>
    ensures now { OnOk result (mouth_of s.new ≡ (expand_after_turn kept (mouth_of s.old)).now) }
    ensures turned { IfOk result (λ t. t ≡ (expand_after_turn kept (mouth_of s.old)).turned) }
{
    match fetch_behind(s, Keeper::ExpandAfter)? {
        Fetched::Token { token, .. } => {
            put_both_back(s, kept, token)?;
            Ok(Turned::Again)
        }
        Fetched::Idle(why) => kept_idle(s, kept, why),
    }
}

/// A token that is due is put back. After an `Err` the state is only dropped.
pub fn turn_due(s: &mut State, token: Token) -> Result<Turned, AllocError>
    ensures now { OnOk result (mouth_of s.new ≡ (due_turn token (mouth_of s.old)).now) }
    ensures turned { IfOk result (λ t. t ≡ (due_turn token (mouth_of s.old)).turned) }
{
    put_back(s, token)?;
    Ok(Turned::Again)
}

/// A text is said. After an `Err` the state is only dropped.
pub fn turn_say(s: &mut State, text: Bytes) -> Result<Turned, AllocError>
    ensures now { OnOk result (mouth_of s.new ≡ (say_turn text (mouth_of s.old)).now) }
    ensures turned { IfOk result (λ t. t ≡ (say_turn text (mouth_of s.old)).turned) }
{
    let deed = Deed::Text {
        bytes: text,
        audience: Audience::LogAndTerminal,
    };
    Ok(Turned::Deed(Boxed::new(s.alloc(), deed)?))
}

/// A number that was read for an outer scan. After an `Err` the state is only dropped.
pub fn turn_outer(
    s: &mut State,
    left: u8,
    outer: Outer,
    taker: Boxed<Taker>,
    amount: Quantity,
    order: GlueOrder,
) -> Result<Turned, AllocError>
    ensures now { OnOk result (mouth_of s.new ≡ (outer_turn left outer taker amount order (mouth_of s.old)).now) }
    ensures turned { IfOk result (λ t. t ≡ (outer_turn left outer taker amount order (mouth_of s.old)).turned) }
{
    let ended = outer_row(&s.rest, outer, taker, amount, order)?;
    follow(s, left, ended)
}

/// Expansion takes a number. After an `Err` the state is only dropped.
pub fn turn_number(
    s: &mut State,
    left: u8,
    finish: ExpansionNumber,
    amount: Quantity,
) -> Result<Turned, AllocError>
    ensures now { OnOk result (mouth_of s.new ≡ (expansion_number_turn left finish amount (mouth_of s.old)).now) }
    ensures turned { IfOk result (λ t. t ≡ (expansion_number_turn left finish amount (mouth_of s.old)).turned) }
{
    let line = s.input.line();
    let ended = number_given(&mut s.rest, line, finish, amount)?;
    follow(s, left, ended)
}

/// Expansion takes a text. After an `Err` the state is only dropped.
pub fn turn_text(
    s: &mut State,
    left: u8,
    finish: ExpansionText,
    text: Boxed<Tokens>,
) -> Result<Turned, AllocError>
    ensures now { OnOk result (mouth_of s.new ≡ (expansion_text_turn left finish text (mouth_of s.old)).now) }
    ensures turned { IfOk result (λ t. t ≡ (expansion_text_turn left finish text (mouth_of s.old)).turned) }
{
    let ended = text_given(&s.rest, finish, text)?;
    follow(s, left, ended)
}

/// A number that reads a word gets a token. After an `Err` the state is only dropped.
pub fn take_number_word(
    s: &mut State,
    left: u8,
    scan: NumberScan,
    taker: Boxed<Taker>,
    letters: Boxed<Tokens>,
    token: Token,
) -> Result<Turned, AllocError>
    ensures now { OnOk result (mouth_of s.new ≡ (number_word_turn left scan taker letters token (mouth_of s.old)).now) }
    ensures turned { IfOk result (λ t. t ≡ (number_word_turn left scan taker letters token (mouth_of s.old)).turned) }
{
    let plan = number_word_row(&mut s.rest, scan, taker, letters.get().as_slice(), token)?;
    make_word(s, left, letters, token, plan)
}
