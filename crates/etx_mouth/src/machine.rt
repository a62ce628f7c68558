//! One turn of the machine: what stands on top of the stack, or main control, gets a token or a value, by owner.
ghost use Rattle.std.specs.Prelude.{◌≡◌, OnOk, IfOk};
ghost use Rattle.etx_state.specs.Mouths.{mouth_of};
ghost use Rattle.etx_mouth.specs.Machine.{no_word, word_kept, word_idle, word_token, word_entry_turn, amount_turn, command_turn, main_idle, main_with, main_turn, behind_spaces, control_token, control_text_turn, scan_token, scan_with, scan_turn, value_turn, kept_turn, entry_turn, stack_turn, fitting, machine_turn};

use crate::commands::{command_row, text_taken};
use etx_answers::{Move, Then, Turned, WordPlan, finished, has_category, quiet};
use etx_assign::{future, number, scan, text, word};
use etx_expand::{
    Fetched, Idle, begin, do_alone, enter, error_deed, expand_token, fetch_command, fetch_for,
    follow, go_idle, make, make_word, take_expansion, take_number, take_number_word, take_text,
    turn_due, turn_expand_after, turn_number, turn_outer, turn_say, turn_text,
};
use etx_exprs::Value as Quantity;
use etx_matter::{Boxed, End, GlueOrder, Limit, Token, Tokens};
use etx_state::{
    ControlScan, ControlText, Entry, Keeper, Meaning, NumberFinish, Scan, State, Taker, TextFinish,
    Value,
};
use std::alloc::AllocError;

/// The most entries of the stack, and the most levels of the input.
pub(crate) const MOST: usize = 10_000;

/// A token is a command.
fn turn_command(s: &mut State, token: Token, meaning: Meaning) -> Result<Turned, AllocError>
    ensures now { OnOk result (mouth_of s.new ≡ (command_turn token meaning (mouth_of s.old)).now) }
    ensures turned { IfOk result (λ t. t ≡ (command_turn token meaning (mouth_of s.old)).turned) }
{
    let line = s.input.line();
    let start = command_row(&mut s.rest, line, token, meaning)?;
    begin(s, token, start)
}

fn main_idle(s: &mut State, idle: Idle) -> Result<Turned, AllocError>
    ensures now { OnOk result (mouth_of s.new ≡ (main_idle idle (mouth_of s.old)).now) }
    ensures turned { IfOk result (λ t. t ≡ (main_idle idle (mouth_of s.old)).turned) }
{
    match idle {
        Idle::Expands { token, what } => expand_token(s, what, token),
        Idle::Over(did) => do_alone(s, did),
        Idle::Cut(text) => error_deed(s, text),
    }
}

/// Main control gets a token, where nothing stands on the stack.
#[tactic(auto, unfolding(crate::specs::Machine::main_turn))]
fn turn_main(s: &mut State) -> Result<Turned, AllocError>
    ensures now { OnOk result (mouth_of s.new ≡ (main_turn (mouth_of s.old)).now) }
    ensures turned { IfOk result (λ t. t ≡ (main_turn (mouth_of s.old)).turned) }
{
    match fetch_command(s)? {
        Fetched::Token { token, meaning } => turn_command(s, token, meaning),
        Fetched::Idle(why) => main_idle(s, why),
    }
}

/// `\ignorespaces`: the first token that is no space is a command.
fn behind_spaces(
    s: &mut State,
    left: u8,
    token: Token,
    meaning: Meaning,
) -> Result<Turned, AllocError>
    ensures now { OnOk result (mouth_of s.new ≡ (behind_spaces left token meaning (mouth_of s.old)).now) }
    ensures turned { IfOk result (λ t. t ≡ (behind_spaces left token meaning (mouth_of s.old)).turned) }
{
    if has_category(10, &meaning) {
        let again = Scan::Control(ControlScan::IgnoreSpaces);
        make(s, left, token, quiet(Move::Stay(again)))
    } else {
        turn_command(s, token, meaning)
    }
}

fn take_control(
    s: &mut State,
    left: u8,
    scan: ControlScan,
    token: Token,
    meaning: Meaning,
) -> Result<Turned, AllocError>
    ensures now { OnOk result (mouth_of s.new ≡ (control_token left scan token meaning (mouth_of s.old)).now) }
    ensures turned { IfOk result (λ t. t ≡ (control_token left scan token meaning (mouth_of s.old)).turned) }
{
    match scan {
        ControlScan::IgnoreSpaces => behind_spaces(s, left, token, meaning),
    }
}

/// Main control takes a text.
fn turn_control_text(
    s: &mut State,
    left: u8,
    taker: ControlText,
    text: &Tokens,
) -> Result<Turned, AllocError>
    ensures now { OnOk result (mouth_of s.new ≡ (control_text_turn left taker text.now (mouth_of s.old)).now) }
    ensures turned { IfOk result (λ t. t ≡ (control_text_turn left taker text.now (mouth_of s.old)).turned) }
{
    let ended = text_taken(&s.rest, taker, text)?;
    follow(s, left, ended)
}

/// A scan gets a token that isn't expanded: a line for each owner.
#[inline(always)]
fn take_token(
    s: &mut State,
    left: u8,
    waits: Scan,
    token: Token,
    meaning: Meaning,
) -> Result<Turned, AllocError>
    ensures now { OnOk result (mouth_of s.new ≡ (scan_token left waits token meaning (mouth_of s.old)).now) }
    ensures turned { IfOk result (λ t. t ≡ (scan_token left waits token meaning (mouth_of s.old)).turned) }
{
    match waits {
        Scan::Expansion(waits) => take_expansion(s, left, waits, token, &meaning),
        Scan::Number { scan: waits, taker } => {
            take_number(s, left, waits, taker, token, &meaning)
        }
        Scan::Text { text, finish } => take_text(s, left, text, finish, token, &meaning),
        Scan::Assign(waits) => scan(s, left, waits, token, meaning),
        Scan::Control(waits) => take_control(s, left, waits, token, meaning),
    }
}

#[inline(always)]
fn take_fetched(
    s: &mut State,
    left: u8,
    waits: Scan,
    fetched: Fetched,
) -> Result<Turned, AllocError>
    ensures now { OnOk result (mouth_of s.new ≡ (scan_with left waits fetched (mouth_of s.old)).now) }
    ensures turned { IfOk result (λ t. t ≡ (scan_with left waits fetched (mouth_of s.old)).turned) }
{
    match fetched {
        Fetched::Token { token, meaning } => take_token(s, left, waits, token, meaning),
        Fetched::Idle(why) => go_idle(s, left, waits, why),
    }
}

/// A scan waits for a token.
#[tactic(auto, unfolding(crate::specs::Machine::scan_turn))]
#[inline(always)]
fn turn_scan(s: &mut State, left: u8, waits: Scan) -> Result<Turned, AllocError>
    ensures now { OnOk result (mouth_of s.new ≡ (scan_turn left waits (mouth_of s.old)).now) }
    ensures turned { IfOk result (λ t. t ≡ (scan_turn left waits (mouth_of s.old)).turned) }
{
    let fetched = fetch_for(s, &waits)?;
    take_fetched(s, left, waits, fetched)
}

/// A number goes to the outer scan that waits for it, or else to its finisher: a line for each owner.
#[tactic(auto, unfolding(crate::specs::Machine::amount_turn))]
#[inline(always)]
fn turn_amount(
    s: &mut State,
    left: u8,
    amount: Quantity,
    order: GlueOrder,
    mut taker: Boxed<Taker>,
) -> Result<Turned, AllocError>
    ensures now { OnOk result (mouth_of s.new ≡ (amount_turn left amount order taker (mouth_of s.old)).now) }
    ensures turned { IfOk result (λ t. t ≡ (amount_turn left amount order taker (mouth_of s.old)).turned) }
{
    match taker.get_mut().outers.pop() {
        Some(outer) => turn_outer(s, left, outer, taker, amount, order),
        None => match taker.get().finish {
            NumberFinish::Expansion(finish) => turn_number(s, left, finish, amount),
            NumberFinish::Assign(finish) => number(s, left, finish, amount),
        },
    }
}

/// A line for each owner of values.
#[inline(always)]
fn turn_value(s: &mut State, left: u8, value: Value) -> Result<Turned, AllocError>
    ensures now { OnOk result (mouth_of s.new ≡ (value_turn left value (mouth_of s.old)).now) }
    ensures turned { IfOk result (λ t. t ≡ (value_turn left value (mouth_of s.old)).turned) }
{
    match value {
        Value::Number {
            amount,
            order,
            taker,
        } => turn_amount(s, left, amount, order, taker),
        Value::Text {
            text: tokens,
            finish,
        } => match finish {
            TextFinish::Expansion(taker) => turn_text(s, left, taker, tokens),
            TextFinish::Assign(taker) => text(s, left, taker, tokens),
            TextFinish::Control(taker) => turn_control_text(s, left, taker, tokens.get()),
        },
    }
}

fn turn_kept(s: &mut State, kept: Token, by: Keeper) -> Result<Turned, AllocError>
    ensures now { OnOk result (mouth_of s.new ≡ (kept_turn kept by (mouth_of s.old)).now) }
    ensures turned { IfOk result (λ t. t ≡ (kept_turn kept by (mouth_of s.old)).turned) }
{
    match by {
        Keeper::ExpandAfter => turn_expand_after(s, kept),
        Keeper::Future { is_global, name } => future(s, is_global, name, kept),
    }
}

/// A scan that reads a word stands on the stack again with its letters.
fn keep_word(s: &mut State, left: u8, letters: Boxed<Tokens>, scan: Scan) -> Result<(), AllocError>
    ensures { OnOk result (mouth_of s.new ≡ word_kept left letters scan (mouth_of s.old)) }
{
    enter(
        s,
        Entry::Word {
            left,
            letters,
            scan,
        },
    )
}

/// No token comes to a word.
fn word_idle(
    s: &mut State,
    left: u8,
    letters: Boxed<Tokens>,
    waits: Scan,
    idle: Idle,
) -> Result<Turned, AllocError>
    ensures now { OnOk result (mouth_of s.new ≡ (word_idle left letters waits idle (mouth_of s.old)).now) }
    ensures turned { IfOk result (λ t. t ≡ (word_idle left letters waits idle (mouth_of s.old)).turned) }
{
    match idle {
        Idle::Expands { token, what } => {
            keep_word(s, left, letters, waits)?;
            expand_token(s, what, token)
        }
        Idle::Over(did) => {
            let turned = do_alone(s, did)?;
            keep_word(s, left, letters, waits)?;
            Ok(turned)
        }
        Idle::Cut(text) => {
            let turned = error_deed(s, text)?;
            keep_word(s, left, letters, waits)?;
            Ok(turned)
        }
    }
}

/// A word gets a token: a line for each owner.
fn word_token(
    s: &mut State,
    left: u8,
    letters: Boxed<Tokens>,
    waits: Scan,
    token: Token,
) -> Result<Turned, AllocError>
    ensures now { OnOk result (mouth_of s.new ≡ (word_token left letters waits token (mouth_of s.old)).now) }
    ensures turned { IfOk result (λ t. t ≡ (word_token left letters waits token (mouth_of s.old)).turned) }
{
    match waits {
        Scan::Number { scan: waits, taker } => {
            take_number_word(s, left, waits, taker, letters, token)
        }
        Scan::Assign(waits) => word(s, left, waits, letters, token),
        Scan::Expansion(waits) => no_word(s, left, letters, Scan::Expansion(waits), token),
        Scan::Text { text, finish } => {
            no_word(s, left, letters, Scan::Text { text, finish }, token)
        }
        Scan::Control(waits) => no_word(s, left, letters, Scan::Control(waits), token),
    }
}

/// A scan that reads no words goes on behind the letters. (No letters are kept for it.)
fn no_word(
    s: &mut State,
    left: u8,
    letters: Boxed<Tokens>,
    waits: Scan,
    token: Token,
) -> Result<Turned, AllocError>
    ensures now { OnOk result (mouth_of s.new ≡ (no_word left letters waits token (mouth_of s.old)).now) }
    ensures turned { IfOk result (λ t. t ≡ (no_word left letters waits token (mouth_of s.old)).turned) }
{
    let plan = WordPlan::Lost(finished(Then::More(waits)));
    make_word(s, left, letters, token, plan)
}

/// A scan that reads a word waits for a token.
#[tactic(auto, unfolding(crate::specs::Machine::word_entry_turn))]
fn turn_word(
    s: &mut State,
    left: u8,
    letters: Boxed<Tokens>,
    waits: Scan,
) -> Result<Turned, AllocError>
    ensures now { OnOk result (mouth_of s.new ≡ (word_entry_turn left letters waits (mouth_of s.old)).now) }
    ensures turned { IfOk result (λ t. t ≡ (word_entry_turn left letters waits (mouth_of s.old)).turned) }
{
    match fetch_for(s, &waits)? {
        Fetched::Token { token, .. } => word_token(s, left, letters, waits, token),
        Fetched::Idle(why) => word_idle(s, left, letters, waits, why),
    }
}

#[inline(always)]
fn turn_entry(s: &mut State, entry: Entry) -> Result<Turned, AllocError>
    ensures now { OnOk result (mouth_of s.new ≡ (entry_turn entry (mouth_of s.old)).now) }
    ensures turned { IfOk result (λ t. t ≡ (entry_turn entry (mouth_of s.old)).turned) }
{
    match entry {
        Entry::Scan { left, scan: waits } => turn_scan(s, left, waits),
        Entry::Given { left, value } => turn_value(s, left, value),
        Entry::Kept { token, by } => turn_kept(s, token, by),
        Entry::Due(token) => turn_due(s, token),
        Entry::Say(text) => turn_say(s, text),
        Entry::Word {
            left,
            letters,
            scan: waits,
        } => turn_word(s, left, letters, waits),
    }
}

/// What stands on top is taken off the stack, and gets what it waits for.
#[tactic(auto, unfolding(crate::specs::Machine::stack_turn))]
#[inline(always)]
fn turn_stack(s: &mut State) -> Result<Turned, AllocError>
    ensures now { OnOk result (mouth_of s.new ≡ (stack_turn (mouth_of s.old)).now) }
    ensures turned { IfOk result (λ t. t ≡ (stack_turn (mouth_of s.old)).turned) }
{
    match s.entries.pop() {
        None => turn_main(s),
        Some(entry) => turn_entry(s, entry),
    }
}

/// A turn that passes a limit ends the job.
#[inline(always)]
fn fit(s: &State, turned: Turned) -> Turned
    ensures { result ≡ fitting (mouth_of s.now) turned }
{
    if s.entries.len() > MOST {
        Turned::End(End::Capacity(Limit::Scans))
    } else if s.input.depth() > MOST {
        Turned::End(End::Capacity(Limit::InputLevels))
    } else {
        turned
    }
}

/// Makes one turn. What the state was before it is forgotten, since nothing goes back to it. After an `Err` the state is
/// only dropped.
#[tactic(auto, unfolding(crate::specs::Machine::machine_turn))]
pub fn turn(s: &mut State) -> Result<Turned, AllocError>
    ensures now { OnOk result (mouth_of s.new ≡ (machine_turn (mouth_of s.old)).now) }
    ensures turned { IfOk result (λ t. t ≡ (machine_turn (mouth_of s.old)).turned) }
{
    let turned = turn_stack(s)?;
    s.forget();
    Ok(fit(s, turned))
}
