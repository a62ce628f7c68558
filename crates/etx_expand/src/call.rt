//! Macro calls: what becomes of a token where the arguments of a macro are matched.
ghost use Rattle.std.specs.Prelude.{◌≡◌, ◌++◌, ◌∷◌, [], true, false, OnOk, IfOk};
ghost use Rattle.etx_macros.specs.Feeding.{fed_of, is_copied, unmatched};
ghost use Rattle.etx_macros.specs.Substituting.{substituted};
ghost use Rattle.etx_state.specs.Rests.{rest_of};
ghost use Rattle.etx_answers.specs.Answers.{quiet, insert_of};
ghost use Rattle.etx_expand.specs.Calls.{call_scan, naming, extra_brace, paragraph_ended, does_not_match, refused, goes_on, is_over, fed_by, call_row, expansion_cut, cut_off};

use etx_answers::{
    Insert, Move, Plan, fails, fails_back, fails_under, insert_tokens, push_name, quiet, used,
};
use etx_lists::Bytes;
use etx_macros::{Fed, MatchFault, substitute};
use etx_matter::{Boxed, PAR, Token};
use etx_state::{Call, ExpansionScan, Rest, Scan};
use std::alloc::AllocError;

/// The scan of a call.
fn scan_of(call: Boxed<Call>) -> Scan
    ensures { result ≡ call_scan call }
{
    Scan::Expansion(ExpansionScan::Call(call))
}

/// The text of an error that names the macro.
fn name_call(rest: &Rest, before: &[u8], name: Token, behind: &[u8]) -> Result<Bytes, AllocError>
    ensures { IfOk result (λ text. text ≡ naming before.now name behind.now (rest_of rest.now)) }
{
    let mut text = Bytes::from_slice(rest.alloc(), before)?;
    push_name(rest, &mut text, name)?;
    text.extend_from_slice(behind)?;
    Ok(text)
}

/// A right brace that no left brace of the argument opens: `\par` is read before it, and the call goes on as that of a
/// macro that isn't long.
fn extra_brace(rest: &Rest, call: Boxed<Call>) -> Result<Plan, AllocError>
    ensures { IfOk result (λ p. p ≡ extra_brace call (rest_of rest.now)) }
{
    let text = name_call(rest, b"Argument of ", call.get().name, b" has an extra }")?;
    let scan = scan_of(broken_off(call));
    fails_under(
        rest.alloc(),
        Token::Name(PAR),
        text.as_slice(),
        Move::Stay(scan),
    )
}

/// The call goes on behind an extra right brace.
fn broken_off(mut call: Boxed<Call>) -> Boxed<Call>
    ensures { result ≡ record call { matcher = unmatched call.matcher; is_cut = false } }
{
    let held = call.get_mut();
    held.matcher.break_off();
    held.is_cut = false;
    call
}

/// The end of a paragraph ends the call, and is read again. A call that was cut off it ends without an error, and is gone.
fn paragraph_ended(rest: &Rest, is_cut: bool, name: Token) -> Result<Plan, AllocError>
    ensures { IfOk result (λ p. p ≡ paragraph_ended is_cut name (rest_of rest.now)) }
{
    if is_cut {
        return Ok(quiet(used()));
    }
    let text = name_call(rest, b"Paragraph ended before ", name, b" was complete")?;
    fails_back(rest.alloc(), text.as_slice(), used())
}

fn does_not_match(rest: &Rest, name: Token) -> Result<Plan, AllocError>
    ensures { IfOk result (λ p. p ≡ does_not_match name (rest_of rest.now)) }
{
    let text = name_call(rest, b"Use of ", name, b" doesn't match its definition")?;
    fails(rest.alloc(), text.as_slice(), used())
}

/// Why no call goes on with a token.
fn refused(rest: &Rest, fault: MatchFault, call: Boxed<Call>) -> Result<Plan, AllocError>
    ensures { IfOk result (λ p. p ≡ refused fault call (rest_of rest.now)) }
{
    match fault {
        MatchFault::DoesNotMatch => does_not_match(rest, call.get().name),
        MatchFault::ParagraphEnded => paragraph_ended(rest, call.get().is_cut, call.get().name),
        MatchFault::ExtraBrace => extra_brace(rest, call),
    }
}

/// A token that is copied is a step more.
fn goes_on(is_copied: bool, scan: Scan) -> Move
    ensures { result ≡ goes_on is_copied scan }
{
    if is_copied {
        Move::Copied(scan)
    } else {
        Move::Stay(scan)
    }
}

fn is_over(is_copied: bool, what: Insert) -> Move
    ensures { result ≡ is_over is_copied what }
{
    if is_copied {
        Move::CopiedLast(what)
    } else {
        Move::Used(what)
    }
}

/// The call is complete: it stands for the body with its arguments.
fn end_call(rest: &Rest, call: &Call, is_copied: bool) -> Result<Plan, AllocError>
    ensures { IfOk result (λ p. p ≡ quiet (is_over is_copied (insert_of (substituted call.now.definition.body call.now.matcher.args)))) }
{
    let alloc = rest.alloc();
    let text = substitute(
        alloc,
        call.definition.body().as_slice(),
        call.matcher.args(),
    )?;
    Ok(quiet(is_over(is_copied, insert_tokens(alloc, text)?)))
}

/// The call of a macro gets a token.
#[tactic(auto, unfolding(crate::specs::Calls::call_row))]
pub(crate) fn call_row(rest: &Rest, mut call: Boxed<Call>, token: Token) -> Result<Plan, AllocError>
    ensures { IfOk result (λ p. p ≡ call_row call token (rest_of rest.now)) }
{
    if call.get().matcher.is_extra(token) {
        return extra_brace(rest, call);
    }
    let is_copied = call.get().matcher.is_copied(token);
    match call.get_mut().matcher.feed(token)? {
        Fed::More => Ok(quiet(goes_on(is_copied, scan_of(call)))),
        Fed::Done => end_call(rest, call.get(), is_copied),
        Fed::Fault(fault) => refused(rest, fault, call),
    }
}

/// A call that is cut off goes on as that of a macro that isn't long.
fn cut_call(mut call: Boxed<Call>) -> ExpansionScan
    ensures { result ≡ expansion_cut (ExpansionScan.Call call) }
{
    let held = call.get_mut();
    held.matcher.shorten();
    held.is_cut = true;
    ExpansionScan::Call(call)
}

fn cut_expansion(scan: ExpansionScan) -> ExpansionScan
    ensures { result ≡ expansion_cut scan }
{
    match scan {
        ExpansionScan::Call(call) => cut_call(call),
        other => other,
    }
}

/// What is cut off goes on so: a call as that of a macro that isn't long, and other scans as they were.
#[tactic(auto, unfolding(crate::specs::Calls::cut_off))]
pub(crate) fn cut_off(scan: Scan) -> Scan
    ensures { result ≡ cut_off scan }
{
    match scan {
        Scan::Expansion(scan) => Scan::Expansion(cut_expansion(scan)),
        Scan::Number { scan, taker } => Scan::Number { scan, taker },
        Scan::Text { text, finish } => Scan::Text { text, finish },
        Scan::Assign(scan) => Scan::Assign(scan),
        Scan::Control(scan) => Scan::Control(scan),
    }
}
