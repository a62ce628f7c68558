//! What an expandable token begins.
ghost use Rattle.std.specs.Prelude.{◌≡◌, [], false, IfOk, OnOk};
ghost use Rattle.etx_state.specs.Rests.{Keeps, rest_of};
ghost use Rattle.etx_macros.specs.Feeding.{started};
ghost use Rattle.etx_expand.specs.Expanding.{scan_begun, is_plain, macro_begun, undefined, number_begun, text_begun, expansion_begun};

use crate::converting::text_begun;
use crate::texts::text_for;
use etx_answers::{Expandable, Insert, Push, Start, nothing, start_ends, start_fails, starting};
use etx_conditionals::{fi_or_else_begun, if_begun, number_for};
use etx_lists::Bytes;
use etx_macros::{Matcher, Pattern};
use etx_matter::{Boxed, End, Token};
use etx_numbers::INTEGER;
use etx_state::{
    Call, ExpansionNumber, ExpansionScan, ExpansionText, Macro, Rest, Scan, TextFinish, Want,
};
use std::alloc::{AllocError, Global};

fn begin_scan(scan: ExpansionScan) -> Start
    ensures { result ≡ scan_begun scan }
{
    starting(Push::Begin(Scan::Expansion(scan)))
}

/// Whether the call of a macro with this parameter text is its name alone.
pub fn is_plain(pattern: &Pattern) -> bool
    ensures { result ≡ is_plain pattern.now }
{
    match pattern.parts() {
        [part] => part.is_empty(),
        _ => false,
    }
}

/// The call of a macro that has parameters, or a text before them.
fn call_of(alloc: Global, name: Token, definition: Macro) -> Result<Call, AllocError>
    ensures { IfOk result (λ call. call ≡ record { name = name; definition = definition; matcher = started definition.parts definition.is_long; is_cut = false }) }
{
    let matcher = Matcher::new(alloc, definition.pattern(), definition.is_long())?;
    Ok(Call {
        name,
        definition,
        matcher,
        is_cut: false,
    })
}

/// A macro whose call is its name stands for its body. Of another one the call is read.
fn begin_macro(alloc: Global, name: Token, definition: Macro) -> Result<Start, AllocError>
    ensures { IfOk result (λ start. start ≡ macro_begun name definition) }
{
    if is_plain(definition.pattern()) {
        let body = definition.body().share()?;
        return Ok(starting(Push::Insert(Insert::Text(body))));
    }
    let call = call_of(alloc, name, definition)?;
    let call = Boxed::new(alloc, call)?;
    Ok(begin_scan(ExpansionScan::Call(call)))
}

fn begin_name(alloc: Global) -> Result<Start, AllocError>
    ensures { IfOk result (λ start. start ≡ scan_begun (ExpansionScan.CsName [])) }
{
    let name = Boxed::new(alloc, Bytes::new(alloc))?;
    Ok(begin_scan(ExpansionScan::CsName(name)))
}

/// A number that expansion takes.
fn begin_number(alloc: Global, want: Want, finish: ExpansionNumber) -> Result<Start, AllocError>
    ensures { IfOk result (λ start. start ≡ number_begun want finish) }
{
    Ok(starting(Push::Begin(number_for(alloc, want, finish)?)))
}

/// A text that expansion takes, whose tokens aren't expanded.
fn begin_text(alloc: Global, reader: Token, finish: ExpansionText) -> Result<Start, AllocError>
    ensures { IfOk result (λ start. start ≡ text_begun reader finish) }
{
    let text = Boxed::new(alloc, text_for(alloc, reader, false))?;
    Ok(starting(Push::Begin(Scan::Text {
        text,
        finish: TextFinish::Expansion(finish),
    })))
}

fn undefined(alloc: Global) -> Result<Start, AllocError>
    ensures { IfOk result (λ start. start ≡ undefined) }
{
    start_fails(alloc, b"Undefined control sequence", nothing())
}

/// What an expandable token begins.
#[tactic(auto, unfolding(crate::specs::Expanding::expansion_begun))]
pub fn expansion_begun(
    rest: &mut Rest,
    line: u32,
    what: Expandable,
    token: Token,
) -> Result<Start, AllocError>
    ensures rest { OnOk result (rest_of rest.new ≡ (expansion_begun what token line (rest_of rest.old)).rest) }
    ensures start { IfOk result (λ start. start ≡ (expansion_begun what token line (rest_of rest.old)).start) }
    ensures kept { Keeps rest.old rest.new }
{
    let alloc = rest.alloc();
    match what {
        Expandable::Undefined => undefined(alloc),
        Expandable::ExpandAfter => Ok(begin_scan(ExpansionScan::ExpandAfter)),
        Expandable::NoExpand => Ok(begin_scan(ExpansionScan::NoExpand)),
        Expandable::CsName => begin_name(alloc),
        Expandable::Unless => Ok(begin_scan(ExpansionScan::Unless)),
        Expandable::StringOf => Ok(begin_scan(ExpansionScan::StringOf)),
        Expandable::MeaningOf => Ok(begin_scan(ExpansionScan::MeaningOf)),
        Expandable::Number => begin_number(alloc, INTEGER, ExpansionNumber::Number),
        Expandable::RomanNumeral => begin_number(alloc, INTEGER, ExpansionNumber::RomanNumeral),
        Expandable::JobName => text_begun(alloc, rest.job()),
        Expandable::Revision => text_begun(alloc, b".6"),
        Expandable::The { is_kept } => {
            begin_number(alloc, Want::Whole, ExpansionNumber::The { is_kept })
        }
        Expandable::Unexpanded { is_kept } => {
            begin_text(alloc, token, ExpansionText::Unexpanded { is_kept })
        }
        Expandable::Detokenize => begin_text(alloc, token, ExpansionText::Detokenize),
        Expandable::If(kind) => if_begun(rest, line, kind, false),
        Expandable::FiOrElse(kind) => fi_or_else_begun(rest, line, kind, token),
        Expandable::Call(definition) => begin_macro(alloc, token, definition),
        Expandable::Unbuilt => Ok(start_ends(End::Unbuilt)),
    }
}
