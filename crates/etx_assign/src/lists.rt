//! Lists of tokens as values.
ghost use Rattle.std.specs.Prelude.{◌≡◌, OnOk, IfOk};
ghost use Rattle.etx_state.specs.Rests.{rest_of, Keeps};
ghost use Rattle.etx_assign.specs.Lists.{source_primitive, source_kind, source_register, list_for, is_output, is_output_parameter, source_of, with_list, list_begun, list_row, list_text, list_given, in_braces};
ghost use Rattle.etx_assign.specs.Assignments.{over, scan_over};
ghost use Rattle.etx_state.specs.Reading.{tokens_at};

use crate::assignment::{scan_over, set_fitting, value_over};
use crate::begun::number_scan;
use etx_answers::{Ended, Move, Plan, fails_back, has_category, is_relax, quiet};
use etx_expand::text_for;
use etx_matter::{Boxed, SharedTokens, Token, Tokens};
use etx_numbers::{INTEGER, is_other};
use etx_prims::{Primitive, RegisterKind, TokenParam};
use etx_state::{
    AssignNumber, AssignScan, AssignText, Key, Meaning, NumberScan, Rest, Scan, TextFinish,
    TextPlace, Val,
};
use std::alloc::{AllocError, Global};

/// Where a list comes from, that isn't written out.
#[derive(Clone, Copy)]
enum Source {
    /// From under this key.
    Key(Key),
    /// From a token register, whose number comes next.
    Register,
    /// It is written out.
    Nothing,
}

fn source_primitive(primitive: Primitive) -> Source
    ensures { result ≡ source_primitive primitive }
{
    match primitive {
        Primitive::TokenParam(parameter) => Source::Key(Key::Tokens(parameter)),
        Primitive::Register(kind) => source_kind(kind),
        _ => Source::Nothing,
    }
}

fn source_kind(kind: RegisterKind) -> Source
    ensures { result ≡ source_kind kind }
{
    match kind {
        RegisterKind::Toks => Source::Register,
        _ => Source::Nothing,
    }
}

fn source_register(kind: RegisterKind, number: u16) -> Source
    ensures { result ≡ source_register kind number }
{
    match kind {
        RegisterKind::Toks => Source::Key(Key::Register { kind, number }),
        _ => Source::Nothing,
    }
}

#[tactic(auto, unfolding(crate::specs::Lists::source_of))]
fn source_of(meaning: &Meaning) -> Source
    ensures { result ≡ source_of meaning.now }
{
    match meaning {
        Meaning::Primitive(primitive) => source_primitive(*primitive),
        Meaning::Register { kind, number } => source_register(*kind, *number),
        _ => Source::Nothing,
    }
}

/// The list comes next, inside its braces.
fn list_text(alloc: Global, key: Key, is_global: bool, reader: Token) -> Result<Scan, AllocError>
    ensures { IfOk result (λ scan. scan ≡ list_text key is_global reader) }
{
    let mut text = text_for(alloc, reader, false);
    text.place = TextPlace::Inside { depth: 0 };
    Ok(Scan::Text {
        text: Boxed::new(alloc, text)?,
        finish: TextFinish::Assign(AssignText::List { key, is_global }),
    })
}

/// The list of another key is taken.
fn copied(rest: &mut Rest, key: Key, is_global: bool, from: Key) -> Result<Plan, AllocError>
    ensures rest { OnOk result (rest_of rest.new ≡ (scan_over (over (with_list key is_global (tokens_at (rest_of rest.old).values from) (rest_of rest.old)))).rest) }
    ensures plan { IfOk result (λ plan. plan ≡ (scan_over (over (with_list key is_global (tokens_at (rest_of rest.old).values from) (rest_of rest.old)))).plan) }
    ensures kept { Keeps rest.old rest.new }
{
    let tokens = rest.tokens(from)?;
    set_fitting(rest, is_global, key, Val::Tokens(tokens))?;
    scan_over(rest)
}

/// A list gets the token behind its `=`.
fn list_begun(
    rest: &mut Rest,
    key: Key,
    is_global: bool,
    reader: Token,
    meaning: &Meaning,
) -> Result<Plan, AllocError>
    ensures rest { OnOk result (rest_of rest.new ≡ (list_begun key is_global reader meaning.now (rest_of rest.old)).rest) }
    ensures plan { IfOk result (λ plan. plan ≡ (list_begun key is_global reader meaning.now (rest_of rest.old)).plan) }
    ensures kept { Keeps rest.old rest.new }
{
    if has_category(1, meaning) {
        let scan = list_text(rest.alloc(), key, is_global, reader)?;
        return Ok(quiet(Move::Begin(scan)));
    }
    match source_of(meaning) {
        Source::Key(from) => copied(rest, key, is_global, from),
        Source::Register => {
            let finish = AssignNumber::ListOf { key, is_global };
            let scan = number_scan(rest.alloc(), NumberScan::Start(INTEGER), finish)?;
            Ok(quiet(Move::Begin(scan)))
        }
        Source::Nothing => {
            let scan = list_text(rest.alloc(), key, is_global, reader)?;
            fails_back(rest.alloc(), b"Missing { inserted", Move::Begin(scan))
        }
    }
}

/// A list gets a token: spaces are skipped, one `=`, and behind that `\relax`.
#[tactic(auto, unfolding(crate::specs::Lists::list_row))]
pub(crate) fn list_row(
    rest: &mut Rest,
    key: Key,
    is_global: bool,
    reader: Token,
    is_behind: bool,
    token: Token,
    meaning: &Meaning,
) -> Result<Plan, AllocError>
    ensures rest { OnOk result (rest_of rest.new ≡ (list_row key is_global reader is_behind token meaning.now (rest_of rest.old)).rest) }
    ensures plan { IfOk result (λ plan. plan ≡ (list_row key is_global reader is_behind token meaning.now (rest_of rest.old)).plan) }
    ensures kept { Keeps rest.old rest.new }
{
    let is_equals = !is_behind && is_other(b'=', token);
    if has_category(10, meaning) || is_equals || is_relax(meaning) {
        let is_behind = is_behind || !has_category(10, meaning);
        return Ok(quiet(Move::Stay(Scan::Assign(AssignScan::List {
            key,
            is_global,
            reader,
            is_behind,
        }))));
    }
    list_begun(rest, key, is_global, reader, meaning)
}

/// The list of an output routine stands in braces ("TeX: The Program", section 1226).
fn in_braces(alloc: Global, tokens: Tokens) -> Result<Tokens, AllocError>
    ensures { IfOk result (λ list. list ≡ in_braces tokens) }
{
    if tokens.is_empty() {
        return Ok(tokens);
    }
    let mut list = Tokens::new(alloc);
    list.push(Token::Char { code: b'{', cat: 1 })?;
    list.append(tokens)?;
    list.push(Token::Char { code: b'}', cat: 2 })?;
    Ok(list)
}

/// A list as it is kept under a key.
fn list_for(alloc: Global, key: Key, tokens: Tokens) -> Result<Tokens, AllocError>
    ensures { IfOk result (λ list. list ≡ list_for key tokens) }
{
    if is_output(key) {
        in_braces(alloc, tokens)
    } else {
        Ok(tokens)
    }
}

/// Whether the output routine stands under a key.
fn is_output(key: Key) -> bool
    ensures { result ≡ is_output key }
{
    match key {
        Key::Tokens(parameter) => is_output_parameter(parameter),
        _ => false,
    }
}

fn is_output_parameter(parameter: TokenParam) -> bool
    ensures { result ≡ is_output_parameter parameter }
{
    match parameter {
        TokenParam::Output => true,
        _ => false,
    }
}

/// A list that was written out.
#[tactic(auto, unfolding(crate::specs::Lists::list_given))]
pub(crate) fn text_taken(
    rest: &mut Rest,
    finish: AssignText,
    text: Boxed<Tokens>,
) -> Result<Ended, AllocError>
    ensures rest { OnOk result (rest_of rest.new ≡ (list_given finish text (rest_of rest.old)).rest) }
    ensures ended { IfOk result (λ ended. ended ≡ (list_given finish text (rest_of rest.old)).ended) }
    ensures kept { Keeps rest.old rest.new }
{
    let alloc = rest.alloc();
    match finish {
        AssignText::List { key, is_global } => {
            let tokens = SharedTokens::new(alloc, list_for(alloc, key, text.into_inner())?)?;
            set_fitting(rest, is_global, key, Val::Tokens(tokens))?;
            value_over(rest)
        }
    }
}
