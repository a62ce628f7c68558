//! The expressions of e-TeX, and what becomes of a number that was read for an outer scan.
ghost use Rattle.std.specs.Prelude.{◌≡◌, IfOk};
ghost use Rattle.etx_state.specs.Rests.{rest_of};
ghost use Rattle.etx_exprs.specs.Feeding.{fed_of, wanted_of};
ghost use Rattle.etx_numbers.specs.Numbers.{start_row, want_of};
ghost use Rattle.etx_answers.specs.Reads.{goes_on, failing, behind_all};
ghost use Rattle.etx_numbers.specs.Expressions.{kind_or_integer, behind_part, part_refused, part_of, operand_row, operator_row, expression_over, zero_of};
ghost use Rattle.etx_numbers.specs.Outers.{bad_text, outer_row, register_read, code_read, glue_part, converted, outer_taken};

use crate::internal::{register_amount, register_key};
use crate::numbers::{is_other, start_row, want_of};
use crate::taking::{amount_in, behind_width, glue_amount, glue_in, taken};
use etx_answers::{
    Ended, Next, Read, back, behind, behind_all, failing, gives, goes_on, has_category, is_relax,
    push_integer, read_ended, reads_end,
};
use etx_exprs::{Expr, Overflow, Part, Turn, Value as Quantity, ValueKind};
use etx_lists::Bytes;
use etx_matter::{Boxed, End, Glue, GlueOrder, Limit, Token};
use etx_prims::{CodeKind, GlueConversionKind, GluePartKind, RegisterKind};
use etx_state::{Key, Meaning, NumberScan, Outer, Rest, Taker, Want};
use std::alloc::{AllocError, Global};

/// The most parentheses that may be open in an expression.
const MOST_DEPTH: usize = 10_000;

/// The kind of operand that an expression wants.
fn wanted_kind(expr: &Expr) -> ValueKind
    ensures { result ≡ kind_or_integer (wanted_of expr.now) }
{
    match expr.wanted() {
        Some(kind) => kind,
        None => ValueKind::Int,
    }
}

/// An operand begins with this token.
fn operand_begun(
    rest: &Rest,
    line: u32,
    expr: Boxed<Expr>,
    want: Want,
    token: Token,
    meaning: &Meaning,
) -> Result<Read, AllocError>
    ensures { IfOk result (λ read. read ≡ behind_all (Outer.Operand expr want) (start_row (want_of (kind_or_integer (wanted_of expr))) token meaning.now line (rest_of rest.now))) }
{
    let wanted = want_of(wanted_kind(expr.get()));
    let read = start_row(rest, line, wanted, token, meaning)?;
    Ok(behind_all(Outer::Operand { expr, want }, read))
}

/// An operand of an expression, or a parenthesis.
#[tactic(auto, unfolding(crate::specs::Expressions::operand_row))]
pub(crate) fn operand_row(
    rest: &Rest,
    line: u32,
    mut expr: Boxed<Expr>,
    want: Want,
    token: Token,
    meaning: &Meaning,
) -> Result<Read, AllocError>
    ensures { IfOk result (λ read. read ≡ operand_row expr want token meaning.now line (rest_of rest.now)) }
{
    if has_category(10, meaning) {
        return Ok(goes_on(NumberScan::Operand { expr, want }));
    }
    if is_other(b'(', token) {
        if expr.get().depth() >= MOST_DEPTH {
            return Ok(reads_end(End::Capacity(Limit::Scans)));
        }
        let _turn = expr.get_mut().feed(Part::Open)?;
        return Ok(goes_on(NumberScan::Operand { expr, want }));
    }
    operand_begun(rest, line, expr, want, token, meaning)
}

/// What a token is behind an operand.
fn part_of(token: Token, meaning: &Meaning) -> Part
    ensures { result ≡ part_of token meaning.now }
{
    if is_other(b'+', token) {
        Part::Plus
    } else if is_other(b'-', token) {
        Part::Minus
    } else if is_other(b'*', token) {
        Part::Times
    } else if is_other(b'/', token) {
        Part::Divide
    } else if is_other(b')', token) {
        Part::Close
    } else if is_relax(meaning) {
        Part::Relax
    } else {
        Part::Other
    }
}

/// Nothing, of a kind.
fn zero_of(want: ValueKind) -> Quantity
    ensures { result ≡ zero_of want }
{
    let glue = Glue {
        width: 0,
        stretch: 0,
        shrink: 0,
        stretch_order: GlueOrder::Normal,
        shrink_order: GlueOrder::Normal,
    };
    match want {
        ValueKind::Int => Quantity::Int(0),
        ValueKind::Dim => Quantity::Dim(0),
        ValueKind::Glue => Quantity::Glue(glue),
        ValueKind::MuGlue => Quantity::MuGlue(glue),
    }
}

/// What an expression comes to. It is given to what waits for it, which may go on with a token of its own.
#[tactic(auto, unfolding(crate::specs::Expressions::expression_over))]
fn expression_over(alloc: Global, expr: &Expr, want: Want) -> Result<Read, AllocError>
    ensures { IfOk result (λ read. read ≡ expression_over expr.now want) }
{
    if !expr.is_whole() {
        return Ok(behind(Outer::Again(want), gives(zero_of(expr.kind()))));
    }
    match expr.value() {
        Ok(value) => Ok(behind(Outer::Again(want), gives(value))),
        Err(Overflow) => {
            let read = behind(Outer::Again(want), gives(zero_of(expr.kind())));
            failing(alloc, b"Arithmetic overflow", read)
        }
    }
}

/// The expression goes on behind an operator, or a parenthesis.
fn behind_part(expr: Boxed<Expr>, want: Want) -> Read
    ensures { result ≡ behind_part (wanted_of expr) expr want }
{
    if expr.get().wanted().is_some() {
        goes_on(NumberScan::Operand { expr, want })
    } else {
        goes_on(NumberScan::Operator { expr, want })
    }
}

/// The token is no part: the expression is over, or a parenthesis lacks.
fn part_refused(rest: &Rest, mut expr: Boxed<Expr>, want: Want) -> Result<Read, AllocError>
    ensures { IfOk result (λ read. read ≡ part_refused expr want) }
{
    if expr.get().depth() > 0 {
        let _turn = expr.get_mut().feed(Part::Close)?;
        return failing(
            rest.alloc(),
            b"Missing ) inserted for expression",
            back(goes_on(NumberScan::Operator { expr, want })),
        );
    }
    Ok(back(expression_over(rest.alloc(), expr.get(), want)?))
}

/// An operator, or the end of an expression.
#[tactic(auto, unfolding(crate::specs::Expressions::operator_row))]
pub(crate) fn operator_row(
    rest: &Rest,
    mut expr: Boxed<Expr>,
    want: Want,
    token: Token,
    meaning: &Meaning,
) -> Result<Read, AllocError>
    ensures { IfOk result (λ read. read ≡ operator_row expr want token meaning.now) }
{
    if has_category(10, meaning) {
        return Ok(goes_on(NumberScan::Operator { expr, want }));
    }
    match expr.get_mut().feed(part_of(token, meaning))? {
        Turn::More => Ok(behind_part(expr, want)),
        Turn::Done => expression_over(rest.alloc(), expr.get(), want),
        Turn::DoneBack => part_refused(rest, expr, want),
    }
}

// ---- what was read for an outer scan

/// The error about a number that is out of its range.
fn bad_number(alloc: Global, what: &[u8], number: i32, read: Read) -> Result<Read, AllocError>
    ensures { IfOk result (λ it. it ≡ failing (bad_text what.now number) read) }
{
    let mut text = Bytes::from_slice(alloc, what)?;
    text.extend_from_slice(b" (")?;
    push_integer(alloc, &mut text, number)?;
    text.push(b')')?;
    failing(alloc, text.as_slice(), read)
}

/// The value of a register, whose number was read.
#[tactic(auto, unfolding(crate::specs::Outers::register_read))]
fn register_read(
    rest: &Rest,
    kind: RegisterKind,
    want: Want,
    number: i32,
) -> Result<Read, AllocError>
    ensures { IfOk result (λ read. read ≡ register_read kind want number (rest_of rest.now)) }
{
    if number < 0 || number > 32767 {
        let again = behind(Outer::Register { kind, want }, gives(Quantity::Int(0)));
        return bad_number(rest.alloc(), b"Bad register code", number, again);
    }
    match kind {
        RegisterKind::Toks => Ok(Read {
            next: Next::List(register_key(kind, number as u16)),
            is_back: false,
            error: None,
            outer: None,
            further: None,
        }),
        _ => {
            let amount = register_amount(rest, kind, number as u16);
            taken(rest.alloc(), want, amount)
        }
    }
}

/// A code of the character whose code was read.
#[tactic(auto, unfolding(crate::specs::Outers::code_read))]
fn code_read(rest: &Rest, kind: CodeKind, want: Want, number: i32) -> Result<Read, AllocError>
    ensures { IfOk result (λ read. read ≡ code_read kind want number (rest_of rest.now)) }
{
    if number < 0 || number > 255 {
        let again = behind(Outer::Code { kind, want }, gives(Quantity::Int(0)));
        return bad_number(rest.alloc(), b"Bad character code", number, again);
    }
    let key = Key::Code {
        kind,
        code: number as u8,
    };
    taken(rest.alloc(), want, Quantity::Int(rest.number(key)))
}

/// A part of glue.
fn glue_part(kind: GluePartKind, glue: Glue) -> Quantity
    ensures { result ≡ glue_part kind glue }
{
    match kind {
        GluePartKind::Stretch => Quantity::Dim(glue.stretch),
        GluePartKind::Shrink => Quantity::Dim(glue.shrink),
        GluePartKind::StretchOrder => Quantity::Int(glue.stretch_order as i32),
        GluePartKind::ShrinkOrder => Quantity::Int(glue.shrink_order as i32),
    }
}

fn converted(kind: GlueConversionKind, glue: Glue) -> Quantity
    ensures { result ≡ converted kind glue }
{
    match kind {
        GlueConversionKind::ToMu => Quantity::MuGlue(glue),
        GlueConversionKind::FromMu => Quantity::Glue(glue),
    }
}

/// The expression goes on behind an operand.
fn operand_read(mut expr: Boxed<Expr>, want: Want, amount: Quantity) -> Result<Read, AllocError>
    ensures { IfOk result (λ read. read ≡ goes_on (NumberScan.Operator (fed_of expr (Part.Operand amount)).state want)) }
{
    let _turn = expr.get_mut().feed(Part::Operand(amount))?;
    Ok(goes_on(NumberScan::Operator { expr, want }))
}

/// A line for each outer scan.
#[tactic(auto, unfolding(crate::specs::Outers::outer_taken))]
fn outer_taken(
    rest: &Rest,
    outer: Outer,
    amount: Quantity,
    order: GlueOrder,
) -> Result<Read, AllocError>
    ensures { IfOk result (λ read. read ≡ outer_taken outer amount order (rest_of rest.now)) }
{
    match outer {
        Outer::Register { kind, want } => register_read(rest, kind, want, amount_in(amount)),
        Outer::Code { kind, want } => code_read(rest, kind, want, amount_in(amount)),
        Outer::GluePart { kind, want } => {
            taken(rest.alloc(), want, glue_part(kind, glue_in(amount)))
        }
        Outer::GlueConversion { kind, want } => {
            taken(rest.alloc(), want, converted(kind, glue_in(amount)))
        }
        Outer::Operand { expr, want } => operand_read(expr, want, amount),
        Outer::Width { is_mu } => Ok(behind_width(is_mu, amount_in(amount))),
        Outer::Stretch { glue, is_mu } => Ok(goes_on(NumberScan::Minus {
            glue: Glue {
                stretch: amount_in(amount),
                stretch_order: order,
                ..glue
            },
            is_mu,
        })),
        Outer::Shrink { glue, is_mu } => Ok(gives(glue_amount(
            is_mu,
            Glue {
                shrink: amount_in(amount),
                shrink_order: order,
                ..glue
            },
        ))),
        Outer::Again(want) => taken(rest.alloc(), want, amount),
    }
}

/// A number that was read for an outer scan.
#[tactic(auto, unfolding(crate::specs::Outers::outer_row))]
pub fn outer_row(
    rest: &Rest,
    outer: Outer,
    taker: Boxed<Taker>,
    amount: Quantity,
    order: GlueOrder,
) -> Result<Ended, AllocError>
    ensures { IfOk result (λ ended. ended ≡ outer_row outer taker amount order (rest_of rest.now)) }
{
    let read = outer_taken(rest, outer, amount, order)?;
    read_ended(rest, taker, read)
}
