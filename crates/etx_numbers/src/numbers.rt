//! Numbers, dimensions and glue: signs, constants and digits, and what stands where a number is read.
ghost use Rattle.std.specs.Prelude.{◌≡◌, ◌<◌, slice_get, IfOk};
ghost use Rattle.etx_state.specs.Rests.{rest_of};
ghost use Rattle.std.specs.Prelude.{codes};
ghost use Rattle.etx_exprs.specs.Constants.{IsBase, digit_turn};
ghost use Rattle.etx_exprs.specs.Feeding.{started};
ghost use Rattle.etx_answers.specs.Reads.{goes_on, failing, behind};
ghost use Rattle.etx_numbers.specs.Expressions.{read_row, number_row};
ghost use Rattle.etx_numbers.specs.Numbers.{is_other, is_point, integer_read, begin_with, behind_integer, has_point, fraction_begun, digit_taken, is_whole, is_sign, digits_of, no_digits, first_digit_by, fraction_scan, constant_begun, dimension_begun, kind_of, want_of, glue_want, list_begun, improper_zero, register_begun, number_next, is_from_mu, behind_set_row, behind_glue_row, only_code, only_code_in, constant_of, flipped, missing_number, integer_over, constant_row, number_in, number_or_greatest, digits_row, digits_over, number_begun, internal_begun, begin_row, start_row, equals_row, cannot_the};

use crate::dimensions::{fil_row, fraction_row, unit_end_row, unit_row};
use crate::expressions::{operand_row, operator_row};
use crate::internal::{Internal, internal_of};
use crate::taking::{begin_units, signed, taken};
use crate::words::{WordSet, letter_read};
use etx_answers::{
    Next, Plan, Read, back, back_unless, behind, failing, gives, goes_on, has_category,
    push_meaning, read_plan, reads_end,
};
use etx_exprs::{Digits, Expr, TooBig, Turn, Value as Quantity, ValueKind};
use etx_lists::Bytes;
use etx_matter::{Boxed, End, NameId, Token};
use etx_prims::{ExpressionKind, GlueConversionKind, RegisterKind};
use etx_state::{Decimals, Length, Meaning, NumberScan, Outer, Rest, Taker, Want};
use std::alloc::{AllocError, Global};

/// The text of the error that a number isn't there.
pub(crate) const MISSING: &[u8] = b"Missing number, treated as zero";

/// Whether a token is this character, of category 12.
pub fn is_other(wanted: u8, token: Token) -> bool
    ensures { result ≡ is_other wanted token }
{
    match token {
        Token::Char { code, cat } => code == wanted && cat == 12,
        Token::Name(_) => false,
        Token::Param(_) => false,
    }
}

/// Whether a token is a full stop, for which a comma may stand.
fn is_point(token: Token) -> bool
    ensures { result ≡ is_point token }
{
    is_other(b'.', token) || is_other(b',', token)
}

/// An integer that is wanted without a sign.
pub const INTEGER: Want = Want::Integer { is_negative: false };

/// The character that is a whole text.
#[tactic(auto, unfolding(crate::specs::Numbers::only_code))]
fn only_code(text: &[u8]) -> Option<u8>
    ensures { result ≡ only_code text.now }
{
    if text.len() == 1 { Some(text[0]) } else { None }
}

/// The code of a name of one character.
fn code_of_name(rest: &Rest, name: NameId) -> Option<u8>
    ensures { result ≡ only_code_in (slice_get (rest_of rest.now).names name.0) }
{
    match rest.name_text(name) {
        None => None,
        Some(text) => only_code(text),
    }
}

/// The code that a token stands for behind a backquote.
#[tactic(auto, unfolding(crate::specs::Numbers::constant_of))]
fn constant_of(rest: &Rest, token: Token) -> Option<u8>
    ensures { result ≡ constant_of (rest_of rest.now) token }
{
    match token {
        Token::Char { code, .. } => Some(code),
        Token::Name(name) => code_of_name(rest, name),
        Token::Param(_) => None,
    }
}

/// What is wanted, with the other sign.
#[tactic(auto, unfolding(crate::specs::Numbers::flipped))]
fn flipped(want: Want) -> Want
    ensures { result ≡ flipped want }
{
    match want {
        Want::Integer { is_negative } => Want::Integer {
            is_negative: !is_negative,
        },
        Want::Dimension(length) => Want::Dimension(Length {
            is_negative: !length.is_negative,
            ..length
        }),
        Want::Unit { length, factor } => Want::Unit { length, factor },
        Want::Glue { is_negative, is_mu } => Want::Glue {
            is_negative: !is_negative,
            is_mu,
        },
        Want::Whole => Want::Whole,
    }
}

/// What an integer is for, where it is whole: a value, or the number before a unit.
fn integer_read(want: Want, number: i32) -> Read
    ensures { result ≡ integer_read want number }
{
    match want {
        Want::Integer { is_negative } => gives(Quantity::Int(signed(is_negative, number))),
        Want::Dimension(length) => goes_on(begin_units(length, number)),
        Want::Unit { .. } => gives(Quantity::Int(number)),
        Want::Glue { .. } => gives(Quantity::Int(number)),
        Want::Whole => gives(Quantity::Int(number)),
    }
}

/// An integer is whole, and this token stands behind it, which is a space that belongs to it or not. A unit may begin with it.
#[tactic(auto, unfolding(crate::specs::Numbers::integer_over))]
fn integer_over(
    rest: &Rest,
    line: u32,
    want: Want,
    number: i32,
    token: Token,
    meaning: &Meaning,
) -> Result<Read, AllocError>
    ensures { IfOk result (λ read. read ≡ integer_over want number token meaning.now line (rest_of rest.now)) }
{
    if has_category(10, meaning) {
        Ok(integer_read(want, number))
    } else {
        behind_integer(rest, line, want, number, token, meaning)
    }
}

/// The same, where the token is no space: it is read again, or a unit begins with it.
fn behind_integer(
    rest: &Rest,
    line: u32,
    want: Want,
    number: i32,
    token: Token,
    meaning: &Meaning,
) -> Result<Read, AllocError>
    ensures { IfOk result (λ read. read ≡ behind_integer want number token meaning.now line (rest_of rest.now)) }
{
    match want {
        Want::Integer { .. } => Ok(back(integer_read(want, number))),
        Want::Dimension(length) => {
            begin_with(rest, line, begin_units(length, number), token, meaning)
        }
        Want::Unit { .. } => Ok(back(integer_read(want, number))),
        Want::Glue { .. } => Ok(back(integer_read(want, number))),
        Want::Whole => Ok(back(integer_read(want, number))),
    }
}

/// The scan of a unit begins with this token.
fn begin_with(
    rest: &Rest,
    line: u32,
    scan: NumberScan,
    token: Token,
    meaning: &Meaning,
) -> Result<Read, AllocError>
    ensures { IfOk result (λ read. read ≡ begin_with scan token meaning.now line (rest_of rest.now)) }
{
    match scan {
        NumberScan::Unit {
            length,
            factor,
            is_true,
        } => unit_row(rest, line, length, factor, is_true, token, meaning),
        scan => Ok(back(goes_on(scan))),
    }
}

/// No number is there: it is zero, and the token is read again.
fn missing_number(alloc: Global, want: Want) -> Result<Read, AllocError>
    ensures { IfOk result (λ read. read ≡ missing_number want) }
{
    failing(alloc, MISSING, back(integer_read(want, 0)))
}

/// A character constant: the character.
#[tactic(auto, unfolding(crate::specs::Numbers::constant_row))]
fn constant_row(rest: &Rest, want: Want, token: Token) -> Result<Read, AllocError>
    ensures { IfOk result (λ read. read ≡ constant_row want token (rest_of rest.now)) }
{
    match constant_of(rest, token) {
        Some(code) => Ok(goes_on(NumberScan::CharacterEnd { want, code })),
        None => failing(
            rest.alloc(),
            b"Improper alphabetic constant",
            back(integer_read(want, 48)),
        ),
    }
}

/// The number, unless it is too big.
fn number_in(digits: &Digits) -> Option<i32>
    ensures { result ≡ number_in digits.now }
{
    match digits.value() {
        Ok(number) => Some(number),
        Err(TooBig) => None,
    }
}

fn number_or_greatest(number: Option<i32>) -> i32
    ensures { result ≡ number_or_greatest number }
{
    match number {
        None => 2_147_483_647,
        Some(number) => number,
    }
}

/// Digits of a base come next.
fn digits_of(base: u8, want: Want) -> Read
    requires { IsBase base }
    ensures { result ≡ digits_of base want }
{
    goes_on(NumberScan::Digits {
        want,
        digits: Digits::new(base),
        is_decimal: base == 10,
    })
}

/// The first digit of a decimal number, if the token is one.
fn first_digit(rest: &Rest, want: Want, token: Token) -> Result<Read, AllocError>
    ensures { IfOk result (λ read. read ≡ first_digit_by (digit_turn (no_digits 10) token) want token) }
{
    let mut digits = Digits::new(10);
    match digits.feed(token) {
        Turn::More => Ok(goes_on(NumberScan::Digits {
            want,
            digits,
            is_decimal: true,
        })),
        Turn::Done => missing_number(rest.alloc(), want),
        Turn::DoneBack => missing_number(rest.alloc(), want),
    }
}

/// Digits get a token that is none.
#[tactic(auto, unfolding(crate::specs::Numbers::digits_over))]
fn digits_over(
    rest: &Rest,
    line: u32,
    want: Want,
    digits: &Digits,
    is_decimal: bool,
    token: Token,
    meaning: &Meaning,
) -> Result<Read, AllocError>
    ensures { IfOk result (λ read. read ≡ digits_over want digits.now is_decimal token meaning.now line (rest_of rest.now)) }
{
    if digits.is_empty() {
        return missing_number(rest.alloc(), want);
    }
    let number = number_or_greatest(number_in(digits));
    if has_point(want, is_decimal, token) {
        return Ok(fraction_begun(want, number));
    }
    integer_over(rest, line, want, number, token, meaning)
}

/// Whether the fraction of a dimension begins with the token.
fn has_point(want: Want, is_decimal: bool, token: Token) -> bool
    ensures { result ≡ has_point want is_decimal token }
{
    match want {
        Want::Integer { .. } => false,
        Want::Dimension(_) => is_decimal && is_point(token),
        Want::Unit { .. } => false,
        Want::Glue { .. } => false,
        Want::Whole => false,
    }
}

/// Digits behind a full stop come next, where a dimension is wanted.
fn fraction_begun(want: Want, number: i32) -> Read
    ensures { result ≡ fraction_begun want number }
{
    match want {
        Want::Integer { .. } => integer_read(want, number),
        Want::Dimension(length) => goes_on(fraction_scan(length, number)),
        Want::Unit { .. } => integer_read(want, number),
        Want::Glue { .. } => integer_read(want, number),
        Want::Whole => integer_read(want, number),
    }
}

/// Digits behind a full stop come next.
fn fraction_scan(length: Length, whole: i32) -> NumberScan
    ensures { result ≡ fraction_scan length whole }
{
    NumberScan::Fraction {
        length,
        whole,
        decimals: Decimals {
            digits: 0,
            places: 0,
        },
    }
}

/// A digit more: the first one that makes the number too big is an error.
fn digit_more(
    alloc: Global,
    was_small: bool,
    want: Want,
    digits: Digits,
    is_decimal: bool,
) -> Result<Read, AllocError>
    ensures { IfOk result (λ read. read ≡ digit_taken was_small digits want is_decimal) }
{
    let is_small = number_in(&digits).is_some();
    let read = goes_on(NumberScan::Digits {
        want,
        digits,
        is_decimal,
    });
    if was_small && !is_small {
        failing(alloc, b"Number too big", read)
    } else {
        Ok(read)
    }
}

/// Digits get a token.
#[tactic(auto, unfolding(crate::specs::Numbers::digits_row))]
fn digits_row(
    rest: &Rest,
    line: u32,
    want: Want,
    mut digits: Digits,
    is_decimal: bool,
    token: Token,
    meaning: &Meaning,
) -> Result<Read, AllocError>
    ensures { IfOk result (λ read. read ≡ digits_row want digits is_decimal token meaning.now line (rest_of rest.now)) }
{
    let was_small = number_in(&digits).is_some();
    match digits.feed(token) {
        Turn::More => digit_more(rest.alloc(), was_small, want, digits, is_decimal),
        Turn::Done => digits_over(rest, line, want, &digits, is_decimal, token, meaning),
        Turn::DoneBack => digits_over(rest, line, want, &digits, is_decimal, token, meaning),
    }
}

/// The text of the error that `\the` takes no such command.
fn cannot_the(rest: &Rest, token: Token, meaning: &Meaning) -> Result<Read, AllocError>
    ensures { IfOk result (λ read. read ≡ cannot_the meaning.now (rest_of rest.now)) }
{
    let mut text = Bytes::from_slice(rest.alloc(), b"You can't use ")?;
    push_meaning(rest, &mut text, token, meaning)?;
    text.extend_from_slice(b" after ")?;
    etx_answers::push_escaped(rest, &mut text, b"the")?;
    failing(rest.alloc(), text.as_slice(), gives(Quantity::Int(0)))
}

/// The integer part of a number begins, where no internal quantity stands.
fn constant_begun(rest: &Rest, want: Want, token: Token) -> Result<Read, AllocError>
    ensures { IfOk result (λ read. read ≡ constant_begun want token) }
{
    if is_other(b'`', token) {
        Ok(goes_on(NumberScan::Character(want)))
    } else if is_other(b'\'', token) {
        Ok(digits_of(8, want))
    } else if is_other(b'"', token) {
        Ok(digits_of(16, want))
    } else {
        first_digit(rest, want, token)
    }
}

fn dimension_begun(rest: &Rest, length: Length, token: Token) -> Result<Read, AllocError>
    ensures { IfOk result (λ read. read ≡ dimension_begun length token) }
{
    if is_point(token) {
        Ok(goes_on(fraction_scan(length, 0)))
    } else {
        constant_begun(rest, Want::Dimension(length), token)
    }
}

/// A number begins, where no internal quantity stands.
#[tactic(auto, unfolding(crate::specs::Numbers::number_begun))]
fn number_begun(
    rest: &Rest,
    want: Want,
    token: Token,
    meaning: &Meaning,
) -> Result<Read, AllocError>
    ensures { IfOk result (λ read. read ≡ number_begun want token meaning.now (rest_of rest.now)) }
{
    match want {
        Want::Integer { .. } => constant_begun(rest, want, token),
        Want::Dimension(length) => dimension_begun(rest, length, token),
        Want::Unit { length, .. } => dimension_begun(rest, length, token),
        Want::Glue { is_negative, is_mu } => {
            let length = Length {
                is_negative,
                is_mu,
                is_infinite: false,
            };
            Ok(behind(
                Outer::Width { is_mu },
                dimension_begun(rest, length, token)?,
            ))
        }
        Want::Whole => cannot_the(rest, token, meaning),
    }
}

/// The kind of an expression.
fn kind_of(kind: ExpressionKind) -> ValueKind
    ensures { result ≡ kind_of kind }
{
    match kind {
        ExpressionKind::Num => ValueKind::Int,
        ExpressionKind::Dimen => ValueKind::Dim,
        ExpressionKind::Glue => ValueKind::Glue,
        ExpressionKind::Mu => ValueKind::MuGlue,
    }
}

/// What is wanted of an operand.
pub(crate) fn want_of(kind: ValueKind) -> Want
    ensures { result ≡ want_of kind }
{
    match kind {
        ValueKind::Int => INTEGER,
        ValueKind::Dim => Want::Dimension(Length {
            is_negative: false,
            is_mu: false,
            is_infinite: false,
        }),
        ValueKind::Glue => glue_want(false),
        ValueKind::MuGlue => glue_want(true),
    }
}

/// Glue that is wanted without a sign.
pub(crate) fn glue_want(is_mu: bool) -> Want
    ensures { result ≡ glue_want is_mu }
{
    Want::Glue {
        is_negative: false,
        is_mu,
    }
}

/// A list of tokens: `\the` takes it, and elsewhere no number is there.
fn list_begun(rest: &Rest, want: Want, next: Read) -> Result<Read, AllocError>
    ensures { IfOk result (λ read. read ≡ list_begun want next) }
{
    if is_whole(want) {
        return Ok(next);
    }
    let zero = back(behind(Outer::Again(want), gives(Quantity::Dim(0))));
    failing(rest.alloc(), MISSING, zero)
}

/// Whether `\the` wants it.
fn is_whole(want: Want) -> bool
    ensures { result ≡ is_whole want }
{
    match want {
        Want::Integer { .. } => false,
        Want::Dimension(_) => false,
        Want::Unit { .. } => false,
        Want::Glue { .. } => false,
        Want::Whole => true,
    }
}

/// A quantity of another mode is zero.
fn improper(rest: &Rest, want: Want) -> Result<Read, AllocError>
    ensures { IfOk result (λ read. read ≡ failing (codes "Other error") (improper_zero want)) }
{
    failing(rest.alloc(), b"Other error", improper_zero(want))
}

fn improper_zero(want: Want) -> Read
    ensures { result ≡ improper_zero want }
{
    if is_whole(want) {
        gives(Quantity::Int(0))
    } else {
        behind(Outer::Again(want), gives(Quantity::Dim(0)))
    }
}

/// The number of a register comes next.
fn register_begun(rest: &Rest, want: Want, kind: RegisterKind) -> Result<Read, AllocError>
    ensures { IfOk result (λ read. read ≡ register_begun kind want) }
{
    let read = behind(
        Outer::Register { kind, want },
        goes_on(NumberScan::Start(INTEGER)),
    );
    match kind {
        RegisterKind::Toks => list_begun(rest, want, read),
        RegisterKind::Count => Ok(read),
        RegisterKind::Dimen => Ok(read),
        RegisterKind::Skip => Ok(read),
        RegisterKind::MuSkip => Ok(read),
    }
}

/// An expression begins.
fn expression_begun(alloc: Global, want: Want, kind: ExpressionKind) -> Result<Read, AllocError>
    ensures { IfOk result (λ read. read ≡ goes_on (NumberScan.Operand (started (kind_of kind)) want)) }
{
    let expr = Boxed::new(alloc, Expr::new(alloc, kind_of(kind)))?;
    Ok(goes_on(NumberScan::Operand { expr, want }))
}

fn conversion_begun(want: Want, kind: GlueConversionKind) -> Read
    ensures { result ≡ behind (Outer.GlueConversion kind want) (number_next (glue_want (is_from_mu kind))) }
{
    behind(
        Outer::GlueConversion { kind, want },
        goes_on(NumberScan::Start(glue_want(is_from_mu(kind)))),
    )
}

fn is_from_mu(kind: GlueConversionKind) -> bool
    ensures { result ≡ is_from_mu kind }
{
    match kind {
        GlueConversionKind::ToMu => false,
        GlueConversionKind::FromMu => true,
    }
}

/// An internal quantity stands there.
#[tactic(auto, unfolding(crate::specs::Numbers::internal_begun))]
pub(crate) fn internal_begun(
    rest: &Rest,
    want: Want,
    internal: Internal,
    token: Token,
    meaning: &Meaning,
) -> Result<Read, AllocError>
    ensures { IfOk result (λ read. read ≡ internal_begun want internal token meaning.now (rest_of rest.now)) }
{
    match internal {
        Internal::Nothing => number_begun(rest, want, token, meaning),
        Internal::Amount(amount) => taken(rest.alloc(), want, amount),
        Internal::List(key) => {
            let read = Read {
                next: Next::List(key),
                is_back: false,
                error: None,
                outer: None,
                further: None,
            };
            list_begun(rest, want, read)
        }
        Internal::Register(kind) => register_begun(rest, want, kind),
        Internal::Code(kind) => Ok(behind(
            Outer::Code { kind, want },
            goes_on(NumberScan::Start(INTEGER)),
        )),
        Internal::GluePart(kind) => Ok(behind(
            Outer::GluePart { kind, want },
            goes_on(NumberScan::Start(glue_want(false))),
        )),
        Internal::GlueConversion(kind) => Ok(conversion_begun(want, kind)),
        Internal::Expression(kind) => expression_begun(rest.alloc(), want, kind),
        Internal::Improper => improper(rest, want),
        Internal::Unbuilt => Ok(reads_end(End::Unbuilt)),
    }
}

/// What is wanted begins with this token, behind its signs.
fn begin_row(
    rest: &Rest,
    line: u32,
    want: Want,
    token: Token,
    meaning: &Meaning,
) -> Result<Read, AllocError>
    ensures { IfOk result (λ read. read ≡ begin_row want token meaning.now line (rest_of rest.now)) }
{
    let internal = internal_of(rest, line, meaning);
    internal_begun(rest, want, internal, token, meaning)
}

/// Signs and spaces, before what is wanted. What `\the` takes has none.
#[tactic(auto, unfolding(crate::specs::Numbers::start_row))]
pub(crate) fn start_row(
    rest: &Rest,
    line: u32,
    want: Want,
    token: Token,
    meaning: &Meaning,
) -> Result<Read, AllocError>
    ensures { IfOk result (λ read. read ≡ start_row want token meaning.now line (rest_of rest.now)) }
{
    if is_whole(want) || !is_sign(token, meaning) {
        begin_row(rest, line, want, token, meaning)
    } else if is_other(b'-', token) {
        Ok(goes_on(NumberScan::Start(flipped(want))))
    } else {
        Ok(goes_on(NumberScan::Start(want)))
    }
}

/// Whether a token is a sign, or a space.
fn is_sign(token: Token, meaning: &Meaning) -> bool
    ensures { result ≡ is_sign token meaning.now }
{
    has_category(10, meaning) || is_other(b'+', token) || is_other(b'-', token)
}

/// An `=` that may be there, behind spaces. What is no `=` is the first token of what is wanted.
#[tactic(auto, unfolding(crate::specs::Numbers::equals_row))]
fn equals_row(
    rest: &Rest,
    line: u32,
    want: Want,
    token: Token,
    meaning: &Meaning,
) -> Result<Read, AllocError>
    ensures { IfOk result (λ read. read ≡ equals_row want token meaning.now line (rest_of rest.now)) }
{
    if has_category(10, meaning) {
        Ok(goes_on(NumberScan::Equals(want)))
    } else if is_other(b'=', token) {
        Ok(goes_on(NumberScan::Start(want)))
    } else {
        start_row(rest, line, want, token, meaning)
    }
}

/// Behind the width of glue or its stretch: a word may begin here, and else the glue is whole.
fn behind_glue_row(
    set: WordSet,
    scan: NumberScan,
    whole: Read,
    token: Token,
    meaning: &Meaning,
) -> Read
    ensures { result ≡ behind_set_row set scan whole token meaning.now }
{
    if has_category(10, meaning) {
        return goes_on(scan);
    }
    letter_read(set, scan, token, back(whole))
}

fn plus_row(glue: etx_matter::Glue, is_mu: bool, token: Token, meaning: &Meaning) -> Read
    ensures { result ≡ behind_glue_row WordSet.PlusMinus (NumberScan.Plus glue is_mu) is_mu glue token meaning.now }
{
    let whole = gives(crate::taking::glue_amount(is_mu, glue));
    behind_glue_row(
        WordSet::PlusMinus,
        NumberScan::Plus { glue, is_mu },
        whole,
        token,
        meaning,
    )
}

fn minus_row(glue: etx_matter::Glue, is_mu: bool, token: Token, meaning: &Meaning) -> Read
    ensures { result ≡ behind_glue_row WordSet.Minus (NumberScan.Minus glue is_mu) is_mu glue token meaning.now }
{
    let whole = gives(crate::taking::glue_amount(is_mu, glue));
    behind_glue_row(
        WordSet::Minus,
        NumberScan::Minus { glue, is_mu },
        whole,
        token,
        meaning,
    )
}

/// A line for each scan of a number.
#[tactic(auto, unfolding(crate::specs::Expressions::read_row))]
fn read_row(
    rest: &Rest,
    line: u32,
    scan: NumberScan,
    token: Token,
    meaning: &Meaning,
) -> Result<Read, AllocError>
    ensures { IfOk result (λ read. read ≡ read_row scan token meaning.now line (rest_of rest.now)) }
{
    match scan {
        NumberScan::Equals(want) => equals_row(rest, line, want, token, meaning),
        NumberScan::Start(want) => start_row(rest, line, want, token, meaning),
        NumberScan::Character(want) => constant_row(rest, want, token),
        NumberScan::CharacterEnd { want, code } => {
            integer_over(rest, line, want, i32::from(code), token, meaning)
        }
        NumberScan::Digits {
            want,
            digits,
            is_decimal,
        } => digits_row(rest, line, want, digits, is_decimal, token, meaning),
        NumberScan::Fraction {
            length,
            whole,
            decimals,
        } => fraction_row(rest, line, length, whole, decimals, token, meaning),
        NumberScan::Unit {
            length,
            factor,
            is_true,
        } => unit_row(rest, line, length, factor, is_true, token, meaning),
        NumberScan::Fil {
            length,
            factor,
            order,
        } => fil_row(rest.alloc(), length, factor, order, token, meaning),
        NumberScan::UnitEnd { length, size } => {
            let read = unit_end_row(rest.alloc(), length, size)?;
            Ok(back_unless(has_category(10, meaning), read))
        }
        NumberScan::Plus { glue, is_mu } => Ok(plus_row(glue, is_mu, token, meaning)),
        NumberScan::Minus { glue, is_mu } => Ok(minus_row(glue, is_mu, token, meaning)),
        NumberScan::Operand { expr, want } => {
            operand_row(rest, line, expr, want, token, meaning)
        }
        NumberScan::Operator { expr, want } => operator_row(rest, expr, want, token, meaning),
    }
}

/// A number gets a token.
#[tactic(auto, unfolding(crate::specs::Expressions::number_row))]
pub fn number_row(
    rest: &Rest,
    line: u32,
    scan: NumberScan,
    taker: Boxed<Taker>,
    token: Token,
    meaning: &Meaning,
) -> Result<Plan, AllocError>
    ensures { IfOk result (λ plan. plan ≡ number_row scan taker token meaning.now line (rest_of rest.now)) }
{
    let read = read_row(rest, line, scan, token, meaning)?;
    read_plan(rest, taker, read)
}
