//! How numbers, dimensions, glue and meanings are written.
ghost use Rattle.std.specs.Prelude.{◌≡◌, ◌<◌, ◌++◌, ◌∷◌, replicate, codes, OnOk};
ghost use Rattle.std.specs.Fmt.{decimal};
ghost use Rattle.etx_scaled.specs.Decimal.{decimal_text};
ghost use Rattle.etx_state.specs.Rests.{rest_of};
ghost use Rattle.etx_answers.specs.Showing.{integer_text, roman_digit, roman_digits, hex_glyph, marked_text, mark_at, parameter_mark, last_mark, roman_text, hex_text, size_text, part_text, glue_text, amount_text, character_words, word, prefix_words, parts_text, macro_text, meaning_text, shown_meaning};

use crate::printing::{push_printed, push_token, push_word};
use etx_exprs::Value as Quantity;
use etx_lists::Bytes;
use etx_matter::{Glue, GlueOrder, Token, Tokens};
use etx_prims::name_of;
use etx_scaled::print_scaled;
use etx_state::{Macro, Meaning, Rest};
use std::alloc::{AllocError, Global};

/// Adds a number in decimal.
pub fn push_natural(text: &mut Bytes, number: u32) -> Result<(), AllocError>
    ensures { OnOk result (text.new ≡ text.old ++ decimal number) }
{
    if number >= 10 {
        push_natural(text, number / 10)?;
    }
    text.push(b'0' + (number % 10) as u8)
}

/// Adds an integer in decimal.
#[tactic(auto, unfolding(crate::specs::Showing::integer_text))]
pub fn push_integer(_alloc: Global, text: &mut Bytes, number: i32) -> Result<(), AllocError>
    ensures { OnOk result (text.new ≡ text.old ++ integer_text number) }
{
    if number < 0 {
        text.push(b'-')?;
    }
    push_natural(text, number.unsigned_abs())
}

/// Adds a number in Roman numerals, where it is above 0.
#[tactic(auto, unfolding(crate::specs::Showing::roman_text))]
pub fn push_roman(text: &mut Bytes, number: i32) -> Result<(), AllocError>
    ensures { OnOk result (text.new ≡ text.old ++ roman_text number) }
{
    if number < 0 {
        return Ok(());
    }
    push_roman_digits(text, number.unsigned_abs())
}

/// Adds a number in Roman numerals. 0 is nothing.
fn push_roman_digits(text: &mut Bytes, number: u32) -> Result<(), AllocError>
    ensures { OnOk result (text.new ≡ text.old ++ roman_digits number) }
{
    push_thousands(text, number / 1000)?;
    push_roman_digit(text, b'c', b'd', b'm', number / 100 % 10)?;
    push_roman_digit(text, b'x', b'l', b'c', number / 10 % 10)?;
    push_roman_digit(text, b'i', b'v', b'x', number % 10)
}

/// Adds so many thousands in Roman numerals.
fn push_thousands(text: &mut Bytes, count: u32) -> Result<(), AllocError>
    ensures { OnOk result (text.new ≡ text.old ++ replicate count 109) }
{
    for _thousand in 0..count {
        text.push(b'm')?;
    }
    Ok(())
}

/// Adds a decimal digit in Roman numerals, with the letters for one, five and ten of it.
fn push_roman_digit(
    text: &mut Bytes,
    one: u8,
    five: u8,
    ten: u8,
    digit: u32,
) -> Result<(), AllocError>
    ensures { OnOk result (text.new ≡ text.old ++ roman_digit one five ten digit) }
{
    match digit {
        1 => text.extend_from_slice(&[one]),
        2 => text.extend_from_slice(&[one, one]),
        3 => text.extend_from_slice(&[one, one, one]),
        4 => text.extend_from_slice(&[one, five]),
        5 => text.extend_from_slice(&[five]),
        6 => text.extend_from_slice(&[five, one]),
        7 => text.extend_from_slice(&[five, one, one]),
        8 => text.extend_from_slice(&[five, one, one, one]),
        9 => text.extend_from_slice(&[one, ten]),
        _ => Ok(()),
    }
}

/// Adds a dimension without its unit.
fn push_scaled(alloc: Global, text: &mut Bytes, number: i32) -> Result<(), AllocError>
    ensures { OnOk result (text.new ≡ text.old ++ decimal_text number) }
{
    let mut decimal = Vec::new(alloc);
    print_scaled(alloc, number, &mut decimal)?;
    text.extend_from_slice(decimal.as_slice())
}

/// Adds a stretch or shrink with its unit.
fn push_size(
    alloc: Global,
    text: &mut Bytes,
    size: i32,
    order: GlueOrder,
    unit: &[u8],
) -> Result<(), AllocError>
    ensures { OnOk result (text.new ≡ text.old ++ size_text size order unit.now) }
{
    push_scaled(alloc, text, size)?;
    match order {
        GlueOrder::Normal => text.extend_from_slice(unit),
        GlueOrder::Fil => text.extend_from_slice(b"fil"),
        GlueOrder::Fill => text.extend_from_slice(b"fill"),
        GlueOrder::Filll => text.extend_from_slice(b"filll"),
    }
}

/// Adds a stretch or shrink behind its word, unless it is nothing.
fn push_part(
    alloc: Global,
    text: &mut Bytes,
    before: &[u8],
    size: i32,
    order: GlueOrder,
    unit: &[u8],
) -> Result<(), AllocError>
    ensures { OnOk result (text.new ≡ text.old ++ part_text before.now size order unit.now) }
{
    if size == 0 {
        return Ok(());
    }
    text.extend_from_slice(before)?;
    push_size(alloc, text, size, order, unit)
}

/// Adds a width with its unit.
fn push_width(alloc: Global, text: &mut Bytes, width: i32, unit: &[u8]) -> Result<(), AllocError>
    ensures { OnOk result (text.new ≡ text.old ++ (decimal_text width ++ unit.now)) }
{
    push_scaled(alloc, text, width)?;
    text.extend_from_slice(unit)
}

/// Adds glue but for its shrink.
fn push_stretched(
    alloc: Global,
    text: &mut Bytes,
    glue: Glue,
    unit: &[u8],
) -> Result<(), AllocError>
    ensures { OnOk result (text.new ≡ text.old ++ (decimal_text glue.width ++ unit.now ++ part_text (codes " plus ") glue.stretch glue.stretch_order unit.now)) }
{
    push_width(alloc, text, glue.width, unit)?;
    push_part(
        alloc,
        text,
        b" plus ",
        glue.stretch,
        glue.stretch_order,
        unit,
    )
}

/// Adds glue ("TeX: The Program", section 178).
#[tactic(auto, unfolding(crate::specs::Showing::glue_text))]
fn push_glue(alloc: Global, text: &mut Bytes, glue: Glue, unit: &[u8]) -> Result<(), AllocError>
    ensures { OnOk result (text.new ≡ text.old ++ glue_text glue unit.now) }
{
    push_stretched(alloc, text, glue, unit)?;
    push_part(
        alloc,
        text,
        b" minus ",
        glue.shrink,
        glue.shrink_order,
        unit,
    )
}

/// Adds an amount as `\the` writes it.
#[tactic(auto, unfolding(crate::specs::Showing::amount_text))]
pub fn push_amount(alloc: Global, text: &mut Bytes, amount: Quantity) -> Result<(), AllocError>
    ensures { OnOk result (text.new ≡ text.old ++ amount_text amount) }
{
    match amount {
        Quantity::Int(number) => push_integer(alloc, text, number),
        Quantity::Dim(number) => {
            push_scaled(alloc, text, number)?;
            text.extend_from_slice(b"pt")
        }
        Quantity::Glue(glue) => push_glue(alloc, text, glue, b"pt"),
        Quantity::MuGlue(glue) => push_glue(alloc, text, glue, b"mu"),
    }
}

/// What a character is, by its category ("TeX: The Program", section 298).
#[tactic(auto, unfolding(crate::specs::Showing::character_words))]
pub fn character_words(cat: u8) -> &'static [u8]
    ensures { result.now ≡ character_words cat }
{
    match cat {
        1 => b"begin-group character ",
        2 => b"end-group character ",
        3 => b"math shift character ",
        4 => b"alignment tab character ",
        6 => b"macro parameter character ",
        7 => b"superscript character ",
        8 => b"subscript character ",
        10 => b"blank space ",
        11 => b"the letter ",
        _ => b"the character ",
    }
}

fn hex_digit(number: u32) -> u8
    requires { number < 16 }
    ensures { result ≡ hex_glyph number }
{
    if number < 10 {
        b'0' + number as u8
    } else {
        b'A' + (number - 10) as u8
    }
}

fn push_hex_digits(text: &mut Bytes, number: u32) -> Result<(), AllocError>
    ensures { OnOk result (text.new ≡ text.old ++ hex_text number) }
{
    if number >= 16 {
        push_hex_digits(text, number / 16)?;
    }
    text.push(hex_digit(number % 16))
}

/// Adds a command and a number in hexadecimal.
fn push_given(rest: &Rest, text: &mut Bytes, name: &[u8], number: u32) -> Result<(), AllocError>
    ensures { OnOk result (text.new ≡ text.old ++ (word name.now (rest_of rest.now) ++ 34 ∷ hex_text number)) }
{
    push_word(rest, text, name)?;
    text.push(b'"')?;
    push_hex_digits(text, number)
}

/// Adds the prefixes of a macro.
fn push_prefixes(rest: &Rest, text: &mut Bytes, made: &Macro) -> Result<(), AllocError>
    ensures { OnOk result (text.new ≡ text.old ++ prefix_words made.now (rest_of rest.now)) }
{
    if made.is_protected() {
        push_word(rest, text, b"protected")?;
    }
    if made.is_long() {
        push_word(rest, text, b"long")?;
    }
    if made.is_outer() {
        push_word(rest, text, b"outer")?;
    }
    if made.is_protected() || made.is_long() || made.is_outer() {
        text.push(b' ')?;
    }
    Ok(())
}

/// Adds tokens, where parameters are shown by this mark.
fn push_marked(rest: &Rest, text: &mut Bytes, mark: u8, tokens: &[Token]) -> Result<(), AllocError>
    ensures { OnOk result (text.new ≡ text.old ++ marked_text mark tokens.now (rest_of rest.now)) }
{
    for token in tokens {
        push_token(rest, text, mark, *token)?;
    }
    Ok(())
}

/// The mark that was kept at a place, or else `#`.
fn mark_at(marks: &[u8], place: usize) -> u8
    ensures { result ≡ mark_at marks.now place }
{
    match marks.get(place) {
        Some(mark) => *mark,
        None => b'#',
    }
}

/// Adds a parameter by the character that marked it, and its number. Nothing stands before the first part.
fn push_parameter_mark(text: &mut Bytes, marks: &[u8], number: usize) -> Result<(), AllocError>
    ensures { OnOk result (text.new ≡ text.old ++ parameter_mark marks.now number) }
{
    if number == 0 {
        return Ok(());
    }
    text.push(mark_at(marks, number - 1))?;
    text.push(b'0' + (number % 10) as u8)
}

/// Adds the parameter text of a macro.
fn push_parameters(
    rest: &Rest,
    text: &mut Bytes,
    marks: &[u8],
    parts: &[Tokens],
) -> Result<(), AllocError>
    ensures { OnOk result (text.new ≡ text.old ++ parts_text marks.now 0 parts.now (rest_of rest.now)) }
{
    for number in 0..parts.len() {
        push_parameter_mark(text, marks, number)?;
        push_marked(rest, text, b'#', parts[number].as_slice())?;
    }
    Ok(())
}

/// The character that marks the parameters in a body: that of the last one.
fn last_mark(marks: &[u8]) -> u8
    ensures { result ≡ last_mark marks.now }
{
    if marks.is_empty() {
        return b'#';
    }
    mark_at(marks, marks.len() - 1)
}

/// Adds a macro's definition.
fn push_macro(rest: &Rest, text: &mut Bytes, made: &Macro) -> Result<(), AllocError>
    ensures { OnOk result (text.new ≡ text.old ++ macro_text made.now (rest_of rest.now)) }
{
    let marks = made.marks().as_slice();
    push_prefixes(rest, text, made)?;
    text.extend_from_slice(b"macro:")?;
    push_parameters(rest, text, marks, made.pattern().parts())?;
    text.extend_from_slice(b"->")?;
    push_marked(rest, text, last_mark(marks), made.body().as_slice())
}

/// Adds a meaning as `\meaning` writes it.
#[tactic(auto, unfolding(crate::specs::Showing::meaning_text))]
pub fn push_meaning_text(rest: &Rest, text: &mut Bytes, meaning: &Meaning) -> Result<(), AllocError>
    ensures { OnOk result (text.new ≡ text.old ++ meaning_text meaning.now (rest_of rest.now)) }
{
    match meaning {
        Meaning::Undefined => text.extend_from_slice(b"undefined"),
        Meaning::Primitive(primitive) => push_word(rest, text, name_of(*primitive)),
        Meaning::Char { code, cat } => {
            text.extend_from_slice(character_words(*cat))?;
            text.push(*code)
        }
        Meaning::Macro(made) => push_macro(rest, text, made),
        Meaning::CharGiven(code) => push_given(rest, text, b"char", u32::from(*code)),
        Meaning::MathGiven(code) => push_given(rest, text, b"mathchar", u32::from(*code)),
        Meaning::Register { kind, number } => {
            push_word(rest, text, kind.name())?;
            push_natural(text, u32::from(*number))
        }
        Meaning::Unexpanded => push_word(rest, text, b"relax"),
        Meaning::EndTemplate => text.extend_from_slice(b"end of alignment template"),
    }
}

/// Adds a command as errors show it: a name with the escape character, and a character as `\meaning` does, in quotes.
#[tactic(auto, unfolding(crate::specs::Showing::shown_meaning))]
pub fn push_meaning(
    rest: &Rest,
    text: &mut Bytes,
    _token: Token,
    meaning: &Meaning,
) -> Result<(), AllocError>
    ensures { OnOk result (text.new ≡ text.old ++ shown_meaning meaning.now (rest_of rest.now)) }
{
    let mut shown = Bytes::new(rest.alloc());
    push_meaning_text(rest, &mut shown, meaning)?;
    match meaning {
        Meaning::Char { .. } => {
            text.push(b'`')?;
            push_printed(rest, text, shown.as_slice())?;
            text.push(b'\'')
        }
        _ => push_printed(rest, text, shown.as_slice()),
    }
}
