//! What assignments do with numbers.
ghost use Rattle.std.specs.Prelude.{◌≡◌, ◌≤◌, ◌++◌, pos, None, false, OnOk, IfOk, IfSome};
ghost use Rattle.etx_state.specs.Fits.{Fits};
ghost use Rattle.etx_state.specs.Rests.{rest_of, Keeps};
ghost use Rattle.etx_assign.specs.Values.{is_code, with_value, meaning_taken, kept_number, checked, number_within, more, may_be_negative, range_text, invalid_code, stored, value_taken, register_taken, code_of_taken, code_taken, greatest_code, character_taken, register_name_taken, changed_taken, list_of_taken, number_taken};
ghost use Rattle.etx_assign.specs.Assignments.{over, failing};
ghost use Rattle.etx_assign.specs.Arithmetic.{is_glue, overflow};
ghost use Rattle.etx_numbers.specs.Outers.{within, bad_text};
ghost use Rattle.etx_answers.specs.Showing.{integer_text};

use crate::arithmetic::{by_scan, change_taken};
use crate::assignment::{key_of, over, set, set_fitting, value_over};
use crate::begun::{number_scan, register_scan};
use etx_answers::{Did, Ended, Failure, Then, finished, push_integer};
use etx_exprs::Value as Quantity;
use etx_keys::Class;
use etx_lists::Bytes;
use etx_matter::{Boxed, Token};
use etx_numbers::{INTEGER, amount_in, glue_in};
use etx_prims::{CharDefKind, CodeKind, RegisterKind};
use etx_state::{AssignNumber, Key, Meaning, NumberScan, Rest, Scan, Val};
use std::alloc::{AllocError, Global};

/// A number that is kept: the least that 32 bits hold is none of TeX's.
pub(crate) fn kept_number(number: i32) -> i32
    ensures { result ≡ kept_number number }
{
    if number == i32::MIN {
        -2_147_483_647
    } else {
        number
    }
}

/// An amount as a value under a key.
#[tactic(auto, unfolding(crate::specs::Values::stored))]
fn stored(key: Key, amount: Quantity) -> Val
    ensures { result ≡ stored key amount }
{
    if is_glue(key.class()) {
        Val::Glue(glue_in(amount))
    } else {
        Val::Int(kept_number(amount_in(amount)))
    }
}

/// Whether glue, or math glue, stands under keys of a class.
pub(crate) fn is_glue(class: Class) -> bool
    ensures { result ≡ is_glue class }
{
    match class {
        Class::Glue => true,
        Class::MuGlue => true,
        _ => false,
    }
}

/// An error that is reported behind a number.
pub(crate) fn error_did(alloc: Global, text: Bytes) -> Result<Did, AllocError>
    ensures { IfOk result (λ did. did ≡ Did.Error (record { text = text; is_back = false; inserted = None })) }
{
    let failure = Failure {
        text,
        is_back: false,
        inserted: None,
    };
    Ok(Did::Error(Boxed::new(alloc, failure)?))
}

/// What goes on behind an error.
pub(crate) fn failing(alloc: Global, text: Bytes, ended: Ended) -> Result<Ended, AllocError>
    ensures { IfOk result (λ it. it ≡ failing text ended) }
{
    Ok(Ended {
        then: ended.then,
        did: error_did(alloc, text)?,
    })
}

/// The text of the error about a number that is out of its range.
fn bad_text(alloc: Global, what: &[u8], number: i32) -> Result<Bytes, AllocError>
    ensures { IfOk result (λ text. text ≡ bad_text what.now number) }
{
    let mut text = Bytes::from_slice(alloc, what)?;
    text.extend_from_slice(b" (")?;
    push_integer(alloc, &mut text, number)?;
    text.push(b')')?;
    Ok(text)
}

/// A number from 0 to the most.
fn within(most: u16, number: i32) -> Option<u16>
    ensures value { result ≡ within most number }
    ensures small { IfSome result (λ number. number ≤ most) }
{
    if number >= 0 && number <= i32::from(most) {
        Some(number as u16)
    } else {
        None
    }
}

/// What goes on behind a number that has to be from 0 to the most, or behind the error that it isn't.
fn checked(
    alloc: Global,
    number: i32,
    most: u16,
    what: &[u8],
    ended: Ended,
) -> Result<Ended, AllocError>
    ensures { IfOk result (λ it. it ≡ checked most what.now number ended) }
{
    match within(most, number) {
        Some(_) => Ok(ended),
        None => {
            let text = bad_text(alloc, what, number)?;
            failing(alloc, text, ended)
        }
    }
}

/// The number, or 0 where it isn't from 0 to the most.
fn number_within(number: i32, most: u16) -> u16
    ensures value { result ≡ number_within most number }
    ensures small { result ≤ most }
{
    match within(most, number) {
        Some(number) => number,
        None => 0,
    }
}

fn more(scan: Scan) -> Ended
    ensures { result ≡ more scan }
{
    finished(Then::More(scan))
}

/// The number of a register: its value comes next.
#[tactic(auto, unfolding(crate::specs::Values::register_taken))]
fn register_taken(
    alloc: Global,
    kind: RegisterKind,
    reader: Token,
    is_global: bool,
    number: i32,
) -> Result<Ended, AllocError>
    ensures { IfOk result (λ ended. ended ≡ register_taken kind reader is_global number) }
{
    let key = Key::Register {
        kind,
        number: number_within(number, 32767),
    };
    let scan = register_scan(alloc, kind, key, reader, is_global)?;
    checked(alloc, number, 32767, b"Bad register code", more(scan))
}

/// The code of a character: its new code comes next.
#[tactic(auto, unfolding(crate::specs::Values::code_of_taken))]
fn code_of_taken(
    alloc: Global,
    kind: CodeKind,
    is_global: bool,
    number: i32,
) -> Result<Ended, AllocError>
    ensures { IfOk result (λ ended. ended ≡ code_of_taken kind is_global number) }
{
    let finish = AssignNumber::Code {
        kind,
        code: number_within(number, 255) as u8,
        is_global,
    };
    let scan = number_scan(alloc, NumberScan::Equals(INTEGER), finish)?;
    checked(alloc, number, 255, b"Bad character code", more(scan))
}

/// The greatest code of a kind ("TeX: The Program", section 1233).
fn greatest_code(kind: CodeKind) -> i32
    ensures { result ≡ pos (greatest_code kind) }
{
    match kind {
        CodeKind::Cat => 15,
        CodeKind::Math => 32_768,
        CodeKind::Lc => 255,
        CodeKind::Uc => 255,
        CodeKind::Sf => 32_767,
        CodeKind::Del => 16_777_215,
    }
}

/// Whether a code may be below 0.
fn may_be_negative(kind: CodeKind) -> bool
    ensures { result ≡ may_be_negative kind }
{
    matches!(kind, CodeKind::Del)
}

/// Between a code and the greatest one, in an error.
fn range_text(is_negative: bool) -> &'static [u8]
    ensures { result.now ≡ range_text is_negative }
{
    if is_negative {
        b"), should be at most "
    } else {
        b"), should be in the range 0.."
    }
}

/// The range of the codes of a kind, in an error.
fn push_range(alloc: Global, text: &mut Bytes, kind: CodeKind) -> Result<(), AllocError>
    ensures { OnOk result (text.new ≡ text.old ++ range_text (may_be_negative kind) ++ integer_text (pos (greatest_code kind))) }
{
    text.extend_from_slice(range_text(may_be_negative(kind)))?;
    push_integer(alloc, text, greatest_code(kind))
}

/// The text of the error about a code.
fn invalid_code(alloc: Global, kind: CodeKind, number: i32) -> Result<Bytes, AllocError>
    ensures { IfOk result (λ text. text ≡ invalid_code kind number) }
{
    let mut text = Bytes::from_slice(alloc, b"Invalid code (")?;
    push_integer(alloc, &mut text, number)?;
    push_range(alloc, &mut text, kind)?;
    Ok(text)
}

/// A code of a character.
#[tactic(auto, unfolding(crate::specs::Values::code_taken))]
fn code_taken(
    rest: &mut Rest,
    kind: CodeKind,
    code: u8,
    is_global: bool,
    number: i32,
) -> Result<Ended, AllocError>
    ensures rest { OnOk result (rest_of rest.new ≡ (code_taken kind code is_global number (rest_of rest.old)).rest) }
    ensures ended { IfOk result (λ ended. ended ≡ (code_taken kind code is_global number (rest_of rest.old)).ended) }
    ensures kept { Keeps rest.old rest.new }
{
    if is_code(kind, number) {
        set_code(rest, kind, code, is_global, kept_number(number))?;
        return value_over(rest);
    }
    set_code(rest, kind, code, is_global, 0)?;
    let ended = value_over(rest)?;
    let text = invalid_code(rest.alloc(), kind, number)?;
    failing(rest.alloc(), text, ended)
}

/// Whether a number is a code of a kind.
fn is_code(kind: CodeKind, number: i32) -> bool
    ensures { result ≡ is_code kind number }
{
    if number >= 0 {
        number <= greatest_code(kind)
    } else {
        may_be_negative(kind)
    }
}

/// The code of a character is set.
fn set_code(
    rest: &mut Rest,
    kind: CodeKind,
    code: u8,
    is_global: bool,
    number: i32,
) -> Result<(), AllocError>
    requires { Fits (Key.Code kind code) (Val.Int number) }
    ensures rest { OnOk result (rest_of rest.new ≡ with_value (Key.Code kind code) is_global (Val.Int number) (rest_of rest.old)) }
    ensures kept { Keeps rest.old rest.new }
{
    set(rest, is_global, Key::Code { kind, code }, Val::Int(number))
}

/// The value under a key.
#[tactic(auto, unfolding(crate::specs::Values::value_taken))]
fn value_taken(
    rest: &mut Rest,
    key: Key,
    is_global: bool,
    amount: Quantity,
) -> Result<Ended, AllocError>
    ensures rest { OnOk result (rest_of rest.new ≡ (value_taken key is_global amount (rest_of rest.old)).rest) }
    ensures ended { IfOk result (λ ended. ended ≡ (value_taken key is_global amount (rest_of rest.old)).ended) }
    ensures kept { Keeps rest.old rest.new }
{
    set_fitting(rest, is_global, key, stored(key, amount))?;
    value_over(rest)
}

/// The character that a control sequence stands for.
#[tactic(auto, unfolding(crate::specs::Values::character_taken))]
fn character_taken(
    rest: &mut Rest,
    kind: CharDefKind,
    name: Token,
    is_global: bool,
    number: i32,
) -> Result<Ended, AllocError>
    ensures rest { OnOk result (rest_of rest.new ≡ (character_taken kind name is_global number (rest_of rest.old)).rest) }
    ensures ended { IfOk result (λ ended. ended ≡ (character_taken kind name is_global number (rest_of rest.old)).ended) }
    ensures kept { Keeps rest.old rest.new }
{
    match kind {
        CharDefKind::Char => {
            let meaning = Meaning::CharGiven(number_within(number, 255) as u8);
            let ended = meaning_taken(rest, name, is_global, meaning)?;
            checked(rest.alloc(), number, 255, b"Bad character code", ended)
        }
        CharDefKind::MathChar => {
            let meaning = Meaning::MathGiven(number_within(number, 32767));
            let ended = meaning_taken(rest, name, is_global, meaning)?;
            checked(rest.alloc(), number, 32767, b"Bad mathchar", ended)
        }
    }
}

/// A control sequence gets this meaning, and the assignment is over.
fn meaning_taken(
    rest: &mut Rest,
    name: Token,
    is_global: bool,
    meaning: Meaning,
) -> Result<Ended, AllocError>
    ensures rest { OnOk result (rest_of rest.new ≡ (meaning_taken name is_global meaning (rest_of rest.old)).rest) }
    ensures ended { IfOk result (λ ended. ended ≡ (meaning_taken name is_global meaning (rest_of rest.old)).ended) }
    ensures kept { Keeps rest.old rest.new }
{
    set(rest, is_global, key_of(name), Val::Means(meaning))?;
    value_over(rest)
}

/// The register that a control sequence stands for.
#[tactic(auto, unfolding(crate::specs::Values::register_name_taken))]
fn register_name_taken(
    rest: &mut Rest,
    kind: RegisterKind,
    name: Token,
    is_global: bool,
    number: i32,
) -> Result<Ended, AllocError>
    ensures rest { OnOk result (rest_of rest.new ≡ (register_name_taken kind name is_global number (rest_of rest.old)).rest) }
    ensures ended { IfOk result (λ ended. ended ≡ (register_name_taken kind name is_global number (rest_of rest.old)).ended) }
    ensures kept { Keeps rest.old rest.new }
{
    let meaning = Meaning::Register {
        kind,
        number: number_within(number, 32767),
    };
    let ended = meaning_taken(rest, name, is_global, meaning)?;
    checked(rest.alloc(), number, 32767, b"Bad register code", ended)
}

/// The number of a register that arithmetic changes.
#[tactic(auto, unfolding(crate::specs::Values::changed_taken))]
fn changed_taken(
    alloc: Global,
    by: etx_prims::ArithmeticKind,
    kind: RegisterKind,
    is_global: bool,
    number: i32,
) -> Result<Ended, AllocError>
    ensures { IfOk result (λ ended. ended ≡ changed_taken by kind is_global number) }
{
    let key = Key::Register {
        kind,
        number: number_within(number, 32767),
    };
    let scan = by_scan(by, key, is_global);
    checked(alloc, number, 32767, b"Bad register code", more(scan))
}

/// The number of a token register whose list is taken.
#[tactic(auto, unfolding(crate::specs::Values::list_of_taken))]
fn list_of_taken(
    rest: &mut Rest,
    key: Key,
    is_global: bool,
    number: i32,
) -> Result<Ended, AllocError>
    ensures rest { OnOk result (rest_of rest.new ≡ (list_of_taken key is_global number (rest_of rest.old)).rest) }
    ensures ended { IfOk result (λ ended. ended ≡ (list_of_taken key is_global number (rest_of rest.old)).ended) }
    ensures kept { Keeps rest.old rest.new }
{
    let from = Key::Register {
        kind: RegisterKind::Toks,
        number: number_within(number, 32767),
    };
    let tokens = rest.tokens(from)?;
    set_fitting(rest, is_global, key, Val::Tokens(tokens))?;
    let ended = value_over(rest)?;
    checked(rest.alloc(), number, 32767, b"Bad register code", ended)
}

/// A line for each number that assignments take.
#[tactic(auto, unfolding(crate::specs::Values::number_taken))]
pub(crate) fn number_taken(
    rest: &mut Rest,
    finish: AssignNumber,
    amount: Quantity,
) -> Result<Ended, AllocError>
    ensures rest { OnOk result (rest_of rest.new ≡ (number_taken finish amount (rest_of rest.old)).rest) }
    ensures ended { IfOk result (λ ended. ended ≡ (number_taken finish amount (rest_of rest.old)).ended) }
    ensures kept { Keeps rest.old rest.new }
{
    let number = amount_in(amount);
    match finish {
        AssignNumber::Register {
            kind,
            is_global,
            reader,
        } => register_taken(rest.alloc(), kind, reader, is_global, number),
        AssignNumber::CodeOf { kind, is_global } => {
            code_of_taken(rest.alloc(), kind, is_global, number)
        }
        AssignNumber::Code {
            kind,
            code,
            is_global,
        } => code_taken(rest, kind, code, is_global, number),
        AssignNumber::Value { key, is_global } => value_taken(rest, key, is_global, amount),
        AssignNumber::Character {
            kind,
            name,
            is_global,
        } => character_taken(rest, kind, name, is_global, number),
        AssignNumber::RegisterName {
            kind,
            name,
            is_global,
        } => register_name_taken(rest, kind, name, is_global, number),
        AssignNumber::Changed {
            by,
            kind,
            is_global,
        } => changed_taken(rest.alloc(), by, kind, is_global, number),
        AssignNumber::Change { by, key, is_global } => {
            change_taken(rest, by, key, is_global, amount)
        }
        AssignNumber::ListOf { key, is_global } => list_of_taken(rest, key, is_global, number),
    }
}

/// An assignment is over that changes nothing, with an error.
pub(crate) fn overflow(rest: &mut Rest) -> Result<Ended, AllocError>
    ensures rest { OnOk result (rest_of rest.new ≡ (overflow (over (rest_of rest.old))).rest) }
    ensures ended { IfOk result (λ ended. ended ≡ (overflow (over (rest_of rest.old))).ended) }
    ensures kept { Keeps rest.old rest.new }
{
    let ended = value_over(rest)?;
    let text = Bytes::from_slice(rest.alloc(), b"Arithmetic overflow")?;
    failing(rest.alloc(), text, ended)
}
