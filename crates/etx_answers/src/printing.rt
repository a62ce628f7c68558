//! How characters, names and tokens are printed.
ghost use Rattle.std.specs.Prelude.{◌≡◌, ◌<◌, ◌++◌, [], ◌∷◌, ◌==◌, if◌then◌else◌, MatchOption, OnOk, IfOk};
ghost use Rattle.etx_state.specs.Frozen.{frozen_of};
ghost use Rattle.etx_state.specs.Rests.{rest_of};
ghost use Rattle.etx_answers.specs.Printing.{hex_digit, shown_character, character_in, printed_character, printed, escape_in, frozen_or_inaccessible, name_text, escaped, parameter_text, spelled, space_behind, token_text, tokens_text, said_text, shown_name, character_token, character_tokens};

use etx_lists::Bytes;
use etx_matter::{NameId, Token, Tokens};
use etx_prims::IntParam;
use etx_state::{Frozen, Rest};
use std::alloc::{AllocError, Global};

fn hex_digit(number: u8) -> u8
    requires { number < 16 }
    ensures { result ≡ hex_digit number }
{
    if number < 10 {
        number + 48
    } else {
        number + 87
    }
}

/// Shows a character behind these bytes: a visible one as it is, and any other by the front that stands for it.
#[tactic(auto, unfolding(crate::specs::Printing::shown_character))]
fn show_character(bytes: &mut Bytes, code: u8) -> Result<(), AllocError>
    ensures { OnOk result (bytes.new ≡ bytes.old ++ shown_character code) }
{
    if code < 32 {
        bytes.extend_from_slice(&[94, 94, code + 64])?;
    } else if code < 127 {
        bytes.push(code)?;
    } else if code < 128 {
        bytes.extend_from_slice(&[94, 94, code - 64])?;
    } else {
        bytes.extend_from_slice(&[94, 94, hex_digit(code / 16), hex_digit(code % 16)])?;
    }
    Ok(())
}

/// The character of this code, if there is one.
#[tactic(auto, unfolding(etx_lexer::specs::Places::end_of_line))]
fn character_of(code: i32) -> Option<u8>
    ensures { MatchOption result (character_in code ≡ []) (λ c. character_in code ≡ c ∷ []) }
{
    if code >= 0 && code < 256 {
        Some(code as u8)
    } else {
        None
    }
}

/// Prints a character behind these bytes: the character of `\newlinechar` begins a new line.
#[tactic(auto, unfolding(crate::specs::Printing::printed_character))]
fn print_character(rest: &Rest, bytes: &mut Bytes, code: u8) -> Result<(), AllocError>
    ensures { OnOk result (bytes.new ≡ bytes.old ++ printed_character (rest_of rest.now).values code) }
{
    match character_of(rest.int(IntParam::NewLineChar)) {
        None => show_character(bytes, code),
        Some(new_line) => {
            if code == new_line {
                bytes.push(10)?;
                Ok(())
            } else {
                show_character(bytes, code)
            }
        }
    }
}

/// Prints these characters behind these bytes. After an `Err` some may have been added.
pub fn push_printed(rest: &Rest, bytes: &mut Bytes, text: &[u8]) -> Result<(), AllocError>
    ensures { OnOk result (bytes.new ≡ bytes.old ++ printed (rest_of rest.now).values text.now) }
{
    for code in text {
        print_character(rest, bytes, *code)?;
    }
    Ok(())
}

/// The escape character, if there is one.
pub(crate) fn push_escape(rest: &Rest, bytes: &mut Bytes) -> Result<(), AllocError>
    ensures { OnOk result (bytes.new ≡ bytes.old ++ escape_in (rest_of rest.now).values) }
{
    match character_of(rest.int(IntParam::EscapeChar)) {
        None => Ok(()),
        Some(escape) => {
            bytes.push(escape)?;
            Ok(())
        }
    }
}

/// The escape character and a word.
pub(crate) fn push_word(rest: &Rest, bytes: &mut Bytes, word: &[u8]) -> Result<(), AllocError>
    ensures { OnOk result (bytes.new ≡ bytes.old ++ (escape_in (rest_of rest.now).values ++ word.now)) }
{
    push_escape(rest, bytes)?;
    bytes.extend_from_slice(word)?;
    Ok(())
}

/// Adds a command's name as errors show it: the escape character and the name, printed. After an `Err` some of it may have
/// been added.
pub fn push_escaped(rest: &Rest, bytes: &mut Bytes, name: &[u8]) -> Result<(), AllocError>
    ensures { OnOk result (bytes.new ≡ bytes.old ++ printed (rest_of rest.now).values (escape_in (rest_of rest.now).values ++ name.now)) }
{
    let mut text = Bytes::new(rest.alloc());
    push_word(rest, &mut text, name)?;
    push_printed(rest, bytes, text.as_slice())
}

/// The characters of a name: the escape character and the name. The empty name is that of `\csname\endcsname`.
fn push_name_text(rest: &Rest, bytes: &mut Bytes, name: &[u8]) -> Result<(), AllocError>
    ensures { OnOk result (bytes.new ≡ bytes.old ++ escaped (rest_of rest.now).values name.now) }
{
    if name.is_empty() {
        push_word(rest, bytes, b"csname")?;
        push_word(rest, bytes, b"endcsname")
    } else {
        push_word(rest, bytes, name)
    }
}

/// The text of a control sequence that no text names.
fn text_of_frozen(name: NameId) -> &'static [u8]
    ensures { result.now ≡ frozen_or_inaccessible (frozen_of name.0) }
{
    match Frozen::of(name) {
        Some(it) => it.text(),
        None => b"inaccessible",
    }
}

/// The text of a name. A name that no text names has the text of its kind.
fn text_of(rest: &Rest, name: NameId) -> &[u8]
    ensures { result.now ≡ name_text (rest_of rest.now).names name.0 }
{
    match rest.name_text(name) {
        Some(text) => text,
        None => text_of_frozen(name),
    }
}

/// A parameter; a number that no parameter has is shown by an exclamation mark.
fn push_parameter(bytes: &mut Bytes, mark: u8, number: u8) -> Result<(), AllocError>
    ensures { OnOk result (bytes.new ≡ bytes.old ++ parameter_text mark number) }
{
    let digit = if number < 10 { 48 + number } else { 33 };
    bytes.extend_from_slice(&[mark, digit])?;
    Ok(())
}

/// A token's own characters, as `\string` has them.
#[tactic(auto, unfolding(crate::specs::Printing::spelled))]
pub fn spell(rest: &Rest, bytes: &mut Bytes, token: Token) -> Result<(), AllocError>
    ensures { OnOk result (bytes.new ≡ bytes.old ++ spelled (rest_of rest.now) token) }
{
    match token {
        Token::Char { code, .. } => {
            bytes.push(code)?;
            Ok(())
        }
        Token::Name(name) => push_name_text(rest, bytes, text_of(rest, name)),
        Token::Param(number) => push_parameter(bytes, 35, number),
    }
}

/// The space behind a name in a text, which a name of one character that is no letter doesn't have.
fn push_space(rest: &Rest, bytes: &mut Bytes, name: &[u8]) -> Result<(), AllocError>
    ensures { OnOk result (bytes.new ≡ bytes.old ++ space_behind (rest_of rest.now).values name.now) }
{
    if name.len() == 1 && rest.category(name[0]) != 11 {
        return Ok(());
    }
    bytes.push(32)?;
    Ok(())
}

/// A character in a text. That of a parameter is doubled.
fn push_character(bytes: &mut Bytes, code: u8, cat: u8) -> Result<(), AllocError>
    ensures { OnOk result (bytes.new ≡ bytes.old ++ (if cat == 6 then code ∷ code ∷ [] else code ∷ [])) }
{
    if cat == 6 {
        bytes.extend_from_slice(&[code, code])?;
    } else {
        bytes.push(code)?;
    }
    Ok(())
}

/// A name in a text.
fn push_name_in_text(rest: &Rest, bytes: &mut Bytes, name: &[u8]) -> Result<(), AllocError>
    ensures { OnOk result (bytes.new ≡ bytes.old ++ (escaped (rest_of rest.now).values name.now ++ space_behind (rest_of rest.now).values name.now)) }
{
    push_name_text(rest, bytes, name)?;
    push_space(rest, bytes, name)
}

/// A token in a text, where parameters are shown by this mark.
#[tactic(auto, unfolding(crate::specs::Printing::token_text))]
pub(crate) fn push_token(
    rest: &Rest,
    bytes: &mut Bytes,
    mark: u8,
    token: Token,
) -> Result<(), AllocError>
    ensures { OnOk result (bytes.new ≡ bytes.old ++ token_text (rest_of rest.now) mark token) }
{
    match token {
        Token::Char { code, cat } => push_character(bytes, code, cat),
        Token::Name(name) => push_name_in_text(rest, bytes, text_of(rest, name)),
        Token::Param(number) => push_parameter(bytes, mark, number),
    }
}

/// The characters of a text.
pub fn text_of_tokens(rest: &Rest, tokens: &[Token]) -> Result<Bytes, AllocError>
    ensures { IfOk result (λ it. it ≡ tokens_text (rest_of rest.now) tokens.now) }
{
    let mut bytes = Bytes::new(rest.alloc());
    for token in tokens {
        push_token(rest, &mut bytes, 35, *token)?;
    }
    Ok(bytes)
}

/// A text as `\message` says it.
#[tactic(auto, unfolding(crate::specs::Printing::said_text))]
pub fn said_text(rest: &Rest, tokens: &[Token]) -> Result<Bytes, AllocError>
    ensures { IfOk result (λ it. it ≡ said_text (rest_of rest.now) tokens.now) }
{
    let text = text_of_tokens(rest, tokens)?;
    let mut bytes = Bytes::new(rest.alloc());
    push_printed(rest, &mut bytes, text.as_slice())?;
    Ok(bytes)
}

/// Adds a token's name as errors show it. After an `Err` some of it may have been added.
#[tactic(auto, unfolding(crate::specs::Printing::shown_name))]
pub fn push_name(rest: &Rest, bytes: &mut Bytes, token: Token) -> Result<(), AllocError>
    ensures { OnOk result (bytes.new ≡ bytes.old ++ shown_name (rest_of rest.now) token) }
{
    let mut text = Bytes::new(rest.alloc());
    spell(rest, &mut text, token)?;
    push_printed(rest, bytes, text.as_slice())
}

/// A character as a token: a space is a space, and any other is an other character.
fn character_token(code: u8) -> Token
    ensures { result ≡ character_token code }
{
    let cat = if code == 32 { 10 } else { 12 };
    Token::Char { code, cat }
}

/// Characters as tokens.
pub fn character_tokens(alloc: Global, text: &[u8]) -> Result<Tokens, AllocError>
    ensures { IfOk result (λ it. it ≡ character_tokens text.now) }
{
    let mut tokens = Tokens::new(alloc);
    for code in text {
        tokens.push(character_token(*code))?;
    }
    Ok(tokens)
}
