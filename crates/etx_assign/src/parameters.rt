//! The parameter text of a definition.
ghost use Rattle.std.specs.Prelude.{◌≡◌, ◌≤◌, ◌<◌, Some, None, length, true, OnOk, IfOk};
ghost use Rattle.etx_macros.specs.Marks.{has_category, IsUnbraced};
ghost use Rattle.etx_macros.specs.OpenPatterns.{with_text, with_brace};
ghost use Rattle.etx_state.specs.Rests.{rest_of, Keeps};
ghost use Rattle.etx_assign.specs.Definitions.{with_mark, text_or_mark, params_by, is_digit_token, with_marked, tenth_parameter, numbered_row, parameter_row, behind_mark_by, params_row};
ghost use Rattle.etx_macros.specs.Marks.{brace_of};

use crate::definition::{definition_failed, in_body, in_params, mark_of};
use etx_answers::{Move, Plan, fails, fails_back, quiet};
use etx_macros::{Brace, brace_of};
use etx_matter::{Boxed, Token};
use etx_state::{Definition, Meaning, ParameterMark, Rest};
use std::alloc::{AllocError, Global};

/// The most parameters of a macro.
const MOST_PARAMETERS: usize = 9;

/// A character of category 6 was got last.
pub(crate) fn with_mark(
    mut definition: Boxed<Definition>,
    token: Token,
    code: u8,
) -> Boxed<Definition>
    ensures { result ≡ with_mark token code definition }
{
    definition.get_mut().mark = Some(ParameterMark { token, code });
    definition
}

/// One token more that is to be matched.
fn push_text(definition: &mut Definition, token: Token) -> Result<(), AllocError>
    requires { IsUnbraced token }
    ensures { OnOk result (definition.new ≡ record definition.old { pattern = with_text token definition.old.pattern }) }
{
    definition.pattern.push_text(token)
}

/// A token that is to be matched, or that marks a parameter.
fn text_or_mark(
    mut definition: Boxed<Definition>,
    code: Option<u8>,
    token: Token,
) -> Result<Move, AllocError>
    requires { IsUnbraced token }
    ensures { IfOk result (λ go. go ≡ text_or_mark code definition token) }
{
    match code {
        Some(code) => Ok(Move::Stay(in_params(with_mark(definition, token, code)))),
        None => {
            push_text(definition.get_mut(), token)?;
            Ok(Move::Copied(in_params(definition)))
        }
    }
}

/// A token that stands behind no character of category 6. The first brace ends the text.
fn params_by(
    rest: &mut Rest,
    definition: Boxed<Definition>,
    token: Token,
    meaning: &Meaning,
) -> Result<Plan, AllocError>
    ensures rest { OnOk result (rest_of rest.new ≡ (params_by (brace_of token) definition token meaning.now (rest_of rest.old)).rest) }
    ensures plan { IfOk result (λ plan. plan ≡ (params_by (brace_of token) definition token meaning.now (rest_of rest.old)).plan) }
    ensures kept { Keeps rest.old rest.new }
{
    match brace_of(token) {
        Brace::Left => Ok(quiet(Move::Stay(in_body(definition)))),
        Brace::Right => definition_failed(rest, definition),
        Brace::Neither => Ok(quiet(text_or_mark(definition, mark_of(meaning), token)?)),
    }
}

/// Whether a token is the digit of this number.
fn is_digit_token(number: usize, token: Token) -> bool
    requires { number ≤ 10 }
    ensures { result ≡ is_digit_token number token }
{
    match token {
        Token::Char { code, cat } => usize::from(code) == 48 + number && cat == 12,
        Token::Name(_) => false,
        Token::Param(_) => false,
    }
}

/// One parameter more.
fn push_parameter(alloc: Global, definition: &mut Definition, code: u8) -> Result<(), AllocError>
    ensures { OnOk result (definition.new ≡ with_marked code definition.old) }
{
    definition.pattern.push_parameter(alloc)?;
    definition.marks.push(code)?;
    definition.mark = None;
    Ok(())
}

/// A tenth parameter is dropped, with the token behind its character.
fn tenth_parameter(alloc: Global, mut definition: Boxed<Definition>) -> Result<Plan, AllocError>
    ensures { IfOk result (λ plan. plan ≡ tenth_parameter definition) }
{
    definition.get_mut().mark = None;
    let text = b"You already have nine parameters";
    fails(alloc, text, Move::Stay(in_params(definition)))
}

/// One parameter more, whose number this token should be.
fn numbered_row(
    alloc: Global,
    code: u8,
    mut definition: Boxed<Definition>,
    token: Token,
) -> Result<Plan, AllocError>
    requires { length definition.marks < 9 }
    ensures { IfOk result (λ plan. plan ≡ numbered_row code definition token) }
{
    let is_next = is_digit_token(definition.get().marks.len() + 1, token);
    push_parameter(alloc, definition.get_mut(), code)?;
    if is_next {
        Ok(quiet(Move::Copied(in_params(definition))))
    } else {
        let text = b"Parameters must be numbered consecutively";
        fails_back(alloc, text, Move::Stay(in_params(definition)))
    }
}

fn parameter_row(
    alloc: Global,
    code: u8,
    definition: Boxed<Definition>,
    token: Token,
) -> Result<Plan, AllocError>
    ensures { IfOk result (λ plan. plan ≡ parameter_row code definition token) }
{
    if MOST_PARAMETERS <= definition.get().marks.len() {
        tenth_parameter(alloc, definition)
    } else {
        numbered_row(alloc, code, definition, token)
    }
}

/// A left brace behind a character of category 6 ends the text.
fn end_by_brace(definition: &mut Definition, token: Token)
    requires { has_category token 1 ≡ true }
    ensures { definition.new ≡ record definition.old { pattern = with_brace token definition.old.pattern; mark = None } }
{
    definition.pattern.end_by(token);
    definition.mark = None;
}

/// A token behind a character of category 6.
fn behind_mark_by(
    alloc: Global,
    code: u8,
    mut definition: Boxed<Definition>,
    token: Token,
) -> Result<Plan, AllocError>
    ensures { IfOk result (λ plan. plan ≡ behind_mark_by (brace_of token) code definition token) }
{
    match brace_of(token) {
        Brace::Left => {
            end_by_brace(definition.get_mut(), token);
            Ok(quiet(Move::Copied(in_body(definition))))
        }
        Brace::Right => parameter_row(alloc, code, definition, token),
        Brace::Neither => parameter_row(alloc, code, definition, token),
    }
}

/// A token of a parameter text.
#[tactic(auto, unfolding(crate::specs::Definitions::params_row))]
pub(crate) fn params_row(
    rest: &mut Rest,
    definition: Boxed<Definition>,
    token: Token,
    meaning: &Meaning,
) -> Result<Plan, AllocError>
    ensures rest { OnOk result (rest_of rest.new ≡ (params_row definition token meaning.now (rest_of rest.old)).rest) }
    ensures plan { IfOk result (λ plan. plan ≡ (params_row definition token meaning.now (rest_of rest.old)).plan) }
    ensures kept { Keeps rest.old rest.new }
{
    match definition.get().mark {
        None => params_by(rest, definition, token, meaning),
        Some(mark) => behind_mark_by(rest.alloc(), mark.code, definition, token),
    }
}
