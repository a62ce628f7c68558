//! The body of a definition.
ghost use Rattle.std.specs.Prelude.{◌≡◌, ◌+◌, ◌++◌, ◌∷◌, [], None, length, OnOk, IfOk};
ghost use Rattle.etx_macros.specs.Marks.{brace_of};
ghost use Rattle.etx_state.specs.Rests.{rest_of, Keeps};
ghost use Rattle.etx_assign.specs.Definitions.{mark_of, body_goes_on, body_or_mark, body_by, is_parameter, parameter_in, number_refused, parameter_by, behind_mark_in_body, body_row};

use crate::definition::{definition_over, in_body, mark_of};
use crate::parameters::with_mark;
use etx_answers::{Move, Plan, fails_back, push_name, quiet};
use etx_lists::Bytes;
use etx_macros::{Brace, brace_of};
use etx_matter::{Boxed, Token};
use etx_state::{Definition, Meaning, Rest};
use std::alloc::AllocError;

/// The body has one token more, and so many braces are open in it.
fn push_token(definition: &mut Definition, depth: u32, token: Token) -> Result<(), AllocError>
    ensures { OnOk result (definition.new ≡ record definition.old { depth = depth; body = definition.old.body ++ token ∷ []; mark = None }) }
{
    definition.body.push(token)?;
    definition.depth = depth;
    definition.mark = None;
    Ok(())
}

/// The body goes on with one token more.
fn body_goes_on(
    depth: u32,
    mut definition: Boxed<Definition>,
    token: Token,
) -> Result<Move, AllocError>
    ensures { IfOk result (λ go. go ≡ body_goes_on depth definition token) }
{
    push_token(definition.get_mut(), depth, token)?;
    Ok(Move::Copied(in_body(definition)))
}

/// A token that is copied, or that marks a parameter.
fn body_or_mark(
    definition: Boxed<Definition>,
    code: Option<u8>,
    token: Token,
) -> Result<Move, AllocError>
    ensures { IfOk result (λ go. go ≡ body_or_mark code definition token) }
{
    match code {
        Some(code) => Ok(Move::Stay(in_body(with_mark(definition, token, code)))),
        None => body_goes_on(definition.get().depth, definition, token),
    }
}

/// A right brace: the one that has no partner in the body ends it.
fn right_brace(
    rest: &mut Rest,
    definition: Boxed<Definition>,
    token: Token,
    meaning: &Meaning,
) -> Result<Plan, AllocError>
    ensures rest { OnOk result (rest_of rest.new ≡ (body_by Brace.Right definition token meaning.now (rest_of rest.old)).rest) }
    ensures plan { IfOk result (λ plan. plan ≡ (body_by Brace.Right definition token meaning.now (rest_of rest.old)).plan) }
    ensures kept { Keeps rest.old rest.new }
{
    let _meaning = meaning;
    let depth = definition.get().depth;
    if depth == 0 {
        definition_over(rest, definition)
    } else {
        Ok(quiet(body_goes_on(depth - 1, definition, token)?))
    }
}

/// A left brace. More open braces than 32 bits count have no room in any memory.
fn left_brace(definition: Boxed<Definition>, token: Token) -> Result<Move, AllocError>
    ensures { IfOk result (λ go. go ≡ body_goes_on (definition.depth + 1) definition token) }
{
    match definition.get().depth.checked_add(1) {
        Some(depth) => body_goes_on(depth, definition, token),
        None => Err(AllocError),
    }
}

/// A token that stands behind no character of category 6.
fn body_by(
    rest: &mut Rest,
    definition: Boxed<Definition>,
    token: Token,
    meaning: &Meaning,
) -> Result<Plan, AllocError>
    ensures rest { OnOk result (rest_of rest.new ≡ (body_by (brace_of token) definition token meaning.now (rest_of rest.old)).rest) }
    ensures plan { IfOk result (λ plan. plan ≡ (body_by (brace_of token) definition token meaning.now (rest_of rest.old)).plan) }
    ensures kept { Keeps rest.old rest.new }
{
    match brace_of(token) {
        Brace::Left => Ok(quiet(left_brace(definition, token)?)),
        Brace::Right => right_brace(rest, definition, token, meaning),
        Brace::Neither => Ok(quiet(body_or_mark(definition, mark_of(meaning), token)?)),
    }
}

/// Whether a character's code is the digit of one of the first `count` parameters.
fn is_parameter(count: usize, code: u8) -> bool
    ensures { result ≡ is_parameter count code }
{
    code >= 49 && usize::from(code) - 48 <= count
}

/// The number of a parameter that the definition has.
fn parameter_in(count: usize, token: Token) -> Option<u8>
    ensures { result ≡ parameter_in count token }
{
    match token {
        Token::Char { code, cat } => {
            if cat == 12 && is_parameter(count, code) {
                Some(code - 48)
            } else {
                None
            }
        }
        Token::Name(_) => None,
        Token::Param(_) => None,
    }
}

/// The character of category 6 is copied.
fn push_mark(definition: &mut Definition, mark: Token) -> Result<(), AllocError>
    ensures { OnOk result (definition.new ≡ record definition.old { body = definition.old.body ++ mark ∷ []; mark = None }) }
{
    definition.body.push(mark)?;
    definition.mark = None;
    Ok(())
}

/// No parameter's number stands behind a character of category 6: that character is copied, and the token read again.
fn number_refused(
    rest: &Rest,
    mut definition: Boxed<Definition>,
    mark: Token,
) -> Result<Plan, AllocError>
    ensures { IfOk result (λ plan. plan ≡ number_refused definition mark (rest_of rest.now)) }
{
    let mut text = Bytes::from_slice(rest.alloc(), b"Illegal parameter number in definition of ")?;
    push_name(rest, &mut text, definition.get().name)?;
    push_mark(definition.get_mut(), mark)?;
    fails_back(
        rest.alloc(),
        text.as_slice(),
        Move::Stay(in_body(definition)),
    )
}

/// The number of a parameter stands for the parameter.
fn parameter_by(
    rest: &Rest,
    number: Option<u8>,
    definition: Boxed<Definition>,
    mark: Token,
) -> Result<Plan, AllocError>
    ensures { IfOk result (λ plan. plan ≡ parameter_by number definition mark (rest_of rest.now)) }
{
    match number {
        Some(number) => {
            let depth = definition.get().depth;
            Ok(quiet(body_goes_on(depth, definition, Token::Param(number))?))
        }
        None => number_refused(rest, definition, mark),
    }
}

/// A token behind a character of category 6.
fn behind_mark_in_body(
    rest: &Rest,
    code: Option<u8>,
    definition: Boxed<Definition>,
    mark: Token,
    token: Token,
) -> Result<Plan, AllocError>
    ensures { IfOk result (λ plan. plan ≡ behind_mark_in_body code definition mark token (rest_of rest.now)) }
{
    match code {
        Some(_) => {
            let depth = definition.get().depth;
            Ok(quiet(body_goes_on(depth, definition, token)?))
        }
        None => {
            let number = parameter_in(definition.get().marks.len(), token);
            parameter_by(rest, number, definition, mark)
        }
    }
}

/// A token of a body.
#[tactic(auto, unfolding(crate::specs::Definitions::body_row))]
pub(crate) fn body_row(
    rest: &mut Rest,
    definition: Boxed<Definition>,
    token: Token,
    meaning: &Meaning,
) -> Result<Plan, AllocError>
    ensures rest { OnOk result (rest_of rest.new ≡ (body_row definition token meaning.now (rest_of rest.old)).rest) }
    ensures plan { IfOk result (λ plan. plan ≡ (body_row definition token meaning.now (rest_of rest.old)).plan) }
    ensures kept { Keeps rest.old rest.new }
{
    match definition.get().mark {
        None => body_by(rest, definition, token, meaning),
        Some(mark) => behind_mark_in_body(rest, mark_of(meaning), definition, mark.token, token),
    }
}
