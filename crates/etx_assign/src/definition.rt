//! The end of a definition: the macro that it makes.
ghost use Rattle.std.specs.Prelude.{◌≡◌, OnOk, IfOk};
ghost use Rattle.etx_macros.specs.OpenPatterns.{ended_with};
ghost use Rattle.etx_state.specs.Rests.{rest_of, Keeps};
ghost use Rattle.etx_assign.specs.Definitions.{macro_of, defined, definition_over, without_body, definition_failed, mark_of, in_params, in_body};

use crate::assignment::{key_of, over, scan_over, set, used};
use etx_answers::{Did, Failure, Plan};
use etx_lists::Bytes;
use etx_matter::{Boxed, SharedTokens, Token, Tokens};
use etx_state::{AssignScan, Definition, Macro, Meaning, Rest, Scan, Val};
use std::alloc::{AllocError, Global};

/// The code of a character of category 6, if a token means one.
pub(crate) fn mark_of(meaning: &Meaning) -> Option<u8>
    ensures { result ≡ mark_of meaning.now }
{
    match meaning {
        Meaning::Char { code, cat } => { if *cat == 6 { Some(*code) } else { None } }
        Meaning::Undefined => None,
        Meaning::Primitive(_) => None,
        Meaning::Macro(_) => None,
        Meaning::CharGiven(_) => None,
        Meaning::MathGiven(_) => None,
        Meaning::Register { .. } => None,
        Meaning::Unexpanded => None,
        Meaning::EndTemplate => None,
    }
}

/// The definition goes on with its parameter text.
pub(crate) fn in_params(definition: Boxed<Definition>) -> Scan
    ensures { result ≡ in_params definition }
{
    Scan::Assign(AssignScan::Params(definition))
}

/// The definition goes on with its body.
pub(crate) fn in_body(definition: Boxed<Definition>) -> Scan
    ensures { result ≡ in_body definition }
{
    Scan::Assign(AssignScan::Body(definition))
}

/// The brace that ended the parameter text ends the body too.
fn ended_with(brace: Option<Token>, mut tokens: Tokens) -> Result<Tokens, AllocError>
    ensures { IfOk result (λ it. it ≡ ended_with brace tokens) }
{
    match brace {
        None => Ok(tokens),
        Some(brace) => {
            tokens.push(brace)?;
            Ok(tokens)
        }
    }
}

/// The macro that a definition makes.
fn macro_of(alloc: Global, definition: Definition) -> Result<Macro, AllocError>
    ensures { IfOk result (λ it. it ≡ macro_of definition) }
{
    let Definition {
        prefixes,
        is_expanded: _,
        name: _,
        pattern,
        marks,
        depth: _,
        body,
        mark: _,
    } = definition;
    let body = ended_with(pattern.brace(), body)?;
    let pattern = pattern.close(alloc)?;
    let body = SharedTokens::new(alloc, body)?;
    Macro::new(
        alloc,
        pattern,
        marks,
        body,
        prefixes.is_long,
        prefixes.is_outer,
        prefixes.is_protected,
    )
}

/// Makes the macro, and gives the control sequence its meaning.
#[tactic(auto, unfolding(crate::specs::Definitions::defined))]
fn define(rest: &mut Rest, definition: Definition) -> Result<(), AllocError>
    ensures rest { OnOk result (rest_of rest.new ≡ defined definition (rest_of rest.old)) }
    ensures kept { Keeps rest.old rest.new }
{
    let is_global = definition.prefixes.is_global;
    let key = key_of(definition.name);
    let made = macro_of(rest.alloc(), definition)?;
    set(rest, is_global, key, Val::Means(Meaning::Macro(made)))
}

/// A definition is over.
#[tactic(auto, unfolding(crate::specs::Definitions::definition_over))]
pub(crate) fn definition_over(
    rest: &mut Rest,
    definition: Boxed<Definition>,
) -> Result<Plan, AllocError>
    ensures rest { OnOk result (rest_of rest.new ≡ (definition_over definition (rest_of rest.old)).rest) }
    ensures plan { IfOk result (λ plan. plan ≡ (definition_over definition (rest_of rest.old)).plan) }
    ensures kept { Keeps rest.old rest.new }
{
    define(rest, definition.into_inner())?;
    scan_over(rest)
}

/// The error about a body that is missing, behind which this token is read.
fn without_body(alloc: Global, kept: Option<Token>) -> Result<Plan, AllocError>
    ensures { IfOk result (λ plan. plan ≡ without_body kept) }
{
    let text = Bytes::from_slice(alloc, b"Missing { inserted")?;
    let failure = Failure {
        text,
        is_back: false,
        inserted: kept,
    };
    Ok(Plan {
        go: used(),
        did: Did::Error(Boxed::new(alloc, failure)?),
    })
}

/// A right brace stands where a body should begin: the body is empty, with an error.
#[tactic(auto, unfolding(crate::specs::Definitions::definition_failed))]
pub(crate) fn definition_failed(
    rest: &mut Rest,
    definition: Boxed<Definition>,
) -> Result<Plan, AllocError>
    ensures rest { OnOk result (rest_of rest.new ≡ (definition_failed definition (rest_of rest.old)).rest) }
    ensures plan { IfOk result (λ plan. plan ≡ (definition_failed definition (rest_of rest.old)).plan) }
    ensures kept { Keeps rest.old rest.new }
{
    define(rest, definition.into_inner())?;
    let kept = over(rest)?;
    without_body(rest.alloc(), kept)
}
