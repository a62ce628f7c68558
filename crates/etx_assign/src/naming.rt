//! The control sequence that is defined.
ghost use Rattle.std.specs.Prelude.{◌≡◌, IfOk, OnOk};
ghost use Rattle.etx_state.specs.Rests.{Keeps, rest_of};
ghost use Rattle.etx_assign.specs.Definitions.{relaxed, target_of, inaccessible, definition_of, behind_name, name_row};

use crate::assignment::{key_of, set};
use crate::begun::number_scan;
use etx_answers::{Move, Plan, fails_back, quiet};
use etx_lists::Bytes;
use etx_macros::OpenPattern;
use etx_matter::{Boxed, FROZEN_INACCESSIBLE, Token, Tokens};
use etx_numbers::INTEGER;
use etx_prims::Primitive;
use etx_state::{
    AssignNumber, AssignScan, Definition, Meaning, NameFor, NumberScan, Prefixes, Rest, Scan, Val,
};
use std::alloc::{AllocError, Global};

/// What a token is where a control sequence is to be defined.
#[derive(Clone, Copy, Debug, PartialEq, Eq)]
pub(crate) enum Target {
    /// A space as the lexer makes it, which is skipped.
    Blank,
    /// A control sequence, which an active character is too.
    Given,
    /// No control sequence.
    Missing,
}

#[tactic(auto, unfolding(crate::specs::Definitions::target_of))]
fn target_of(token: Token) -> Target
    ensures { result ≡ target_of token }
{
    match token {
        Token::Char { code, cat } => {
            if code == 32 && cat == 10 {
                Target::Blank
            } else if cat == 13 {
                Target::Given
            } else {
                Target::Missing
            }
        }
        Token::Name(_) => Target::Given,
        Token::Param(_) => Target::Missing,
    }
}

/// The control sequence that takes what the source names no other for.
fn inaccessible() -> Token
    ensures { result ≡ inaccessible }
{
    Token::Name(FROZEN_INACCESSIBLE)
}

/// A definition of which only the control sequence was read.
fn definition_of(alloc: Global, prefixes: Prefixes, is_expanded: bool, name: Token) -> Definition
    ensures { result ≡ definition_of prefixes is_expanded name }
{
    Definition {
        prefixes,
        is_expanded,
        name,
        pattern: OpenPattern::new(alloc),
        marks: Bytes::new(alloc),
        depth: 0,
        body: Tokens::new(alloc),
        mark: None,
    }
}

/// A control sequence that is to stand for a character or a register means `\relax` at first ("TeX: The Program", section 1224).
fn relaxed(rest: &mut Rest, is_global: bool, name: Token) -> Result<(), AllocError>
    ensures rest { OnOk result (rest_of rest.new ≡ relaxed is_global name (rest_of rest.old)) }
    ensures kept { Keeps rest.old rest.new }
{
    let relax = Val::Means(Meaning::Primitive(Primitive::Relax));
    set(rest, is_global, key_of(name), relax)
}

/// What comes behind the control sequence.
#[tactic(auto, unfolding(crate::specs::Definitions::behind_name))]
fn behind_name(rest: &mut Rest, naming: NameFor, name: Token) -> Result<Scan, AllocError>
    ensures rest { OnOk result (rest_of rest.new ≡ (behind_name naming name (rest_of rest.old)).rest) }
    ensures scan { IfOk result (λ scan. scan ≡ (behind_name naming name (rest_of rest.old)).scan) }
    ensures kept { Keeps rest.old rest.new }
{
    let alloc = rest.alloc();
    match naming {
        NameFor::Def {
            prefixes,
            is_expanded,
        } => {
            let definition = definition_of(alloc, prefixes, is_expanded, name);
            let definition = Boxed::new(alloc, definition)?;
            Ok(Scan::Assign(AssignScan::Params(definition)))
        }
        NameFor::Let { is_global } => {
            Ok(Scan::Assign(AssignScan::LetEquals { is_global, name }))
        }
        NameFor::FutureLet { is_global } => {
            Ok(Scan::Assign(AssignScan::FutureFirst { is_global, name }))
        }
        NameFor::CharDef { kind, is_global } => {
            relaxed(rest, is_global, name)?;
            let finish = AssignNumber::Character {
                kind,
                name,
                is_global,
            };
            number_scan(alloc, NumberScan::Equals(INTEGER), finish)
        }
        NameFor::RegisterDef { kind, is_global } => {
            relaxed(rest, is_global, name)?;
            let finish = AssignNumber::RegisterName {
                kind,
                name,
                is_global,
            };
            number_scan(alloc, NumberScan::Equals(INTEGER), finish)
        }
    }
}

/// A token where a control sequence is to be defined. Spaces are skipped.
#[tactic(auto, unfolding(crate::specs::Definitions::name_row))]
pub(crate) fn name_row(rest: &mut Rest, naming: NameFor, token: Token) -> Result<Plan, AllocError>
    ensures rest { OnOk result (rest_of rest.new ≡ (name_row naming token (rest_of rest.old)).rest) }
    ensures plan { IfOk result (λ plan. plan ≡ (name_row naming token (rest_of rest.old)).plan) }
    ensures kept { Keeps rest.old rest.new }
{
    match target_of(token) {
        Target::Blank => Ok(quiet(Move::Stay(Scan::Assign(AssignScan::Name(naming))))),
        Target::Given => {
            let scan = behind_name(rest, naming, token)?;
            Ok(quiet(Move::Begin(scan)))
        }
        Target::Missing => {
            let scan = behind_name(rest, naming, inaccessible())?;
            let text = b"Missing control sequence inserted";
            fails_back(rest.alloc(), text, Move::Begin(scan))
        }
    }
}
