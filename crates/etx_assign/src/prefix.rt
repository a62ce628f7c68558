//! Prefixes, and what an assignment begins.
ghost use Rattle.std.specs.Prelude.{◌≡◌, false, IfOk};
ghost use Rattle.etx_state.specs.Rests.{rest_of};
ghost use Rattle.etx_answers.specs.Printing.{shown_name};
ghost use Rattle.etx_assign.specs.Assignments.{no_prefixes, with_prefix, is_for_definitions, is_assignment, definition_of, follower_of};
ghost use Rattle.etx_answers.specs.Answers.{plan_of};
ghost use Rattle.etx_assign.specs.Assignments.{is_global_in};
ghost use Rattle.etx_assign.specs.Naming.{named, let_begun};
ghost use Rattle.etx_assign.specs.Values.{register_begun};
ghost use Rattle.etx_assign.specs.Prefixes.{register_assigned, prefix_text, shown_primitive, shown_character, def_named, def_begun, left_prefixes, irrelevant, other_begun, assignment_begun, prefix_scan, prefix_refused, prefixed, behind_by, character_behind, prefix_row};

use crate::assignment::{is_global_def_in, is_global_in, used};
use crate::begun::{register_begun, simple_begun};
use etx_answers::{
    Insert, Move, Plan, Push, Start, character_words, fails_back, plan_of, push_escaped,
    push_meaning, push_name, push_printed, quiet, start_fails_back, starting,
};
use etx_lists::Bytes;
use etx_matter::Token;
use etx_prims::{DefKind, LetKind, PrefixKind, Primitive, RegisterKind, name_of};
use etx_state::{AssignScan, Meaning, NameFor, Prefixes, Rest, Scan};
use std::alloc::AllocError;

/// What a command is to the prefixes before it.
#[derive(Clone, Copy, Debug, PartialEq, Eq)]
pub(crate) enum Follower {
    /// `\relax`, which is skipped.
    Nothing,
    /// One prefix more.
    Prefix(PrefixKind),
    /// What they are for, if it takes them.
    Command,
}

/// No prefix.
pub fn no_prefixes() -> Prefixes
    ensures { result ≡ no_prefixes }
{
    Prefixes {
        is_long: false,
        is_outer: false,
        is_protected: false,
        is_global: false,
    }
}

/// One prefix more.
#[tactic(auto, unfolding(crate::specs::Assignments::with_prefix))]
pub fn with_prefix(kind: PrefixKind, prefixes: Prefixes) -> Prefixes
    ensures { result ≡ with_prefix kind prefixes }
{
    match kind {
        PrefixKind::Long => Prefixes {
            is_long: true,
            ..prefixes
        },
        PrefixKind::Outer => Prefixes {
            is_outer: true,
            ..prefixes
        },
        PrefixKind::Protected => Prefixes {
            is_protected: true,
            ..prefixes
        },
        PrefixKind::Global => Prefixes {
            is_global: true,
            ..prefixes
        },
    }
}

fn is_for_definitions(prefixes: Prefixes) -> bool
    ensures { result ≡ is_for_definitions prefixes }
{
    prefixes.is_long || prefixes.is_outer || prefixes.is_protected
}

/// Whether a command takes `\global`.
#[tactic(auto, unfolding(crate::specs::Assignments::is_assignment))]
pub fn is_assignment(primitive: Primitive) -> bool
    ensures { result ≡ is_assignment primitive }
{
    match primitive {
        Primitive::IntParam(_) => true,
        Primitive::DimenParam(_) => true,
        Primitive::GlueParam(_) => true,
        Primitive::MuGlueParam(_) => true,
        Primitive::TokenParam(_) => true,
        Primitive::Register(_) => true,
        Primitive::Code(_) => true,
        Primitive::FontDimen => true,
        Primitive::FontInt(_) => true,
        Primitive::FamilyFont(_) => true,
        Primitive::Font => true,
        Primitive::NullFont => true,
        Primitive::ParShape => true,
        Primitive::BoxDimen(_) => true,
        Primitive::Aux(_) => true,
        Primitive::PrevGraf => true,
        Primitive::PageInt(_) => true,
        Primitive::PageDimen(_) => true,
        Primitive::InteractionMode => true,
        Primitive::Def(_) => true,
        Primitive::Let(_) => true,
        Primitive::CharDef(_) => true,
        Primitive::RegisterDef(_) => true,
        Primitive::Read(_) => true,
        Primitive::SetBox => true,
        Primitive::HyphenData(_) => true,
        Primitive::Arithmetic(_) => true,
        Primitive::Interaction(_) => true,
        _ => false,
    }
}

/// A command's name, in an error.
fn shown_primitive(rest: &Rest, primitive: Primitive) -> Result<Bytes, AllocError>
    ensures { IfOk result (λ text. text ≡ shown_primitive (rest_of rest.now).values primitive) }
{
    let mut text = Bytes::new(rest.alloc());
    push_escaped(rest, &mut text, name_of(primitive))?;
    Ok(text)
}

/// A character, in an error.
fn shown_character(rest: &Rest, code: u8, cat: u8) -> Result<Bytes, AllocError>
    ensures { IfOk result (λ text. text ≡ shown_character (rest_of rest.now).values code cat) }
{
    let mut text = Bytes::from_slice(rest.alloc(), b"`")?;
    text.extend_from_slice(character_words(cat))?;
    push_printed(rest, &mut text, &[code])?;
    text.push(b'\'')?;
    Ok(text)
}

/// A control sequence, in an error.
fn shown_name(rest: &Rest, token: Token) -> Result<Bytes, AllocError>
    ensures { IfOk result (λ text. text ≡ shown_name (rest_of rest.now) token) }
{
    let mut text = Bytes::new(rest.alloc());
    push_name(rest, &mut text, token)?;
    Ok(text)
}

/// The text of the error about a prefix.
fn prefix_text(rest: &Rest, what: Bytes) -> Result<Bytes, AllocError>
    ensures { IfOk result (λ text. text ≡ prefix_text what) }
{
    let mut text = Bytes::from_slice(rest.alloc(), b"You can't use a prefix with ")?;
    text.append(what)?;
    Ok(text)
}

/// What takes no prefix is read again, behind an error.
fn prefix_refused(rest: &Rest, what: Bytes) -> Result<Plan, AllocError>
    ensures { IfOk result (λ plan. plan ≡ prefix_refused what) }
{
    let text = prefix_text(rest, what)?;
    fails_back(rest.alloc(), text.as_slice(), used())
}

/// The control sequence comes next that is defined.
pub(crate) fn named(naming: NameFor) -> Start
    ensures { result ≡ named naming }
{
    starting(Push::Begin(Scan::Assign(AssignScan::Name(naming))))
}

/// What a definition begins, where `always` says that its name makes it global.
fn def_named(rest: &Rest, always: bool, is_expanded: bool, prefixes: Prefixes) -> Start
    ensures { result ≡ def_named always is_expanded prefixes (rest_of rest.now).values }
{
    let is_global = is_global_def_in(rest, prefixes.is_global, always);
    named(NameFor::Def {
        prefixes: Prefixes {
            is_global,
            ..prefixes
        },
        is_expanded,
    })
}

/// What a definition begins.
fn def_begun(rest: &Rest, kind: DefKind, prefixes: Prefixes) -> Start
    ensures { result ≡ def_begun kind prefixes (rest_of rest.now).values }
{
    match kind {
        DefKind::Def => def_named(rest, false, false, prefixes),
        DefKind::GDef => def_named(rest, true, false, prefixes),
        DefKind::EDef => def_named(rest, false, true, prefixes),
        DefKind::XDef => def_named(rest, true, true, prefixes),
    }
}

/// What `\let` or `\futurelet` begins.
pub(crate) fn let_begun(kind: LetKind, is_global: bool) -> Start
    ensures { result ≡ let_begun kind is_global }
{
    match kind {
        LetKind::Let => named(NameFor::Let { is_global }),
        LetKind::FutureLet => named(NameFor::FutureLet { is_global }),
    }
}

/// Prefixes wait for what they are for.
pub fn prefix_scan(prefixes: Prefixes) -> Scan
    ensures { result ≡ prefix_scan prefixes }
{
    Scan::Assign(AssignScan::Prefix(prefixes))
}

/// `\global`, where it is among the prefixes.
fn left_prefixes(is_global: bool) -> Push
    ensures { result ≡ left_prefixes is_global }
{
    if is_global {
        Push::Begin(prefix_scan(Prefixes {
            is_global: true,
            ..no_prefixes()
        }))
    } else {
        Push::Insert(Insert::Nothing)
    }
}

/// The prefixes that only a definition takes are dropped, with an error; the command is read again.
fn irrelevant(rest: &Rest, what: Bytes, prefixes: Prefixes) -> Result<Start, AllocError>
    ensures { IfOk result (λ start. start ≡ irrelevant what prefixes) }
{
    let text = prefix_text(rest, what)?;
    start_fails_back(
        rest.alloc(),
        text.as_slice(),
        left_prefixes(prefixes.is_global),
    )
}

/// What an assignment begins that is no definition.
fn other_begun(
    rest: &Rest,
    primitive: Primitive,
    token: Token,
    prefixes: Prefixes,
) -> Result<Start, AllocError>
    ensures { IfOk result (λ start. start ≡ other_begun primitive token prefixes (rest_of rest.now).values) }
{
    if is_for_definitions(prefixes) {
        let what = shown_primitive(rest, primitive)?;
        irrelevant(rest, what, prefixes)
    } else {
        let is_global = is_global_in(rest, prefixes.is_global);
        simple_begun(rest, primitive, token, is_global)
    }
}

/// The definition that a command is, if it is one.
#[tactic(auto, unfolding(crate::specs::Assignments::definition_of))]
fn definition_of(primitive: Primitive) -> Option<DefKind>
    ensures { result ≡ definition_of primitive }
{
    match primitive {
        Primitive::Def(kind) => Some(kind),
        _ => None,
    }
}

/// What an assignment begins, behind these prefixes. Of the assignments that are to come it ends the job.
#[tactic(auto, unfolding(crate::specs::Prefixes::assignment_begun))]
pub fn begin(
    rest: &Rest,
    primitive: Primitive,
    token: Token,
    prefixes: Prefixes,
) -> Result<Start, AllocError>
    ensures { IfOk result (λ start. start ≡ assignment_begun primitive token prefixes (rest_of rest.now).values) }
{
    match definition_of(primitive) {
        Some(kind) => Ok(def_begun(rest, kind, prefixes)),
        None => other_begun(rest, primitive, token, prefixes),
    }
}

/// An assignment behind prefixes; another command takes none.
fn prefixed(
    rest: &Rest,
    prefixes: Prefixes,
    primitive: Primitive,
    token: Token,
) -> Result<Plan, AllocError>
    ensures { IfOk result (λ plan. plan ≡ prefixed prefixes primitive token (rest_of rest.now).values) }
{
    if is_assignment(primitive) {
        Ok(plan_of(begin(rest, primitive, token, prefixes)?))
    } else {
        let what = shown_primitive(rest, primitive)?;
        prefix_refused(rest, what)
    }
}

/// What a command is to the prefixes before it.
#[tactic(auto, unfolding(crate::specs::Assignments::follower_of))]
fn follower_of(primitive: Primitive) -> Follower
    ensures { result ≡ follower_of primitive }
{
    match primitive {
        Primitive::Relax => Follower::Nothing,
        Primitive::Prefix(kind) => Follower::Prefix(kind),
        _ => Follower::Command,
    }
}

/// A command behind prefixes.
fn behind_by(
    rest: &Rest,
    prefixes: Prefixes,
    primitive: Primitive,
    token: Token,
) -> Result<Plan, AllocError>
    ensures { IfOk result (λ plan. plan ≡ behind_by (follower_of primitive) prefixes primitive token (rest_of rest.now).values) }
{
    match follower_of(primitive) {
        Follower::Nothing => Ok(quiet(Move::Stay(prefix_scan(prefixes)))),
        Follower::Prefix(kind) => Ok(quiet(Move::Stay(prefix_scan(with_prefix(kind, prefixes))))),
        Follower::Command => prefixed(rest, prefixes, primitive, token),
    }
}

/// A character behind prefixes.
fn character_behind(rest: &Rest, prefixes: Prefixes, code: u8, cat: u8) -> Result<Plan, AllocError>
    ensures { IfOk result (λ plan. plan ≡ character_behind prefixes code cat (rest_of rest.now).values) }
{
    if cat == 10 {
        Ok(quiet(Move::Stay(prefix_scan(prefixes))))
    } else {
        let what = shown_character(rest, code, cat)?;
        prefix_refused(rest, what)
    }
}

/// What is no command takes no prefix.
fn name_refused(rest: &Rest, token: Token) -> Result<Plan, AllocError>
    ensures { IfOk result (λ plan. plan ≡ prefix_refused (shown_name (rest_of rest.now) token)) }
{
    let what = shown_name(rest, token)?;
    prefix_refused(rest, what)
}

/// A register that a control sequence stands for, behind prefixes.
fn register_behind(
    rest: &Rest,
    prefixes: Prefixes,
    kind: RegisterKind,
    number: u16,
    token: Token,
) -> Result<Plan, AllocError>
    ensures { IfOk result (λ plan. plan ≡ plan_of (register_assigned kind number token (Meaning.Register kind number) prefixes (rest_of rest.now))) }
{
    if is_for_definitions(prefixes) {
        let meaning = Meaning::Register { kind, number };
        let mut what = Bytes::new(rest.alloc());
        push_meaning(rest, &mut what, token, &meaning)?;
        return Ok(plan_of(irrelevant(rest, what, prefixes)?));
    }
    let is_global = is_global_in(rest, prefixes.is_global);
    Ok(plan_of(register_begun(rest, kind, number, token, is_global)?))
}

/// A register that a control sequence stands for, without prefixes.
pub fn begin_register(
    rest: &Rest,
    kind: RegisterKind,
    number: u16,
    token: Token,
) -> Result<Start, AllocError>
    ensures { IfOk result (λ start. start ≡ register_begun kind number token (is_global_in (rest_of rest.now).values false)) }
{
    let is_global = is_global_in(rest, false);
    register_begun(rest, kind, number, token, is_global)
}

/// A token behind prefixes.
#[tactic(auto, unfolding(crate::specs::Prefixes::prefix_row))]
pub(crate) fn prefix_row(
    rest: &Rest,
    prefixes: Prefixes,
    token: Token,
    meaning: &Meaning,
) -> Result<Plan, AllocError>
    ensures { IfOk result (λ plan. plan ≡ prefix_row prefixes token meaning.now (rest_of rest.now)) }
{
    match meaning {
        Meaning::Char { code, cat } => character_behind(rest, prefixes, *code, *cat),
        Meaning::Primitive(primitive) => behind_by(rest, prefixes, *primitive, token),
        Meaning::Undefined => name_refused(rest, token),
        Meaning::Macro(_) => name_refused(rest, token),
        Meaning::CharGiven(_) => name_refused(rest, token),
        Meaning::MathGiven(_) => name_refused(rest, token),
        Meaning::Register { kind, number } => {
            register_behind(rest, prefixes, *kind, *number, token)
        }
        Meaning::Unexpanded => Ok(quiet(Move::Stay(prefix_scan(prefixes)))),
        Meaning::EndTemplate => name_refused(rest, token),
    }
}
