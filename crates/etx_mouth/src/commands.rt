//! The rows of main control: what each command begins in vertical mode, and what it does with a text.
ghost use Rattle.std.specs.Prelude.{◌≡◌, ◌++◌, OnOk, IfOk};
ghost use Rattle.etx_state.specs.Rests.{rest_of, Keeps};
ghost use Rattle.etx_answers.specs.Answers.{nothing, start_fails};
ghost use Rattle.etx_mouth.specs.Commands.{group_begun, group_ended, naming, right_brace_row, missing_brace, end_group_row, group_row, character_row, after_row, message_row, other_row, command_of, command_begun, primitive_row, command_row, text_taken};

use etx_answers::{
    Did, Ended, Expandable, Push, Start, Then, insert_tokens, nothing, push_escaped, said_text,
    start_ends, start_fails, start_fails_under, starting,
};
use etx_assign::{begin, begin_register, is_assignment, no_prefixes, prefix_scan, with_prefix};
use etx_expand::{expansion_begun, text_for};
use etx_groups::begin as begin_group;
use etx_lists::Bytes;
use etx_matter::{Boxed, End, Limit, Token, Tokens};
use etx_prims::{AfterKind, GroupEdge, MessageKind, PrefixKind, Primitive};
use etx_state::{
    AssignScan, ControlScan, ControlText, GroupKind, MOST_GROUPS, Meaning, Rest, Scan, TextFinish,
};
use std::alloc::{AllocError, Global};

/// What main control does at a primitive.
#[derive(Clone, Copy)]
pub enum Command {
    /// Nothing at all.
    Nothing,
    /// `\end`.
    End,
    /// `\endcsname`, which ends no name here.
    EndCsName,
    /// `\begingroup` and `\endgroup`.
    Group(GroupEdge),
    /// `\aftergroup` and `\afterassignment`.
    After(AfterKind),
    /// `\ignorespaces`.
    IgnoreSpaces,
    /// `\message` and `\errmessage`.
    Message(MessageKind),
    /// `\long`, `\outer`, `\protected` and `\global`.
    Prefix(PrefixKind),
    /// An assignment, or what is still to come.
    Other,
}

/// A group begins, unless 10000 are open.
#[tactic(auto, unfolding(crate::specs::Commands::group_begun))]
fn group_begun(rest: &mut Rest, kind: GroupKind) -> Result<Start, AllocError>
    ensures rest { OnOk result (rest_of rest.new ≡ (group_begun kind (rest_of rest.old)).rest) }
    ensures start { IfOk result (λ start. start ≡ (group_begun kind (rest_of rest.old)).start) }
    ensures kept { Keeps rest.old rest.new }
{
    if rest.level() == MOST_GROUPS {
        return Ok(start_ends(End::Capacity(Limit::Groups)));
    }
    match begin_group(rest, kind) {
        Ok(()) => Ok(starting(nothing())),
        Err(_) => Err(AllocError),
    }
}

/// The innermost group ends, and the tokens that were noted in it are read next.
#[tactic(auto, unfolding(crate::specs::Commands::group_ended))]
fn group_ended(rest: &mut Rest) -> Result<Start, AllocError>
    ensures rest { OnOk result (rest_of rest.new ≡ (group_ended (rest_of rest.old)).rest) }
    ensures start { IfOk result (λ start. start ≡ (group_ended (rest_of rest.old)).start) }
    ensures kept { Keeps rest.old rest.new }
{
    let ended = rest.end()?;
    let noted = insert_tokens(rest.alloc(), ended.tokens)?;
    Ok(starting(Push::Insert(noted)))
}

/// An error whose text ends with the name of a primitive.
fn fail_at(rest: &Rest, text: &[u8], name: &[u8]) -> Result<Start, AllocError>
    ensures { IfOk result (λ start. start ≡ start_fails (naming text.now name.now (rest_of rest.now)) nothing) }
{
    let mut whole = Bytes::from_slice(rest.alloc(), text)?;
    push_escaped(rest, &mut whole, name)?;
    start_fails(rest.alloc(), whole.as_slice(), nothing())
}

/// A right brace ends a simple group.
#[tactic(auto, unfolding(crate::specs::Commands::right_brace_row))]
fn right_brace_row(rest: &mut Rest) -> Result<Start, AllocError>
    ensures rest { OnOk result (rest_of rest.new ≡ (right_brace_row (rest_of rest.old)).rest) }
    ensures start { IfOk result (λ start. start ≡ (right_brace_row (rest_of rest.old)).start) }
    ensures kept { Keeps rest.old rest.new }
{
    match rest.kind() {
        None => start_fails(rest.alloc(), b"Too many }'s", nothing()),
        Some(GroupKind::Simple) => group_ended(rest),
        Some(GroupKind::SemiSimple) => fail_at(rest, b"Extra }, or forgotten ", b"endgroup"),
    }
}

/// The right brace that a group lacks is inserted.
fn missing_brace(alloc: Global) -> Result<Start, AllocError>
    ensures { IfOk result (λ start. start ≡ missing_brace) }
{
    let brace = Token::Char { code: b'}', cat: 2 };
    start_fails_under(alloc, brace, b"Missing } inserted", nothing())
}

/// `\endgroup` ends a semi simple group.
#[tactic(auto, unfolding(crate::specs::Commands::end_group_row))]
fn end_group_row(rest: &mut Rest) -> Result<Start, AllocError>
    ensures rest { OnOk result (rest_of rest.new ≡ (end_group_row (rest_of rest.old)).rest) }
    ensures start { IfOk result (λ start. start ≡ (end_group_row (rest_of rest.old)).start) }
    ensures kept { Keeps rest.old rest.new }
{
    match rest.kind() {
        None => fail_at(rest, b"Extra ", b"endgroup"),
        Some(GroupKind::Simple) => missing_brace(rest.alloc()),
        Some(GroupKind::SemiSimple) => group_ended(rest),
    }
}

fn group_row(rest: &mut Rest, edge: GroupEdge) -> Result<Start, AllocError>
    ensures rest { OnOk result (rest_of rest.new ≡ (group_row edge (rest_of rest.old)).rest) }
    ensures start { IfOk result (λ start. start ≡ (group_row edge (rest_of rest.old)).start) }
    ensures kept { Keeps rest.old rest.new }
{
    match edge {
        GroupEdge::Begin => group_begun(rest, GroupKind::SemiSimple),
        GroupEdge::End => end_group_row(rest),
    }
}

/// A character, by its category.
#[tactic(auto, unfolding(crate::specs::Commands::character_row))]
fn character_row(rest: &mut Rest, cat: u8) -> Result<Start, AllocError>
    ensures rest { OnOk result (rest_of rest.new ≡ (character_row cat (rest_of rest.old)).rest) }
    ensures start { IfOk result (λ start. start ≡ (character_row cat (rest_of rest.old)).start) }
    ensures kept { Keeps rest.old rest.new }
{
    if cat == 10 {
        Ok(starting(nothing()))
    } else if cat == 1 {
        group_begun(rest, GroupKind::Simple)
    } else if cat == 2 {
        right_brace_row(rest)
    } else {
        Ok(start_ends(End::Unbuilt))
    }
}

/// `\aftergroup` and `\afterassignment` wait for their token.
fn after_row(kind: AfterKind) -> Start
    ensures { result ≡ after_row kind }
{
    match kind {
        AfterKind::Group => starting(Push::Begin(Scan::Assign(AssignScan::AfterGroup))),
        AfterKind::Assignment => starting(Push::Begin(Scan::Assign(AssignScan::AfterAssignment))),
    }
}

/// `\message` waits for its text.
fn message_row(alloc: Global, kind: MessageKind, token: Token) -> Result<Start, AllocError>
    ensures { IfOk result (λ start. start ≡ message_row kind token) }
{
    match kind {
        MessageKind::Message => Ok(starting(Push::Begin(Scan::Text {
            text: Boxed::new(alloc, text_for(alloc, token, true))?,
            finish: TextFinish::Control(ControlText::Message),
        }))),
        MessageKind::Error => Ok(start_ends(End::Unbuilt)),
    }
}

/// An assignment, or what is still to come.
fn other_row(rest: &Rest, primitive: Primitive, token: Token) -> Result<Start, AllocError>
    ensures { IfOk result (λ start. start ≡ (other_row primitive token (rest_of rest.now)).start) }
{
    if is_assignment(primitive) {
        begin(rest, primitive, token, no_prefixes())
    } else {
        Ok(start_ends(End::Unbuilt))
    }
}

/// What main control does at a primitive.
#[tactic(auto, unfolding(crate::specs::Commands::command_of))]
fn command_of(primitive: Primitive) -> Command
    ensures { result ≡ command_of primitive }
{
    match primitive {
        Primitive::Relax => Command::Nothing,
        Primitive::Par => Command::Nothing,
        Primitive::End => Command::End,
        Primitive::EndCsName => Command::EndCsName,
        Primitive::SemiSimpleGroup(edge) => Command::Group(edge),
        Primitive::After(kind) => Command::After(kind),
        Primitive::IgnoreSpaces => Command::IgnoreSpaces,
        Primitive::Message(kind) => Command::Message(kind),
        Primitive::Prefix(kind) => Command::Prefix(kind),
        _ => Command::Other,
    }
}

/// A line for each command that is built.
#[tactic(auto, unfolding(crate::specs::Commands::command_begun))]
fn command_begun(
    rest: &mut Rest,
    command: Command,
    primitive: Primitive,
    token: Token,
) -> Result<Start, AllocError>
    ensures rest { OnOk result (rest_of rest.new ≡ (command_begun command primitive token (rest_of rest.old)).rest) }
    ensures start { IfOk result (λ start. start ≡ (command_begun command primitive token (rest_of rest.old)).start) }
    ensures kept { Keeps rest.old rest.new }
{
    match command {
        Command::Nothing => Ok(starting(nothing())),
        Command::End => Ok(start_ends(End::Ended)),
        Command::EndCsName => fail_at(rest, b"Extra ", b"endcsname"),
        Command::Group(edge) => group_row(rest, edge),
        Command::After(kind) => Ok(after_row(kind)),
        Command::IgnoreSpaces => Ok(starting(Push::Begin(Scan::Control(
            ControlScan::IgnoreSpaces,
        )))),
        Command::Message(kind) => message_row(rest.alloc(), kind, token),
        Command::Prefix(kind) => Ok(starting(Push::Begin(prefix_scan(with_prefix(
            kind,
            no_prefixes(),
        ))))),
        Command::Other => other_row(rest, primitive, token),
    }
}

fn primitive_row(rest: &mut Rest, primitive: Primitive, token: Token) -> Result<Start, AllocError>
    ensures rest { OnOk result (rest_of rest.new ≡ (primitive_row primitive token (rest_of rest.old)).rest) }
    ensures start { IfOk result (λ start. start ≡ (primitive_row primitive token (rest_of rest.old)).start) }
    ensures kept { Keeps rest.old rest.new }
{
    command_begun(rest, command_of(primitive), primitive, token)
}

/// What a token begins. What is expandable is expanded before it comes here.
#[tactic(auto, unfolding(crate::specs::Commands::command_row))]
pub(crate) fn command_row(
    rest: &mut Rest,
    line: u32,
    token: Token,
    meaning: Meaning,
) -> Result<Start, AllocError>
    ensures rest { OnOk result (rest_of rest.new ≡ (command_row token meaning line (rest_of rest.old)).rest) }
    ensures start { IfOk result (λ start. start ≡ (command_row token meaning line (rest_of rest.old)).start) }
    ensures kept { Keeps rest.old rest.new }
{
    match meaning {
        Meaning::Char { cat, .. } => character_row(rest, cat),
        Meaning::Primitive(primitive) => primitive_row(rest, primitive, token),
        Meaning::Unexpanded => Ok(starting(nothing())),
        Meaning::EndTemplate => Ok(start_ends(End::Unbuilt)),
        Meaning::CharGiven(_) => Ok(start_ends(End::Unbuilt)),
        Meaning::MathGiven(_) => Ok(start_ends(End::Unbuilt)),
        Meaning::Register { kind, number } => begin_register(rest, kind, number, token),
        Meaning::Undefined => expansion_begun(rest, line, Expandable::Undefined, token),
        Meaning::Macro(made) => expansion_begun(rest, line, Expandable::Call(made), token),
    }
}

/// `\message`: a space that parts the text from what stands on the line, and then the text.
#[tactic(auto, unfolding(crate::specs::Commands::text_taken))]
pub(crate) fn text_taken(
    rest: &Rest,
    finish: ControlText,
    tokens: &Tokens,
) -> Result<Ended, AllocError>
    ensures ended { IfOk result (λ ended. ended ≡ (text_taken finish tokens.now (rest_of rest.now)).ended) }
    ensures rest { OnOk result ((text_taken finish tokens.now (rest_of rest.now)).rest ≡ rest_of rest.now) }
{
    match finish {
        ControlText::Message => {
            let text = said_text(rest, tokens.as_slice())?;
            Ok(Ended {
                then: Then::Say(text),
                did: Did::Space,
            })
        }
    }
}
