//! The turns of a definition's body that isn't expanded, many at once: where it is on top of the stack, and a list is read.
//!
//! The body copies each token, braces that have a partner in it too. What is made here changes no meaning, only the time that it
//! takes: the general turn makes the same.
ghost use Rattle.std.specs.Prelude.{◌≡◌, ◌+◌, ◌<◌, ◌≤◌, ℕ, Some, None, length, false, IsTrue, IfOk, OnOk};
ghost use Rattle.etx_macros.specs.Marks.{brace_of};
ghost use Rattle.etx_state.specs.Reading.{token_meaning};
ghost use Rattle.etx_state.specs.Rests.{rest_of};
ghost use Rattle.etx_state.specs.Mouths.{mouth_of};
ghost use Rattle.etx_answers.specs.Meanings.{is_outer};
ghost use Rattle.etx_expand.specs.Moves.{entered, scanning};
ghost use Rattle.etx_assign.specs.Definitions.{in_body, mark_of};
ghost use Rattle.etx_mouth.specs.Gathering.{IsCopiedAs, AreCopied, with_copied};
ghost use Rattle.etx_mouth.specs.Mouths.{mouth_at};
ghost use Rattle.etx_mouth.specs.Runs.{Runs};

use crate::machine::MOST;
use crate::mouth::Source;
use crate::skim as at_rest;
use crate::skim_number::skim_constant;
use crate::skim_skip::skim_skipped;
use etx_expand::enter;
use etx_matter::{Boxed, Token};
use etx_state::{
    AssignScan, Definition, Entry, ExpansionScan, Meaning, NumberScan, Rest, Scan, State, Want,
};
use std::alloc::AllocError;

/// Whether a body copies what has this meaning, where it is no brace.
#[tactic(auto, unfolding(etx_answers::specs::Meanings::is_outer))]
fn is_copied(meaning: &Meaning) -> bool
    ensures inner { IsTrue result → is_outer meaning.now ≡ false }
    ensures mark { IsTrue result → mark_of meaning.now ≡ None }
{
    match meaning {
        Meaning::Undefined => true,
        Meaning::Primitive(_) => true,
        Meaning::Char { cat, .. } => *cat != 6,
        Meaning::Macro(definition) => !definition.is_outer(),
        Meaning::Unexpanded => true,
        Meaning::EndTemplate => true,
        Meaning::CharGiven(_) => true,
        Meaning::MathGiven(_) => true,
        Meaning::Register { .. } => true,
    }
}

/// One brace more is open.
fn opened(depth: u32) -> Option<u32>
    ensures { (behind : ℕ) → result ≡ Some behind → behind ≡ depth + 1 }
{
    if depth == u32::MAX {
        None
    } else {
        Some(depth + 1)
    }
}

/// One brace fewer is open.
fn closed(depth: u32) -> Option<u32>
    ensures { (behind : ℕ) → result ≡ Some behind → depth ≡ behind + 1 }
{
    if depth == 0 { None } else { Some(depth - 1) }
}

/// How many braces are open in a body behind a token, if it copies this one. Active characters aren't looked up.
#[tactic(auto, unfolding(etx_answers::specs::Meanings::is_outer, etx_state::specs::Reading::token_meaning, etx_macros::specs::Marks::brace_of))]
fn depth_behind(rest: &Rest, token: Token, depth: u32) -> Option<u32>
    ensures inner { (behind : ℕ) → result ≡ Some behind → is_outer (token_meaning (rest_of rest.now).values token) ≡ false }
    ensures copied { (behind : ℕ) → result ≡ Some behind → IsCopiedAs (brace_of token) (token_meaning (rest_of rest.now).values token) depth behind }
{
    match token {
        Token::Char { cat: 1, .. } => opened(depth),
        Token::Char { cat: 2, .. } => closed(depth),
        Token::Char { cat: 6, .. } => None,
        Token::Char { cat: 13, .. } => None,
        Token::Char { .. } => Some(depth),
        Token::Name(name) => {
            if is_copied(rest.meaning(name)) {
                Some(depth)
            } else {
                None
            }
        }
        Token::Param(_) => None,
    }
}

/// Tokens that a body copies.
#[derive(Clone, Copy)]
struct Copied {
    /// How many they are.
    count: usize,
    /// How many braces are open behind them.
    depth: u32,
}

/// The tokens at the beginning that a body copies, as many as there is room for.
fn count_copied(rest: &Rest, tokens: &[Token], depth: u32, room: u64) -> Copied
    ensures copied { AreCopied (rest_of rest.now).values result.count tokens.now depth result.depth }
    ensures fits { result.count ≤ room }
{
    let mut count = 0;
    let mut inside = depth;
    for token in tokens {
        if count as u64 >= room {
            return Copied {
                count,
                depth: inside,
            };
        }
        match depth_behind(rest, *token, inside) {
            None => return Copied {
                count,
                depth: inside,
            },
            Some(behind) => {
                inside = behind;
                count += 1;
            }
        }
    }
    Copied {
        count,
        depth: inside,
    }
}

/// How many tokens may be copied in so many steps: each is a step, and its copy is another.
fn room_for(steps: u64) -> u64
    ensures { result + result ≤ steps }
{
    steps / 2
}

/// The body has these tokens more.
fn copy(definition: &mut Definition, depth: u32, tokens: &[Token]) -> Result<(), AllocError>
    ensures { OnOk result (definition.new ≡ with_copied tokens.now depth definition.old) }
{
    definition.body.extend_from_slice(tokens)?;
    definition.depth = depth;
    definition.mark = None;
    Ok(())
}

/// The definition whose body has these tokens more.
fn with_tokens(
    mut definition: Boxed<Definition>,
    depth: u32,
    tokens: &[Token],
) -> Result<Boxed<Definition>, AllocError>
    ensures { IfOk result (λ it. it ≡ with_copied tokens.now depth definition) }
{
    copy(definition.get_mut(), depth, tokens)?;
    Ok(definition)
}

/// The definition stands on the stack with its body.
fn enter_body(s: &mut State, left: u8, definition: Boxed<Definition>) -> Result<(), AllocError>
    ensures { OnOk result (mouth_of s.new ≡ scanning left (in_body definition) (mouth_of s.old)) }
{
    enter(
        s,
        Entry::Scan {
            left,
            scan: Scan::Assign(AssignScan::Body(definition)),
        },
    )
}

/// Whether the body isn't expanded, and no character of category 6 was its last token.
fn is_plain_body(definition: &Definition) -> bool
    ensures plain { IsTrue result → definition.now.is_expanded ≡ false }
    ensures mark { IsTrue result → definition.now.mark ≡ None }
{
    match definition.mark {
        None => !definition.is_expanded,
        Some(_) => false,
    }
}

/// A body that isn't expanded copies tokens, as many as come and within the budget. It was taken off the stack, and stands there
/// again.
#[tactic(auto, using(crate::proofs::Gathers::stays))]
fn gather_body(
    s: &mut State,
    budget: u64,
    left: u8,
    definition: Boxed<Definition>,
) -> Result<(), AllocError>
    requires within { (mouth_of s.old).spent ≤ budget }
    requires levels { length (mouth_of s.old).input.levels ≤ 10000 }
    requires entries { length (mouth_of s.old).entries < 10000 }
    requires plain { definition.is_expanded ≡ false }
    requires mark { definition.mark ≡ None }
    ensures runs { OnOk result (Runs budget (mouth_at Source.Reading (scanning left (in_body definition) (mouth_of s.old))) (mouth_at Source.Reading (mouth_of s.new))) }
    ensures within { OnOk result ((mouth_of s.new).spent ≤ budget) }
{
    let tokens = s.input.fresh();
    let room = room_for(budget - s.spent);
    let copied = count_copied(&s.rest, tokens, definition.get().depth, room);
    if copied.count == 0 {
        enter_body(s, left, definition)?;
        return Ok(());
    }
    let longer = with_tokens(definition, copied.depth, &tokens[..copied.count])?;
    s.input.skip(copied.count)?;
    s.spent += copied.count as u64 * 2;
    enter_body(s, left, longer)?;
    Ok(())
}

/// A body, which was taken off the stack, copies what can be copied many at once.
#[tactic(auto, using(crate::proofs::Gathers::stays))]
fn skim_body(
    s: &mut State,
    budget: u64,
    left: u8,
    definition: Boxed<Definition>,
) -> Result<(), AllocError>
    requires within { (mouth_of s.old).spent ≤ budget }
    ensures runs { OnOk result (Runs budget (mouth_at Source.Reading (scanning left (in_body definition) (mouth_of s.old))) (mouth_at Source.Reading (mouth_of s.new))) }
    ensures within { OnOk result ((mouth_of s.new).spent ≤ budget) }
{
    if !is_plain_body(definition.get()) || s.input.depth() > MOST || s.entries.len() >= MOST {
        enter_body(s, left, definition)?;
        return Ok(());
    }
    gather_body(s, budget, left, definition)
}

/// What was taken off the stack gathers tokens, and stands there again.
#[tactic(auto, using(crate::proofs::Gathers::stays))]
fn skim_entry(s: &mut State, budget: u64, entry: Entry) -> Result<(), AllocError>
    requires within { (mouth_of s.old).spent ≤ budget }
    ensures runs { OnOk result (Runs budget (mouth_at Source.Reading (entered entry (mouth_of s.old))) (mouth_at Source.Reading (mouth_of s.new))) }
    ensures within { OnOk result ((mouth_of s.new).spent ≤ budget) }
{
    match entry {
        Entry::Scan {
            left,
            scan: Scan::Assign(AssignScan::Body(definition)),
        } => skim_body(s, budget, left, definition),
        Entry::Scan {
            left,
            scan: Scan::Expansion(ExpansionScan::Skip(skip)),
        } => skim_skipped(s, budget, left, skip),
        Entry::Scan {
            left,
            scan: Scan::Number {
                scan: NumberScan::Start(Want::Integer { is_negative: false }),
                taker,
            },
        } => skim_constant(s, budget, left, taker),
        other => {
            enter(s, other)?;
            Ok(())
        }
    }
}

/// Whether a scan is on top of the stack that takes many tokens at once: a definition's body, a text that isn't taken, or
/// an integer that begins.
fn takes_many(s: &State) -> bool {
    match s.entries.at(0) {
        Some(Entry::Scan { scan, .. }) => match scan {
            Scan::Assign(AssignScan::Body(_)) => true,
            Scan::Expansion(ExpansionScan::Skip(_)) => true,
            Scan::Number { scan, .. } => {
                matches!(
                    scan,
                    NumberScan::Start(Want::Integer { is_negative: false })
                )
            }
            _ => false,
        },
        _ => false,
    }
}

/// Makes the turns in which a scan on top of the stack gathers tokens, as many as are made many at once.
#[tactic(auto, using(crate::proofs::Gathers::stays))]
fn skim_scan(s: &mut State, budget: u64) -> Result<(), AllocError>
    requires within { (mouth_of s.old).spent ≤ budget }
    ensures runs { OnOk result (Runs budget (mouth_at Source.Reading (mouth_of s.old)) (mouth_at Source.Reading (mouth_of s.new))) }
    ensures within { OnOk result ((mouth_of s.new).spent ≤ budget) }
{
    if !takes_many(s) {
        return Ok(());
    }
    match s.entries.pop() {
        None => Ok(()),
        Some(entry) => skim_entry(s, budget, entry),
    }
}

/// Makes the turns that are made many at once: at rest, or a scan's that is on top of the stack. After an `Err` the state is only
/// dropped.
pub(crate) fn skim(s: &mut State, budget: u64) -> Result<(), AllocError>
    requires within { (mouth_of s.old).spent ≤ budget }
    ensures runs { OnOk result (Runs budget (mouth_at Source.Reading (mouth_of s.old)) (mouth_at Source.Reading (mouth_of s.new))) }
    ensures within { OnOk result ((mouth_of s.new).spent ≤ budget) }
{
    if s.at_rest() {
        at_rest::skim(s, budget)
    } else {
        skim_scan(s, budget)
    }
}
