// The text of an argument.
ghost use Rattle.std.specs.Prelude.{◌≡◌, ◌<◌, ◌≤◌, ◌⊎◌, IfOk, MatchBool, List, length};
ghost use Rattle.etx_matter.specs.declared.token.Token.{Token};
ghost use Rattle.etx_macros.specs.Calls.{IsGroup, inner_of};
ghost use Rattle.etx_macros.specs.Feeding.{argument_of, longest, has_at};
ghost use Rattle.etx_macros.specs.Matching.{undelimited_turn, delimited_turn, said_at};

use crate::fault::{Fed, MatchFault};
use crate::mark::{behind, ends_with, has_category, is_balanced, is_par, is_same, is_space};
use etx_matter::{Token, Tokens};
use std::alloc::{AllocError, Global};

/// What a token makes of the part of a pattern that is being matched.
#[derive(Clone, Copy, Drop)]
pub enum Turn {
    /// The token is a space before an undelimited argument, and dropped.
    Skip,
    /// The part goes on, with so many braces open.
    Keep(usize),
    /// The token is the last one of the part.
    Found,
    /// No call goes on so.
    Fault(MatchFault),
}

/// How many tokens of the delimiter end a text, if no more than `most` of them do.
pub fn longest_end(text: &[Token], delimiter: &[Token], most: usize) -> usize
    requires { most ≤ length delimiter.now }
    ensures longest { result ≡ longest text.now delimiter.now most }
    ensures short { result ≤ length text.now }
{
    let mut count = most;
    while count > 0 {
        if ends_with(text, &delimiter[..count]) {
            return count;
        }
        count -= 1;
    }
    0
}

/// Whether a text is one pair of braces around a balanced text.
fn is_group(text: &[Token]) -> bool
    requires { length text.now ≤ 1073741824 }
    ensures { MatchBool result (IsGroup text.now (inner_of text.now)) ((inner : List Token) → IsGroup text.now inner → ⊥) }
{
    if text.len() < 2 {
        return false;
    }
    if !has_category(text[0], 1) {
        return false;
    }
    if !has_category(text[text.len() - 1], 2) {
        return false;
    }
    is_balanced(&text[1..text.len() - 1])
}

/// The argument that a text gives: without the braces, where one pair encloses it all.
pub fn unwrapped(alloc: Global, text: &[Token]) -> Result<Tokens, AllocError>
    requires { length text.now ≤ 1073741824 }
    ensures { IfOk result (λ arg. arg ≡ argument_of text.now) }
{
    if is_group(text) {
        return Tokens::from_slice(alloc, &text[1..text.len() - 1]);
    }
    Tokens::from_slice(alloc, text)
}

/// What a token makes of an undelimited argument.
#[tactic(auto, unfolding(crate::specs::Matching::undelimited_turn))]
pub fn undelimited_turn(depth: usize, long: bool, token: Token) -> Turn
    requires { depth ≤ 1073741824 }
    ensures { result ≡ undelimited_turn depth long token }
{
    if depth == 0 && is_space(token) {
        return Turn::Skip;
    }
    if !long && is_par(token) {
        return Turn::Fault(MatchFault::ParagraphEnded);
    }
    match behind(token, depth) {
        None => Turn::Fault(MatchFault::ExtraBrace),
        Some(0) => Turn::Found,
        Some(open) => Turn::Keep(open),
    }
}

/// How many braces are open behind a token of a delimited argument that it doesn't end. `is_inside`: the token stands
/// outside braces, and the text up to it ends with a beginning of the delimiter.
#[tactic(auto, unfolding(crate::specs::Matching::delimited_turn))]
pub fn delimited_turn(
    is_inside: bool,
    depth: usize,
    long: bool,
    token: Token,
) -> Result<usize, MatchFault>
    requires { depth ≤ 1073741824 }
    ensures { result ≡ delimited_turn is_inside depth long token }
{
    if !long && is_par(token) && !is_inside {
        return Err(MatchFault::ParagraphEnded);
    }
    match behind(token, depth) {
        None => Err(MatchFault::ExtraBrace),
        Some(open) => Ok(open),
    }
}

/// Whether a text has this token at `at`.
pub fn has_at(text: &[Token], at: usize, token: Token) -> bool
    ensures { result ≡ has_at text.now at token }
{
    match text.get(at) {
        Some(wanted) => is_same(*wanted, token),
        None => false,
    }
}

/// What is said where the next part is `part` of `count`.
pub fn said(part: usize, count: usize) -> Fed
    ensures { result ≡ said_at part count }
{
    if part == count { Fed::Done } else { Fed::More }
}
