//! Texts in braces.
ghost use Rattle.std.specs.Prelude.{◌≡◌, ◌++◌, ◌∷◌, [], OnOk, IfOk};
ghost use Rattle.etx_macros.specs.Marks.{brace_of};
ghost use Rattle.etx_answers.specs.Answers.{quiet};
ghost use Rattle.etx_expand.specs.Texts.{text_for, is_blank, inside, before_text_row, text_goes_on, inside_by, text_by, text_row};

use etx_answers::{Move, Plan, fails_back, has_category, is_relax, quiet};
use etx_macros::{Brace, brace_of};
use etx_matter::{Boxed, Token, Tokens};
use etx_state::{Meaning, OpenText, Scan, TextFinish, TextPlace, Value};
use std::alloc::{AllocError, Global};

/// A text that this control sequence reads, expanded or not, before its left brace.
pub fn text_for(alloc: Global, reader: Token, is_expanded: bool) -> OpenText
    ensures { result ≡ text_for reader is_expanded }
{
    OpenText {
        reader,
        is_expanded,
        place: TextPlace::Before,
        items: Tokens::new(alloc),
    }
}

/// Whether a token is a space or `\relax`.
fn is_blank(meaning: &Meaning) -> bool
    ensures { result ≡ is_blank meaning.now }
{
    has_category(10, meaning) || is_relax(meaning)
}

/// The scan of a text inside its braces.
fn inside(depth: u32, mut text: Boxed<OpenText>, finish: TextFinish) -> Scan
    ensures { result ≡ inside depth text finish }
{
    text.get_mut().place = TextPlace::Inside { depth };
    Scan::Text { text, finish }
}

#[tactic(auto, unfolding(crate::specs::Texts::before_text_row))]
fn before_text(
    alloc: Global,
    text: Boxed<OpenText>,
    finish: TextFinish,
    meaning: &Meaning,
) -> Result<Plan, AllocError>
    ensures { IfOk result (λ p. p ≡ before_text_row text finish meaning.now) }
{
    if is_blank(meaning) {
        return Ok(quiet(Move::Stay(Scan::Text { text, finish })));
    }
    let scan = inside(0, text, finish);
    if has_category(1, meaning) {
        Ok(quiet(Move::Stay(scan)))
    } else {
        fails_back(alloc, b"Missing { inserted", Move::Stay(scan))
    }
}

/// The text with this token more.
fn go_on(
    depth: u32,
    mut text: Boxed<OpenText>,
    finish: TextFinish,
    token: Token,
) -> Result<Move, AllocError>
    ensures { IfOk result (λ go. go ≡ text_goes_on depth text finish token) }
{
    text.get_mut().items.push(token)?;
    Ok(Move::Copied(inside(depth, text, finish)))
}

fn give(alloc: Global, text: Boxed<OpenText>, finish: TextFinish) -> Result<Move, AllocError>
    ensures { IfOk result (λ go. go ≡ Move.Gives (Value.Text text.items finish)) }
{
    let text = Boxed::new(alloc, text.into_inner().items)?;
    Ok(Move::Gives(Value::Text { text, finish }))
}

/// A text is whole at the right brace that has no partner in it. Braces that nest deeper than a number can count are want of
/// memory.
fn inside_text(
    alloc: Global,
    depth: u32,
    text: Boxed<OpenText>,
    finish: TextFinish,
    token: Token,
) -> Result<Move, AllocError>
    ensures { IfOk result (λ go. go ≡ inside_by (brace_of token) depth text finish token) }
{
    match brace_of(token) {
        Brace::Left => {
            if depth == u32::MAX {
                return Err(AllocError);
            }
            go_on(depth + 1, text, finish, token)
        }
        Brace::Right => {
            if depth == 0 {
                give(alloc, text, finish)
            } else {
                go_on(depth - 1, text, finish, token)
            }
        }
        Brace::Neither => go_on(depth, text, finish, token),
    }
}

fn quiet_inside(
    alloc: Global,
    depth: u32,
    text: Boxed<OpenText>,
    finish: TextFinish,
    token: Token,
) -> Result<Plan, AllocError>
    ensures { IfOk result (λ p. p ≡ quiet (inside_by (brace_of token) depth text finish token)) }
{
    Ok(quiet(inside_text(alloc, depth, text, finish, token)?))
}

/// A text gets a token.
#[tactic(auto, unfolding(crate::specs::Texts::text_row))]
pub(crate) fn text_row(
    alloc: Global,
    text: Boxed<OpenText>,
    finish: TextFinish,
    token: Token,
    meaning: &Meaning,
) -> Result<Plan, AllocError>
    ensures { IfOk result (λ p. p ≡ text_row text finish token meaning.now) }
{
    match text.get().place {
        TextPlace::Before => before_text(alloc, text, finish, meaning),
        TextPlace::Inside { depth } => quiet_inside(alloc, depth, text, finish, token),
    }
}
