// The names of control sequences.
ghost use Rattle.std.specs.Prelude.{◌≡◌, ◌≤◌, ◌++◌, ◌∷◌, IfOk, length, drop};
ghost use Rattle.etx_lexer.specs.Names.{word_of, name_of, named_at};
ghost use Rattle.etx_lexer.specs.Places.{rest_of, behind_head};

use crate::front::{First, first_in};
use crate::place::place_at;
use crate::{CatOf, Line, LinePlace, LineState};
use etx_lists::Bytes;
use std::alloc::{AllocError, Global};

const LETTER: u8 = 11;

const SPACE: u8 = 10;

/// Adds the letters from byte `at` on to a name, and gives the place behind them.
fn read_word<C: CatOf>(
    mut name: Bytes,
    line: &Line<'_>,
    mut at: usize,
    cats: &C,
) -> Result<(Bytes, LinePlace), AllocError>
    requires within { at ≤ length line.now }
    requires small { length line.now ≤ 1073741825 }
    ensures { IfOk result (λ r. let word = word_of (C.category cats.now) (drop at line.now) in
        (r.0 ≡ name ++ word.letters) × (rest_of line.now r.1 ≡ word.rest) × (r.1.state ≡ LineState.Skipping)) }
{
    while let Some(first) = first_in(line, at, cats) {
        if first.cat != LETTER {
            return Ok((
                name,
                place_at(Some(first.code), first.next, LineState::Skipping),
            ));
        }
        name.push(first.code)?;
        at = first.next;
    }
    Ok((name, place_at(None, line.len(), LineState::Skipping)))
}

/// The name that begins with this character.
fn read_from<C: CatOf>(
    alloc: Global,
    line: &Line<'_>,
    first: First,
    cats: &C,
) -> Result<(Bytes, LinePlace), AllocError>
    requires within { first.next ≤ length line.now }
    requires small { length line.now ≤ 1073741825 }
    requires cat { first.cat ≡ C.category cats.now first.code }
    ensures { IfOk result (λ r. named_at (C.category cats.now) first.code (drop first.next line.now)
        ≡ record { name = r.0; rest = rest_of line.now r.1; state = r.1.state }) }
{
    let mut name = Bytes::new(alloc);
    name.push(first.code)?;
    if first.cat == LETTER {
        return read_word(name, line, first.next, cats);
    }
    let state = if first.cat == SPACE {
        LineState::Skipping
    } else {
        LineState::Middle
    };
    Ok((name, place_at(None, first.next, state)))
}

/// The name from byte `at` on, and the place behind it.
pub(crate) fn read_name<C: CatOf>(
    alloc: Global,
    line: &Line<'_>,
    at: usize,
    cats: &C,
) -> Result<(Bytes, LinePlace), AllocError>
    requires within { at ≤ length line.now }
    requires small { length line.now ≤ 1073741825 }
    ensures { IfOk result (λ r. name_of (C.category cats.now) (drop at line.now)
        ≡ record { name = r.0; rest = rest_of line.now r.1; state = r.1.state }) }
{
    match first_in(line, at, cats) {
        None => Ok((
            Bytes::new(alloc),
            place_at(None, line.len(), LineState::Middle),
        )),
        Some(first) => read_from(alloc, line, first, cats),
    }
}
