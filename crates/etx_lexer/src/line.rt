// One line, and what is lexed of it.
ghost use Rattle.std.specs.Prelude.{◌≡◌, ◌<◌, ◌≤◌, ◌+◌, ◌++◌, [], ◌∷◌, false, IfOk, OnOk, MatchOption, None, Some, length, drop, take, slice_index};
ghost use Rattle.std.specs.Option.{option_to_list};
ghost use Rattle.etx_lexer.specs.Places.{rest_of, trimmed, line_of, end_of_line};
ghost use Rattle.etx_lexer.specs.Lex.{Lexes, Lex, lexed_of, lex, lex_char, at_return, skips, IsShorter, HasCategory};
ghost use Rattle.etx_lexer.specs.Classes.{class_of};
ghost use Rattle.etx_lexer.specs.Reading.{first_of};

use crate::categories::{Class, class_in};
use crate::front::{First, first_from, first_in};
use crate::name::read_name;
use crate::place::place_at;
use crate::{CatOf, Lexed, LinePlace, LineState};
use etx_lists::Bytes;
use std::alloc::{AllocError, Global};
use std::marker::Model;

/// The code of the space that a line gives, and of the spaces that are dropped at a line's end.
const BLANK: u8 = 32;

/// One line as it is lexed: bytes of a text, and the character that is put behind them, if there is one. Contracts see it
/// as the list of its characters.
#[derive(Debug, Drop)]
pub struct Line<'a> {
    bytes: &'a [u8],
    end: Option<u8>,
}

impl<'a> Model for Line<'a> {
    ghost use Rattle.std.specs.Prelude.{List, ℕ, ◌++◌, ◌≤◌, length};
    ghost use Rattle.std.specs.Option.{option_to_list};

    ghost Value = { List ℕ };

    ghost view = { λ line. line.bytes.now ++ option_to_list line.end };

    ghost invariant = { λ line. length line.bytes.now ≤ 1073741824 };
}

/// How many bytes of a line are left without the spaces (byte 32) at its end.
pub fn trimmed_length(bytes: &[u8]) -> usize
    ensures value { take result bytes.now ≡ trimmed bytes.now }
    ensures small { result ≤ length bytes.now }
{
    let mut end = bytes.len();
    while end > 0 && bytes[end - 1] == BLANK {
        end -= 1;
    }
    end
}

/// The character that `endline` puts behind each line, if it is the code of one.
pub fn end_character(endline: i32) -> Option<u8>
    ensures { MatchOption result (end_of_line endline ≡ []) (λ c. end_of_line endline ≡ c ∷ []) }
{
    if endline >= 0 && endline < 256 {
        Some(endline as u8)
    } else {
        None
    }
}

/// The next character of the rest of a line. `None` exactly at the line's end.
fn first_at<C: CatOf>(line: &Line<'_>, place: LinePlace, cats: &C) -> Option<First>
    ensures { let found = first_of (C.category cats.now) (rest_of line.now place) in
        MatchOption result (found ≡ None)
        (λ f. (found ≡ Some (record { code = f.code; rest = drop f.next line.now }))
        × (f.cat ≡ C.category cats.now f.code) × (f.cat ≤ 15) × (f.next ≤ length line.now)) }
{
    let at = place.at as usize;
    match place.head {
        Some(head) => Some(first_from(line, head, at.min(line.len()), cats)),
        None => first_in(line, at, cats),
    }
}

/// Whether a character of this class gives nothing in this state.
fn is_skipped(class: Class, state: LineState) -> bool
    ensures { result ≡ skips class state }
{
    match class {
        Class::Ignored => true,
        Class::Space => match state {
            LineState::New | LineState::Skipping => true,
            LineState::Middle => false,
        },
        _ => false,
    }
}

/// What the end of the line gives.
fn return_in(alloc: Global, state: LineState) -> Result<Lexed, AllocError>
    ensures { IfOk result (λ lexed. lexed ≡ at_return state) }
{
    match state {
        LineState::New => Ok(Lexed::Name(Bytes::from_slice(alloc, b"par")?)),
        LineState::Middle => Ok(Lexed::Char {
            code: BLANK,
            cat: 10,
        }),
        LineState::Skipping => Ok(Lexed::LineEnd),
    }
}

/// What a character gives that isn't skipped, and the place behind it.
fn lex_first<C: CatOf>(
    alloc: Global,
    line: &Line<'_>,
    class: Class,
    first: First,
    state: LineState,
    cats: &C,
) -> Result<(Lexed, LinePlace), AllocError>
    requires counts { skips class state ≡ false }
    requires within { first.next ≤ length line.now }
    requires small { length line.now ≤ 1073741825 }
    requires cat { first.cat ≡ C.category cats.now first.code }
    requires small_cat { first.cat ≤ 15 }
    ensures value { IfOk result (λ r. (later : Lex) →
        lex_char class (C.category cats.now) state first.code (drop first.next line.now) later
        ≡ lex r.0 (rest_of line.now r.1) r.1.state) }
    ensures category { IfOk result (λ r. HasCategory r.0) }
{
    match class {
        Class::Escape => {
            let (name, place) = read_name(alloc, line, first.next, cats)?;
            Ok((Lexed::Name(name), place))
        }
        Class::Return => Ok((return_in(alloc, state)?, place_at(None, line.len(), state))),
        Class::Ignored => unreachable!(),
        Class::Space => {
            let space = Lexed::Char {
                code: BLANK,
                cat: 10,
            };
            Ok((space, place_at(None, first.next, LineState::Skipping)))
        }
        Class::Comment => Ok((Lexed::LineEnd, place_at(None, line.len(), state))),
        Class::Invalid => Ok((
            Lexed::Invalid(first.code),
            place_at(None, first.next, state),
        )),
        Class::Plain => {
            let plain = Lexed::Char {
                code: first.code,
                cat: first.cat,
            };
            Ok((plain, place_at(None, first.next, LineState::Middle)))
        }
    }
}

/// What is lexed next at a place of a line, and the place behind it.
fn lex_at<C: CatOf>(
    alloc: Global,
    line: &Line<'_>,
    mut place: LinePlace,
    cats: &C,
) -> Result<(Lexed, LinePlace), AllocError>
    requires { length line.now ≤ 1073741825 }
    ensures value { IfOk result (λ r. lexed_of (C.category cats.now) (rest_of line.now place) place.state
        ≡ lex r.0 (rest_of line.now r.1) r.1.state) }
    ensures category { IfOk result (λ r. HasCategory r.0) }
{
    while let Some(first) = first_at(line, place, cats) {
        let class = class_in(first.cat);
        if !is_skipped(class, place.state) {
            return lex_first(alloc, line, class, first, place.state, cats);
        }
        place = place_at(None, first.next, place.state);
    }
    Ok((Lexed::LineEnd, place_at(None, line.len(), place.state)))
}

impl<'a> Line<'a> {
    /// A line of these bytes, and of this character behind them, if there is one.
    pub fn new(bytes: &'a [u8], end: Option<u8>) -> Line<'a>
        requires { length bytes.now ≤ 1073741824 }
        ensures { result ≡ bytes.now ++ option_to_list end }
    {
        Line { bytes, end }
    }

    /// How many characters the line has.
    pub(crate) fn len(&self) -> usize
        ensures len { result ≡ length self.now }
        ensures small { result ≤ 1073741825 }
    {
        match self.end {
            None => self.bytes.len(),
            Some(_) => self.bytes.len() + 1,
        }
    }

    /// The character at a place, counted from 0.
    pub(crate) fn at(&self, i: usize) -> u8
        requires { i < length self.now }
        ensures value { result ≡ slice_index self.now i }
        ensures rest { drop i self.now ≡ result ∷ drop (i + 1) self.now }
    {
        if i < self.bytes.len() {
            return self.bytes[i];
        }
        match self.end {
            Some(end) => end,
            None => unreachable!(),
        }
    }

    /// What is lexed next at a place under these categories, and the place behind it.
    ///
    /// At `LineEnd` nothing is left of the line. Want of memory comes only where a name is read.
    pub fn next<C: CatOf>(
        &self,
        alloc: Global,
        place: LinePlace,
        cats: &C,
    ) -> Result<(Lexed, LinePlace), AllocError>
        ensures rules { IfOk result (λ r. Lexes (C.category cats.now) (rest_of self.now place) place.state
            r.0 (rest_of self.now r.1) r.1.state) }
        ensures value { IfOk result (λ r. lexed_of (C.category cats.now) (rest_of self.now place) place.state
            ≡ lex r.0 (rest_of self.now r.1) r.1.state) }
        ensures shorter { IfOk result (λ r. IsShorter (rest_of self.now r.1) (rest_of self.now place)) }
        ensures category { IfOk result (λ r. HasCategory r.0) }
    {
        // The bound of a line's length.
        let _length = self.len();
        lex_at(alloc, self, place, cats)
    }
}
