//! A word that is found, and rebuilt.
ghost use Rattle.std.specs.Prelude.{◌≡◌, ◌≤◌, ◌<◌, length, map, drop, filter, IfOk};
ghost use Rattle.std.specs.Option.{option_copied};
ghost use Rattle.etx_hyphen.specs.Words.{font_numbered, hyphen_of, lower_of, least, is_inside, places_in, word_with, word_of, word_in_font, word_opened, left_of, edge_opened, word_at};
ghost use Rattle.etx_hyphen.specs.Hyphenations.{IsRewritten, IsSoundWord};

use crate::cuts::WordEnds;
use crate::letters::{
    Gathered, Opening, begins_word, edge_font, first_opening, gather_word, lower_of, may_follow,
    opening_of,
};
use crate::rebuilding::rebuild_between;
use crate::walk::{Before, Walk};
use etx_lists::Bytes;
use etx_matter::{Font, Node, Nodes};
use etx_sealed::{ParParams, SealedFont};
use etx_tfm::{Neighbour, boundary_if};
use std::alloc::{AllocError, Global};

/// The nodes that take the place of so many items: a word with its hyphens.
#[derive(Drop)]
pub struct Rewritten {
    pub count: usize,
    pub nodes: Nodes,
}

/// The font of this number.
#[tactic(auto, unfolding(crate::specs::Words::font_numbered))]
fn font_numbered(fonts: &[SealedFont], number: u8) -> Option<&SealedFont>
    ensures { option_copied result ≡ font_numbered fonts.now number }
{
    for it in fonts {
        if it.font.get().number() == number {
            return Some(it);
        }
    }
    None
}

/// The character that `\hyphenchar` names.
#[tactic(auto, unfolding(crate::specs::Words::hyphen_of))]
fn hyphen_of(hyphen_char: i32) -> Option<u8>
    ensures { result ≡ hyphen_of hyphen_char }
{
    if hyphen_char >= 0 && hyphen_char < 256 {
        Some(hyphen_char as u8)
    } else {
        None
    }
}

/// The least letters on one side of a hyphen.
fn least(count: u8) -> u8
    ensures { result ≡ least count }
{
    count.min(63).max(1)
}

/// Whether enough letters stand before and behind a hyphen.
fn is_inside(walk: Walk, letters: usize, place: u8) -> bool
    ensures { result ≡ is_inside walk letters place }
{
    least(walk.left) <= place && usize::from(place) + usize::from(least(walk.right)) <= letters
}

/// A word in lower case, as the tables have it.
fn lowered(alloc: Global, params: &ParParams, letters: &[u8]) -> Result<Bytes, AllocError>
    ensures { IfOk result (λ it. it ≡ map (lower_of params.now) letters.now) }
{
    let mut lower = Bytes::with_room(alloc, letters.len())?;
    for letter in letters {
        lower.push(lower_of(params, *letter))?;
    }
    Ok(lower)
}

/// Those of the places with enough letters on both sides.
fn inside(alloc: Global, walk: Walk, letters: usize, places: &[u8]) -> Result<Bytes, AllocError>
    ensures { IfOk result (λ it. it ≡ filter (is_inside walk letters) places.now) }
{
    let mut kept = Bytes::new(alloc);
    for place in places {
        if is_inside(walk, letters, *place) {
            kept.push(*place)?;
        }
    }
    Ok(kept)
}

/// Where hyphens are allowed in a word.
#[tactic(auto, unfolding(crate::specs::Words::places_in))]
fn places_in(
    alloc: Global,
    params: &ParParams,
    walk: Walk,
    letters: &[u8],
) -> Result<Bytes, AllocError>
    requires { length letters.now ≤ 63 }
    ensures places { IfOk result (λ it. it ≡ places_in params.now walk letters.now) }
    ensures some { IfOk result (λ it. 0 < length it → 0 < length letters.now) }
{
    let lower = lowered(alloc, params, letters)?;
    let places = params.tables.breaks(walk.language, lower.as_slice())?;
    let kept = inside(alloc, walk, letters.len(), places.as_slice())?;
    Ok(kept)
}

/// The items behind so many.
pub fn behind(nodes: &[Node], count: usize) -> &[Node]
    ensures { result.now ≡ drop count nodes.now }
{
    let (_, behind) = nodes.split_at(count.min(nodes.len()));
    behind
}

/// The word with these places, if there are some.
fn with_hyphens(
    alloc: Global,
    font: &Font,
    hyphen: u8,
    left: Neighbour,
    word: &Gathered,
    places: &Bytes,
) -> Result<Option<Rewritten>, AllocError>
    requires { 0 < length places.now → 0 < word.now.count }
    ensures word { IfOk result (IsRewritten (word_with font.now hyphen left word.now places.now)) }
    ensures sound { IfOk result IsSoundWord }
{
    if places.is_empty() {
        return Ok(None);
    }
    let ends = WordEnds {
        left,
        right: word.right,
    };
    let nodes = rebuild_between(
        alloc,
        ends,
        word.letters.as_slice(),
        places.as_slice(),
        font,
        hyphen,
    )?;
    Ok(Some(Rewritten {
        count: word.count,
        nodes,
    }))
}

/// The word in a font, unless what follows forbids it.
#[tactic(auto, unfolding(crate::specs::Words::word_of))]
fn word_of(
    alloc: Global,
    params: &ParParams,
    walk: Walk,
    nodes: &[Node],
    left: Neighbour,
    font: &Font,
    hyphen: u8,
) -> Result<Option<Rewritten>, AllocError>
    ensures word { IfOk result (IsRewritten (word_of params.now walk nodes.now left font.now hyphen)) }
    ensures sound { IfOk result IsSoundWord }
{
    let word = gather_word(alloc, params, font.number(), nodes)?;
    if !may_follow(behind(nodes, word.count)) {
        return Ok(None);
    }
    let places = places_in(alloc, params, walk, word.letters.as_slice())?;
    with_hyphens(alloc, font, hyphen, left, &word, &places)
}

#[tactic(auto, unfolding(crate::specs::Words::word_in_font))]
fn word_in_font(
    alloc: Global,
    params: &ParParams,
    walk: Walk,
    nodes: &[Node],
    left: Neighbour,
    it: &SealedFont,
) -> Result<Option<Rewritten>, AllocError>
    ensures word { IfOk result (IsRewritten (word_in_font params.now walk nodes.now left it.now)) }
    ensures sound { IfOk result IsSoundWord }
{
    match hyphen_of(it.hyphen_char) {
        None => Ok(None),
        Some(hyphen) => word_of(alloc, params, walk, nodes, left, it.font.get(), hyphen),
    }
}

/// The word of these items that begins with such a letter, behind a neighbour.
#[tactic(auto, unfolding(crate::specs::Words::word_opened))]
fn word_opened(
    alloc: Global,
    params: &ParParams,
    walk: Walk,
    nodes: &[Node],
    opening: Opening,
    left: Neighbour,
) -> Result<Option<Rewritten>, AllocError>
    ensures word { IfOk result (IsRewritten (word_opened params.now walk nodes.now opening left)) }
    ensures sound { IfOk result IsSoundWord }
{
    if !(walk.looking && begins_word(params, opening.letter)) {
        return Ok(None);
    }
    match font_numbered(params.fonts.as_slice(), opening.font) {
        None => Ok(None),
        Some(it) => word_in_font(alloc, params, walk, nodes, left, it),
    }
}

/// What stands before a word.
fn left_of(before: Before, opening: Opening) -> Neighbour
    ensures { result ≡ left_of before opening }
{
    match before {
        Before::Nothing => boundary_if(opening.left),
        Before::Character { font, code } => {
            if font == opening.font {
                Neighbour::Character(code)
            } else {
                Neighbour::Boundary
            }
        }
    }
}

/// The word that begins with a ligature that the boundary made, if it is in the font of that one.
fn edge_opened(
    alloc: Global,
    params: &ParParams,
    walk: Walk,
    nodes: &[Node],
    font: u8,
    opening: Opening,
) -> Result<Option<Rewritten>, AllocError>
    ensures word { IfOk result (IsRewritten (edge_opened params.now walk nodes.now font opening)) }
    ensures sound { IfOk result IsSoundWord }
{
    if opening.font == font {
        word_opened(alloc, params, walk, nodes, opening, Neighbour::Boundary)
    } else {
        Ok(None)
    }
}

/// The word that begins with the first of these items, rebuilt, if there is one with a place for a hyphen.
#[tactic(auto, unfolding(crate::specs::Words::word_at))]
pub fn word_at(
    alloc: Global,
    params: &ParParams,
    walk: Walk,
    nodes: &[Node],
) -> Result<Option<Rewritten>, AllocError>
    ensures word { IfOk result (IsRewritten (word_at params.now walk nodes.now)) }
    ensures sound { IfOk result IsSoundWord }
{
    match nodes.split_first() {
        None => Ok(None),
        Some((node, rest)) => match edge_font(node) {
            None => match opening_of(node) {
                None => Ok(None),
                Some(opening) => {
                    let left = left_of(walk.before, opening);
                    word_opened(alloc, params, walk, nodes, opening, left)
                }
            },
            Some(font) => match first_opening(rest) {
                None => Ok(None),
                Some(opening) => edge_opened(alloc, params, walk, nodes, font, opening),
            },
        },
    }
}
