//! The two parts of a word that is broken at a hyphen, as its font sets them.
ghost use Rattle.std.specs.Prelude.{◌≡◌, ◌++◌, length, take, drop, IfOk};
ghost use Rattle.etx_matter.specs.Nests.{AreNested};
ghost use Rattle.etx_hyphen.specs.Cuts.{IsReading, IsCut, hyphen_in};

use crate::cuts::{Cut, Unbroken, WordEnds, cut_of};
use etx_lists::Bytes;
use etx_matter::Font;
use etx_tfm::{Neighbour, Reading, read_run};
use std::alloc::{AllocError, Global};

/// The letters before a place.
fn front_of(letters: &[u8], place: usize) -> &[u8]
    ensures { result.now ≡ take place letters.now }
{
    let (front, _) = letters.split_at(place.min(letters.len()));
    front
}

/// The letters behind a place.
fn tail_of(letters: &[u8], place: usize) -> &[u8]
    ensures { result.now ≡ drop place letters.now }
{
    let (_, tail) = letters.split_at(place.min(letters.len()));
    tail
}

/// These letters and the hyphen, if the font has it.
#[tactic(auto, unfolding(crate::specs::Cuts::hyphen_in))]
fn hyphened(alloc: Global, font: &Font, hyphen: u8, letters: &[u8]) -> Result<Bytes, AllocError>
    ensures { IfOk result (λ it. it ≡ letters.now ++ hyphen_in font.now hyphen) }
{
    let mut chars = Bytes::from_slice(alloc, letters)?;
    if font.info().has_character(hyphen) {
        chars.push(hyphen)?;
    }
    Ok(chars)
}

/// The part up to a place, with its hyphen.
fn left_part(
    alloc: Global,
    font: &Font,
    hyphen: u8,
    left_end: Neighbour,
    letters: &[u8],
    place: usize,
) -> Result<Reading, AllocError>
    ensures { IfOk result (λ it. IsReading font.now (take place letters.now ++ hyphen_in font.now hyphen) left_end Neighbour.Boundary it) }
{
    let chars = hyphened(alloc, font, hyphen, front_of(letters, place))?;
    let reading = read_run(alloc, font, chars.as_slice(), left_end, Neighbour::Boundary)?;
    Ok(reading)
}

/// The part behind a place.
fn right_part(
    alloc: Global,
    font: &Font,
    right_end: Neighbour,
    letters: &[u8],
    place: usize,
) -> Result<Reading, AllocError>
    ensures { IfOk result (λ it. IsReading font.now (drop place letters.now) Neighbour.Boundary right_end it) }
{
    let reading = read_run(
        alloc,
        font,
        tail_of(letters, place),
        Neighbour::Boundary,
        right_end,
    )?;
    Ok(reading)
}

/// What a hyphen behind so many letters of a word does.
pub fn cut_at(
    alloc: Global,
    font: &Font,
    hyphen: u8,
    ends: WordEnds,
    letters: &[u8],
    word: &Unbroken,
    place: u8,
) -> Result<Cut, AllocError>
    ensures cut { IfOk result (λ it. IsCut font.now hyphen ends letters.now word.now place it) }
    ensures nested { IfOk result (λ it. AreNested it.pre × AreNested it.post) }
{
    let place = usize::from(place);
    let left = left_part(alloc, font, hyphen, ends.left, letters, place)?;
    let right = right_part(alloc, font, ends.right, letters, place)?;
    let cut = cut_of(word, place, left, right)?;
    Ok(cut)
}
