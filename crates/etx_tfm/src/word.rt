//! The words of a TFM file, and what each says.
ghost use Rattle.std.specs.Prelude.{◌≡◌, ◌<◌, IfOk};
ghost use Rattle.etx_tfm.specs.Words.{words_of, tag_of, char_of, is_lawful, counted_as, ligature_of, action_of, step_of, part_of, recipe_of};

use etx_matter::{CharInfo, CharTag, LigStep, PairAction, Recipe};
use std::alloc::{AllocError, Global};

/// The four bytes of a word.
#[derive(Clone, Copy, Debug, PartialEq, Eq)]
pub struct Word {
    pub a: u8,
    pub b: u8,
    pub c: u8,
    pub d: u8,
}

/// The words of these bytes; what is less than a word at the end is left out.
#[tactic(auto, unfolding(crate::specs::Words::words_of))]
pub fn read_words(alloc: Global, bytes: &[u8]) -> Result<Vec<Word>, AllocError>
    ensures { IfOk result (λ it. it.items ≡ words_of bytes.now) }
{
    let mut words = Vec::new(alloc);
    let mut rest = bytes;
    while let [a, b, c, d, behind @ ..] = rest {
        words.push(Word {
            a: *a,
            b: *b,
            c: *c,
            d: *d,
        })?;
        rest = behind;
    }
    Ok(words)
}

fn tag_of(tag: u8, remainder: u8) -> CharTag
    ensures { result ≡ tag_of tag remainder }
{
    if tag == 0 {
        CharTag::Plain
    } else if tag == 1 {
        CharTag::Program(remainder)
    } else if tag == 2 {
        CharTag::Successor(remainder)
    } else {
        CharTag::Extensible(remainder)
    }
}

/// A word of the characters.
pub fn char_of(word: Word) -> CharInfo
    ensures { result ≡ char_of word }
{
    CharInfo {
        width: word.a,
        height: word.b / 16,
        depth: word.b % 16,
        italic: word.c / 4,
        tag: tag_of(word.c % 4, word.d),
    }
}

/// Whether an operation below 128 has a meaning.
fn is_lawful(operation: u8) -> bool
    ensures { result ≡ is_lawful operation }
{
    operation <= 3 || operation >= 5 && operation <= 7 || operation == 11
}

/// The operation as which it is carried out: one without a meaning counts as 0 ("TeX: The Program", section 1040).
fn counted_as(operation: u8) -> u8
    ensures { result ≡ counted_as operation }
{
    if is_lawful(operation) { operation } else { 0 }
}

fn ligature_of(operation: u8, code: u8) -> PairAction
    ensures { result ≡ ligature_of operation code }
{
    PairAction::Ligature {
        code,
        keeps_current: operation / 2 % 2 == 1,
        keeps_next: operation % 2 == 1,
        passes: operation / 4,
    }
}

fn action_of(operation: u8, remainder: u8) -> PairAction
    ensures { result ≡ action_of operation remainder }
{
    if operation >= 128 {
        return PairAction::Kern(u16::from(operation - 128) * 256 + u16::from(remainder));
    }
    ligature_of(counted_as(operation), remainder)
}

/// A word of the programs of ligatures and kerns.
pub fn step_of(word: Word) -> LigStep
    ensures { result ≡ step_of word }
{
    if word.a > 128 {
        return LigStep::Elsewhere(u16::from(word.c) * 256 + u16::from(word.d));
    }
    LigStep::Pair {
        next: word.b,
        action: action_of(word.c, word.d),
        skip: if word.a < 128 { Some(word.a) } else { None },
    }
}

fn part_of(code: u8) -> Option<u8>
    ensures { result ≡ part_of code }
{
    if code == 0 { None } else { Some(code) }
}

/// A word of the recipes of extensible characters.
pub fn recipe_of(word: Word) -> Recipe
    ensures { result ≡ recipe_of word }
{
    Recipe {
        top: part_of(word.a),
        middle: part_of(word.b),
        bottom: part_of(word.c),
        repeated: word.d,
    }
}
