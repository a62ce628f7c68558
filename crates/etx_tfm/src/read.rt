//! A TFM file becomes a font.
ghost use Rattle.std.specs.Prelude.{◌≡◌, ◌+◌, ◌*◌, ◌≤◌, ◌<◌, Ok, IfOk, IfErr, IfNone, length, false, map};
ghost use Rattle.std.specs.List.{list_any};
ghost use Rattle.etx_matter.specs.Soundness.{IsSound, HasSizes};
ghost use Rattle.etx_tfm.specs.Headers.{IsSize};
ghost use Rattle.etx_tfm.specs.Lengths.{is_short, character_count};
ghost use Rattle.etx_tfm.specs.Tables.{words_in, first_code};
ghost use Rattle.etx_tfm.specs.Reading.{is_too_large, has_large, begins_elsewhere, some_large, some_elsewhere, has_bad_dimensions, has_bad_parameters, damage_in, checked, font_of, IsFontOf, IsFaultOf};

use crate::checks::{has_bad_characters, has_bad_recipes};
use crate::fault::{Damage, FontFault};
use crate::header::read_header;
use crate::lengths::{Lengths, read_lengths};
use crate::settle::has_bad_steps;
use crate::tables::{read_tables, section, words_in};
use crate::word::Word;
use etx_matter::{Dimensions, Font, FontHeader, FontInfo, Size};
use std::alloc::{AllocError, Global};

/// Damage of the kind [`Short`](Damage::Short).
#[tactic(auto, unfolding(crate::specs::Lengths::is_short))]
fn is_short(bytes: &[u8]) -> bool
    ensures { result ≡ is_short bytes.now }
{
    bytes.len() < 24 || bytes.len() < 4 * usize::from(read_lengths(bytes).file)
}

fn has_large(words: &[Word]) -> bool
    ensures { result ≡ has_large words.now }
{
    for word in words {
        if word.a != 0 && word.a != 255 {
            return true;
        }
    }
    false
}

fn some_large(words: &[Word], lengths: &Lengths) -> bool
    ensures { result ≡ some_large words.now lengths.now }
{
    has_large(section(words, lengths.widths_at(), usize::from(lengths.widths)))
        || has_large(section(words, lengths.heights_at(), usize::from(lengths.heights)))
        || has_large(section(words, lengths.depths_at(), usize::from(lengths.depths)))
        || has_large(section(words, lengths.italics_at(), usize::from(lengths.italics)))
        || has_large(section(words, lengths.kerns_at(), usize::from(lengths.kerns)))
}

/// Whether the first number isn't 0.
fn begins_elsewhere(numbers: &[i32]) -> bool
    ensures { result ≡ begins_elsewhere numbers.now }
{
    match numbers {
        [] => false,
        [first, ..] => first.unsigned_abs() > 0,
    }
}

fn some_elsewhere(dimensions: &Dimensions) -> bool
    ensures { result ≡ some_elsewhere dimensions.now }
{
    begins_elsewhere(dimensions.widths.as_slice())
        || begins_elsewhere(dimensions.heights.as_slice())
        || begins_elsewhere(dimensions.depths.as_slice())
        || begins_elsewhere(dimensions.italics.as_slice())
}

#[tactic(auto, unfolding(crate::specs::Reading::has_bad_dimensions))]
fn has_bad_dimensions(words: &[Word], lengths: &Lengths, font: &FontInfo) -> bool
    ensures { result ≡ has_bad_dimensions words.now lengths.now font.now }
{
    some_large(words, lengths) || some_elsewhere(&font.dimensions)
}

#[tactic(auto, unfolding(crate::specs::Reading::has_bad_parameters))]
fn has_bad_parameters(words: &[Word], lengths: &Lengths) -> bool
    ensures { result ≡ has_bad_parameters words.now lengths.now }
{
    let parameters = section(
        words,
        lengths.parameters_at(),
        usize::from(lengths.parameters),
    );
    match parameters {
        [] => false,
        [_, rest @ ..] => has_large(rest),
    }
}

/// The first kind of damage that the tables have.
#[tactic(auto, unfolding(crate::specs::Reading::damage_in))]
fn find_damage(
    alloc: Global,
    words: &[Word],
    lengths: &Lengths,
    font: &FontInfo,
) -> Result<Option<Damage>, AllocError>
    requires { font.now.first + length font.now.characters ≤ 256 }
    ensures value { IfOk result (λ found. found ≡ damage_in words.now lengths.now font.now) }
    ensures sound { IfOk result (λ found. IfNone found (IsSound font.now)) }
{
    if has_bad_characters(font) {
        return Ok(Some(Damage::Char));
    }
    if has_bad_dimensions(words, lengths, font) {
        return Ok(Some(Damage::Dimension));
    }
    if has_bad_steps(alloc, font)? {
        return Ok(Some(Damage::LigKern));
    }
    if has_bad_recipes(font) {
        return Ok(Some(Damage::Exten));
    }
    if has_bad_parameters(words, lengths) {
        return Ok(Some(Damage::Param));
    }
    Ok(None)
}

/// The font whose file has these words behind its lengths, which are right.
#[tactic(auto, unfolding(crate::specs::Reading::checked))]
fn read_checked(
    alloc: Global,
    header: FontHeader,
    words: &[Word],
    lengths: &Lengths,
) -> Result<Font, FontFault>
    requires sizes { HasSizes header }
    requires codes { first_code lengths.now + character_count lengths.now ≤ 256 }
    ensures font { IfOk result (λ font. IsFontOf font (checked header words.now lengths.now)) }
    ensures fault { IfErr result (λ fault. IsFaultOf fault (checked header words.now lengths.now)) }
{
    let info = read_tables(alloc, header, words, lengths)?;
    match find_damage(alloc, words, lengths, &info)? {
        Some(damage) => Err(FontFault::BadMetric(damage)),
        None => Ok(Font::new(0, info)),
    }
}

/// The font whose TFM file has these bytes, at this size: an `At` is from 1 to 134217727, and a `Scaled` from 1 to 32768.
/// Its number is 0.
///
/// `BadMetric` comes exactly where the file is damaged, with the first kind of damage in the order of [`Damage`];
/// `OutOfMemory` only where memory is wanting.
#[tactic(auto, unfolding(crate::specs::Reading::font_of))]
pub fn read_font(alloc: Global, bytes: &[u8], size: Size) -> Result<Font, FontFault>
    requires { IsSize size }
    ensures font { IfOk result (λ font. IsFontOf font (font_of bytes.now size)) }
    ensures fault { IfErr result (λ fault. IsFaultOf fault (font_of bytes.now size)) }
{
    if is_short(bytes) {
        return Err(FontFault::BadMetric(Damage::Short));
    }
    let lengths = read_lengths(bytes);
    if lengths.has_wrong_sizes() {
        return Err(FontFault::BadMetric(Damage::Sizes));
    }
    let Some(header) = read_header(bytes, &lengths, size) else {
        return Err(FontFault::BadMetric(Damage::Header));
    };
    let words = words_in(alloc, bytes, &lengths)?;
    read_checked(alloc, header, words.as_slice(), &lengths)
}
