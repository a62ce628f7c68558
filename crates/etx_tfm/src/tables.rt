//! The tables of a TFM file, made into those of a font.
ghost use Rattle.std.specs.Prelude.{◌≡◌, ◌+◌, ◌*◌, ◌-◌, ◌≤◌, ◌<◌, ◌++◌, length, map, pos, take, drop, replicate, IfOk, OnOk};
ghost use Rattle.etx_tfm.specs.Words.{words_of, char_of, step_of, recipe_of};
ghost use Rattle.etx_tfm.specs.Numbers.{fix_word};
ghost use Rattle.etx_tfm.specs.Lengths.{lengths_of};
ghost use Rattle.etx_tfm.specs.Tables.{section, words_in, first_code, boundary_of, left_program_in, left_program_of, parameters_of, dimensions_of, tables_of};

use crate::lengths::Lengths;
use crate::numbers::{fix_word, slant_of};
use crate::word::{Word, char_of, read_words, recipe_of, step_of};
use etx_lists::Listed;
use etx_matter::{CharInfo, Dimensions, FontHeader, FontInfo, LigStep, Recipe};
use std::alloc::{AllocError, Global};

/// So many items from a place on, or as many as there are.
pub fn section<T>(items: &[T], from: usize, count: usize) -> &[T]
    ensures { result.now ≡ section items.now from count }
{
    let (_, behind) = items.split_at(from.min(items.len()));
    let (front, _) = behind.split_at(count.min(behind.len()));
    front
}

/// The words of a file behind its lengths.
#[tactic(auto, unfolding(crate::specs::Tables::words_in))]
pub fn words_in(alloc: Global, bytes: &[u8], lengths: &Lengths) -> Result<Vec<Word>, AllocError>
    ensures { IfOk result (λ it. it.items ≡ words_in bytes.now lengths.now) }
{
    let length = (4 * usize::from(lengths.file)).saturating_sub(24);
    read_words(alloc, section(bytes, 24, length))
}

/// The code of the first character's word.
pub fn first_code(lengths: &Lengths) -> u8
    ensures { result ≡ first_code lengths.now }
{
    if lengths.first > 255 {
        1
    } else {
        lengths.first as u8
    }
}

fn read_characters(alloc: Global, words: &[Word]) -> Result<Listed<CharInfo>, AllocError>
    ensures { IfOk result (λ it. it ≡ map char_of words.now) }
{
    let mut out = Listed::new(alloc);
    for word in words {
        out.push(char_of(*word))?;
    }
    Ok(out)
}

fn read_steps(alloc: Global, words: &[Word]) -> Result<Listed<LigStep>, AllocError>
    ensures { IfOk result (λ it. it ≡ map step_of words.now) }
{
    let mut out = Listed::new(alloc);
    for word in words {
        out.push(step_of(*word))?;
    }
    Ok(out)
}

fn read_recipes(alloc: Global, words: &[Word]) -> Result<Listed<Recipe>, AllocError>
    ensures { IfOk result (λ it. it ≡ map recipe_of words.now) }
{
    let mut out = Listed::new(alloc);
    for word in words {
        out.push(recipe_of(*word))?;
    }
    Ok(out)
}

/// Adds the numbers of sp that these words stand for.
fn push_numbers(size: u32, words: &[Word], out: &mut Listed<i32>) -> Result<(), AllocError>
    requires { size < 134217728 }
    ensures { OnOk result (out.new ≡ out.old ++ map (fix_word size) words.now) }
{
    for word in words {
        out.push(fix_word(size, *word))?;
    }
    Ok(())
}

fn read_numbers(alloc: Global, size: u32, words: &[Word]) -> Result<Listed<i32>, AllocError>
    requires { size < 134217728 }
    ensures { IfOk result (λ it. it ≡ map (fix_word size) words.now) }
{
    let mut out = Listed::new(alloc);
    push_numbers(size, words, &mut out)?;
    Ok(out)
}

/// Adds zeros up to the seventh number.
fn fill_up(out: &mut Listed<i32>) -> Result<(), AllocError>
    ensures { OnOk result (out.new ≡ out.old ++ replicate (7 - length out.old) (pos 0)) }
{
    let missing = 7usize.saturating_sub(out.len());
    for _ in 0..missing {
        out.push(0)?;
    }
    Ok(())
}

fn read_parameters(alloc: Global, size: u32, words: &[Word]) -> Result<Listed<i32>, AllocError>
    requires { size < 134217728 }
    ensures { IfOk result (λ it. it ≡ parameters_of size words.now) }
{
    let mut out = Listed::new(alloc);
    if let [slant, rest @ ..] = words {
        out.push(slant_of(*slant))?;
        push_numbers(size, rest, &mut out)?;
    }
    fill_up(&mut out)?;
    Ok(out)
}

fn boundary_of(steps: &[Word]) -> Option<u8>
    ensures { result ≡ boundary_of steps.now }
{
    let first = steps.first()?;
    if first.a == 255 { Some(first.b) } else { None }
}

fn left_program_in(last: Word) -> Option<u16>
    ensures { result ≡ left_program_in last }
{
    if last.a == 255 {
        Some(u16::from(last.c) * 256 + u16::from(last.d))
    } else {
        None
    }
}

fn left_program_of(steps: &[Word]) -> Option<u16>
    ensures { result ≡ left_program_of steps.now }
{
    let last = steps.last()?;
    left_program_in(*last)
}

fn read_dimensions(
    alloc: Global,
    size: u32,
    words: &[Word],
    lengths: &Lengths,
) -> Result<Dimensions, AllocError>
    requires { size < 134217728 }
    ensures { IfOk result (λ it. it ≡ dimensions_of size words.now lengths.now) }
{
    let widths = section(words, lengths.widths_at(), usize::from(lengths.widths));
    let heights = section(words, lengths.heights_at(), usize::from(lengths.heights));
    let depths = section(words, lengths.depths_at(), usize::from(lengths.depths));
    let italics = section(words, lengths.italics_at(), usize::from(lengths.italics));
    Ok(Dimensions {
        widths: read_numbers(alloc, size, widths)?,
        heights: read_numbers(alloc, size, heights)?,
        depths: read_numbers(alloc, size, depths)?,
        italics: read_numbers(alloc, size, italics)?,
    })
}

/// The tables of a font whose file has these words behind its lengths.
#[tactic(auto, unfolding(crate::specs::Tables::tables_of))]
pub fn read_tables(
    alloc: Global,
    header: FontHeader,
    words: &[Word],
    lengths: &Lengths,
) -> Result<FontInfo, AllocError>
    requires { header.size < 134217728 }
    ensures { IfOk result (λ it. it ≡ tables_of header words.now lengths.now) }
{
    let characters = section(words, lengths.characters_at(), lengths.character_count());
    let steps = section(words, lengths.steps_at(), usize::from(lengths.steps));
    let kerns = section(words, lengths.kerns_at(), usize::from(lengths.kerns));
    let recipes = section(words, lengths.recipes_at(), usize::from(lengths.recipes));
    let parameters = section(
        words,
        lengths.parameters_at(),
        usize::from(lengths.parameters),
    );
    Ok(FontInfo {
        header,
        first: first_code(lengths),
        characters: read_characters(alloc, characters)?,
        dimensions: read_dimensions(alloc, header.size, words, lengths)?,
        boundary: boundary_of(steps),
        left_program: left_program_of(steps),
        steps: read_steps(alloc, steps)?,
        kerns: read_numbers(alloc, header.size, kerns)?,
        recipes: read_recipes(alloc, recipes)?,
        parameters: read_parameters(alloc, header.size, parameters)?,
    })
}
