ghost use Rattle.std.specs.Prelude.{◌≡◌, ◌==◌, length, IfOk};
ghost use Rattle.std.specs.List.{list_any};
ghost use Rattle.etx_patterns.specs.Shapes.{shape, has_digit, has_zero_letter, letter_count, word_marks, framed, path_in};

use crate::step::{Mark, Step};
use std::alloc::{AllocError, Global};

/// The path of a pattern: its language, and then its letters and edges.
pub fn pattern_path(alloc: Global, language: u8, steps: &[Step]) -> Result<Vec<Mark>, AllocError>
    ensures { IfOk result (λ it. it.items ≡ path_in language (shape steps.now)) }
{
    let mut path = Vec::new(alloc);
    path.push(Mark::Language(language))?;
    for step in steps {
        match *step {
            Step::Letter(code) => path.push(Mark::Character(code))?,
            Step::Edge => path.push(Mark::Boundary)?,
            Step::Digit(_) => {}
        }
    }
    Ok(path)
}

/// The path of an exception: its language, and then its letters.
pub fn word_path(alloc: Global, language: u8, word: &[u8]) -> Result<Vec<Mark>, AllocError>
    ensures { IfOk result (λ it. it.items ≡ path_in language (word_marks word.now)) }
{
    let mut path = Vec::new(alloc);
    path.push(Mark::Language(language))?;
    for code in word {
        path.push(Mark::Character(*code))?;
    }
    Ok(path)
}

/// A word with its two edges.
pub fn framed(alloc: Global, word: &[u8]) -> Result<Vec<Mark>, AllocError>
    ensures { IfOk result (λ it. it.items ≡ framed word.now) }
{
    let mut marks = Vec::new(alloc);
    marks.push(Mark::Boundary)?;
    for code in word {
        marks.push(Mark::Character(*code))?;
    }
    marks.push(Mark::Boundary)?;
    Ok(marks)
}

/// Whether some digit is above 0.
pub fn has_digit(steps: &[Step]) -> bool
    ensures { result ≡ has_digit steps.now }
{
    for step in steps {
        if let Step::Digit(digit) = *step {
            if digit > 0 {
                return true;
            }
        }
    }
    false
}

/// Whether some letter is 0.
pub fn has_zero_letter(steps: &[Step]) -> bool
    ensures { result ≡ has_zero_letter steps.now }
{
    for step in steps {
        if let Step::Letter(code) = *step {
            if code == 0 {
                return true;
            }
        }
    }
    false
}

/// How many letters there are.
pub fn letter_count(steps: &[Step]) -> usize
    ensures { result ≡ letter_count steps.now }
{
    let mut count = 0;
    for step in steps {
        if let Step::Letter(_) = *step {
            count += 1;
        }
    }
    count
}
