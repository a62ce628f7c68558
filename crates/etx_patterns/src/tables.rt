ghost use Rattle.std.specs.Prelude.{◌≡◌, IfOk};

use crate::step::Step;
use etx_lists::{Bytes, Listed};
use std::alloc::{AllocError, Global};

/// A pattern of a language.
#[derive(Drop)]
pub struct Pattern {
    pub language: u8,
    pub steps: Listed<Step>,
}

/// A word of a language whose places are given.
#[derive(Drop)]
pub struct Exception {
    pub language: u8,
    pub word: Bytes,
    /// How many letters stand before each place.
    pub places: Bytes,
}

impl Pattern {
    pub fn copy(&self) -> Result<Pattern, AllocError>
        ensures { IfOk result (λ it. it ≡ self.now) }
    {
        let steps = self.steps.copy()?;
        Ok(Pattern {
            language: self.language,
            steps,
        })
    }
}

impl Exception {
    pub fn copy(&self) -> Result<Exception, AllocError>
        ensures { IfOk result (λ it. it ≡ self.now) }
    {
        let word = self.word.copy()?;
        let places = self.places.copy()?;
        Ok(Exception {
            language: self.language,
            word,
            places,
        })
    }
}

/// An equal list of patterns.
pub fn copy_patterns(alloc: Global, patterns: &[Pattern]) -> Result<Vec<Pattern>, AllocError>
    ensures { IfOk result (λ it. it.items ≡ patterns.now) }
{
    let mut copies = Vec::new(alloc);
    for pattern in patterns {
        copies.push(pattern.copy()?)?;
    }
    Ok(copies)
}

/// An equal list of exceptions.
pub fn copy_exceptions(
    alloc: Global,
    exceptions: &[Exception],
) -> Result<Vec<Exception>, AllocError>
    ensures { IfOk result (λ it. it.items ≡ exceptions.now) }
{
    let mut copies = Vec::new(alloc);
    for exception in exceptions {
        copies.push(exception.copy()?)?;
    }
    Ok(copies)
}
