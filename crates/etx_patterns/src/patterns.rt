//! Hyphenation tables.
ghost use Rattle.std.specs.Prelude.{◌≡◌, ◌≤◌, ℕ, List, length, All, IfOk, OnOk, OnErr};
ghost use Rattle.etx_patterns.specs.Tables.{empty, with_pattern, with_replaced, with_exception, pattern_refusal, replacement_refusal, exception_refusal, AnswersBy, places_of};

use crate::exception_list::ExceptionList;
use crate::marks::{framed, has_zero_letter, letter_count, pattern_path, word_path};
use crate::pattern_list::PatternList;
use crate::places::{listed_places, odd_places};
use crate::refused::PatternRefused;
use crate::step::Step;
use std::alloc::{AllocError, Global};
use std::marker::Model;
use std::sync::Arc;

/// The most letters that all patterns have.
const MOST_LETTERS: usize = 1_000_000;

/// Hyphenation tables for all languages.
///
/// Contracts see the list of patterns, in the order in which they were added, and the list of exceptions, at most one
/// for each word of a language. Both are shared by the copies of the tables, each for itself: a change copies its own part
/// alone, and only where another copy has it too.
#[derive(Drop)]
pub struct Patterns {
    patterns: Arc<PatternList, Global>,
    exceptions: Arc<ExceptionList, Global>,
}

impl Model for Patterns {
    ghost use Rattle.std.specs.Arc.{arc_value};
    ghost use Rattle.etx_patterns.specs.Tables.{Tables};

    ghost Value = { Tables };

    ghost view = { λ it. record { patterns = arc_value it.patterns; exceptions = arc_value it.exceptions } };
}

impl Patterns {
    /// Tables with no pattern and no exception.
    pub fn new(alloc: Global) -> Result<Patterns, AllocError>
        ensures { IfOk result (λ it. it ≡ empty) }
    {
        let patterns = PatternList::new(alloc)?;
        let exceptions = ExceptionList::new(alloc)?;
        Ok(Patterns {
            patterns: Arc::new(alloc, patterns)?,
            exceptions: Arc::new(alloc, exceptions)?,
        })
    }

    /// Equal tables, which later changes of these don't reach. It copies no pattern and no exception; the only want is of
    /// room in the counts of those that share them.
    pub fn copy(&self) -> Result<Patterns, AllocError>
        ensures { IfOk result (λ it. it ≡ self.now) }
    {
        Ok(Patterns {
            patterns: Arc::try_clone(&self.patterns)?,
            exceptions: Arc::try_clone(&self.exceptions)?,
        })
    }

    /// Adds a pattern.
    ///
    /// Refused, in this order: `NonLetter` exactly where a letter is 0; `Duplicate` exactly where the language has a
    /// pattern of the same letters and edges, in the same order, with a digit above 0; `Full` exactly where the
    /// letters of all patterns would pass 1000000. After an `Err` the tables are as before.
    pub fn add(&mut self, language: u8, pattern: &[Step]) -> Result<(), PatternRefused>
        ensures ok { OnOk result (self.new ≡ with_pattern self.old language pattern.now) }
        ensures err { OnErr result (self.new ≡ self.old) }
        ensures answer { AnswersBy (pattern_refusal self.old language pattern.now) result }
    {
        if has_zero_letter(pattern) {
            return Err(PatternRefused::NonLetter);
        }
        let path = pattern_path(self.patterns.allocator(), language, pattern)?;
        if self.knows(path.as_slice()) {
            return Err(PatternRefused::Duplicate);
        }
        if letter_count(pattern) > MOST_LETTERS - self.letters() {
            return Err(PatternRefused::Full);
        }
        self.push_pattern(language, pattern, path.as_slice())?;
        Ok(())
    }

    /// Adds a pattern, and puts it in the place of the one that would make `add` refuse it as a `Duplicate`: what TeX
    /// does after that error ("TeX: The Program", section 963).
    ///
    /// Refused, in this order: `NonLetter` exactly where a letter is 0; `Full` exactly where the language has no pattern
    /// of the same letters and edges, in the same order, with a digit above 0, and the letters of all patterns would
    /// pass 1000000. After an `Err` the tables are as before.
    pub fn replace(&mut self, language: u8, pattern: &[Step]) -> Result<(), PatternRefused>
        ensures ok { OnOk result (self.new ≡ with_replaced self.old language pattern.now) }
        ensures err { OnErr result (self.new ≡ self.old) }
        ensures answer { AnswersBy (replacement_refusal self.old language pattern.now) result }
    {
        if has_zero_letter(pattern) {
            return Err(PatternRefused::NonLetter);
        }
        let path = pattern_path(self.patterns.allocator(), language, pattern)?;
        if self.knows(path.as_slice()) {
            self.replace_pattern(language, pattern, path.as_slice())?;
            return Ok(());
        }
        if letter_count(pattern) > MOST_LETTERS - self.letters() {
            return Err(PatternRefused::Full);
        }
        self.push_pattern(language, pattern, path.as_slice())?;
        Ok(())
    }

    /// Gives a word the places that a hyphen may follow: how many letters stand before each.
    ///
    /// A word that has an exception gets these places in its stead. Refused: `NonLetter` exactly where a letter is 0;
    /// then `Full` exactly where the word has no exception and 10000 other words have one. After an `Err` the tables
    /// are as before.
    pub fn except(&mut self, language: u8, word: &[u8], places: &[u8]) -> Result<(), PatternRefused>
        requires few { length word.now ≤ 63 }
        requires within { All (λ place. place ≤ length word.now) places.now }
        ensures ok { OnOk result (self.new ≡ with_exception self.old language word.now places.now) }
        ensures err { OnErr result (self.new ≡ self.old) }
        ensures answer { AnswersBy (exception_refusal self.old language word.now) result }
    {
        if word.contains(&0) {
            return Err(PatternRefused::NonLetter);
        }
        let path = word_path(self.patterns.allocator(), language, word)?;
        if !self.has_room_for(path.as_slice()) {
            return Err(PatternRefused::Full);
        }
        self.put_exception(language, word, places, path.as_slice())?;
        Ok(())
    }

    /// The places between two letters of a word that a hyphen may follow, ascending: how many letters stand before
    /// each, from 1 to one less than the word has.
    ///
    /// They are those that the word's exception lists, if it has one; otherwise those at which the greatest digit,
    /// over all patterns of the language that match somewhere in the word with its two edges, is odd.
    pub fn breaks(&self, language: u8, word: &[u8]) -> Result<Vec<u8>, AllocError>
        requires { length word.now ≤ 63 }
        ensures { IfOk result (λ it. it.items ≡ places_of self.now language word.now) }
    {
        let alloc = self.patterns.allocator();
        let path = word_path(alloc, language, word)?;
        if let Some(places) = self.listed(path.as_slice()) {
            return listed_places(alloc, word.len(), places);
        }
        let marks = framed(alloc, word)?;
        let mut scores = [0; 66];
        self.score(language, marks.as_slice(), &mut scores);
        odd_places(alloc, word.len(), &scores)
    }
}

ghost use Rattle.std.specs.Prelude.{◌<◌, ◌+◌, true, false, ◌++◌, ◌∷◌, [], MatchOption, None, Some, slice_index};
ghost use Rattle.etx_patterns.specs.Tables.{is_known, exception_of, all_letters, new_pattern, new_exception, replaced, put, has_room_for, greatest_digit};
ghost use Rattle.etx_patterns.specs.Shapes.{path_in, shape, word_marks, letter_count};

use crate::step::Mark;

impl Patterns {
    /// Whether there is a pattern with this path and with a digit above 0.
    fn knows(&self, path: &[Mark]) -> bool
        ensures { result ≡ is_known self.now.patterns path.now }
    {
        self.patterns.is_known(path)
    }

    /// The letters of all patterns.
    fn letters(&self) -> usize
        ensures value { result ≡ all_letters self.now.patterns }
        ensures few { result ≤ 1000000 }
    {
        self.patterns.letters()
    }

    /// Whether a word with this path can be given places.
    fn has_room_for(&self, path: &[Mark]) -> bool
        ensures { result ≡ has_room_for self.now.exceptions path.now }
    {
        self.exceptions.has_room_for(path)
    }

    /// The places of the exception with this path.
    fn listed(&self, path: &[Mark]) -> Option<&[u8]>
        ensures { MatchOption result
            (exception_of self.now.exceptions path.now ≡ None)
            (λ places. exception_of self.now.exceptions path.now ≡ Some places.now) }
    {
        self.exceptions.places(path)
    }

    /// Raises the scores, which are 0, to the greatest digit at each place over all patterns of the language that match.
    fn score(&self, language: u8, marks: &[Mark], scores: &mut [u8])
        requires room { length marks.now < length scores.old }
        requires zero { (place : ℕ) → slice_index scores.old place ≡ 0 }
        ensures { (place : ℕ) → place < length scores.old → slice_index scores.new place ≡ greatest_digit self.now.patterns language marks.now place }
    {
        self.patterns.score(language, marks, scores);
    }

    fn push_pattern(
        &mut self,
        language: u8,
        steps: &[Step],
        path: &[Mark],
    ) -> Result<(), AllocError>
        requires path { path.now ≡ path_in language (shape steps.now) }
        requires unknown { is_known self.old.patterns path.now ≡ false }
        requires room { all_letters self.old.patterns + letter_count steps.now ≤ 1000000 }
        ensures ok { OnOk result (self.new ≡ record self.old { patterns = self.old.patterns ++ new_pattern language steps.now ∷ [] }) }
        ensures err { OnErr result (self.new ≡ self.old) }
    {
        let patterns = Arc::make_mut(&mut self.patterns)?;
        patterns.push(language, steps, path)
    }

    fn replace_pattern(
        &mut self,
        language: u8,
        steps: &[Step],
        path: &[Mark],
    ) -> Result<(), AllocError>
        requires path { path.now ≡ path_in language (shape steps.now) }
        requires known { is_known self.old.patterns path.now ≡ true }
        ensures ok { OnOk result (self.new ≡ record self.old { patterns = replaced self.old.patterns (new_pattern language steps.now) }) }
        ensures err { OnErr result (self.new ≡ self.old) }
    {
        let patterns = Arc::make_mut(&mut self.patterns)?;
        patterns.replace(language, steps, path)
    }

    fn put_exception(
        &mut self,
        language: u8,
        word: &[u8],
        places: &[u8],
        path: &[Mark],
    ) -> Result<(), AllocError>
        requires path { path.now ≡ path_in language (word_marks word.now) }
        requires room { has_room_for self.old.exceptions path.now ≡ true }
        ensures ok { OnOk result (self.new ≡ record self.old { exceptions = put self.old.exceptions (new_exception language word.now places.now) }) }
        ensures err { OnErr result (self.new ≡ self.old) }
    {
        let exceptions = Arc::make_mut(&mut self.exceptions)?;
        exceptions.put(language, word, places, path)
    }
}

#[cfg(test)]
mod tests {
    use super::*;
    use std::test::Fail;

    const F1I: [Step; 3] = [Step::Letter(b'f'), Step::Digit(1), Step::Letter(b'i')];

    #[test]
    fn pattern(rt: HostRuntime) -> Result<(), Fail> {
        let mut tables = Patterns::new(rt.alloc())?;
        tables.add(0, &F1I)?;
        assert_eq!(rt; tables.breaks(0, b"afib")?.as_slice(), [2].as_slice());
        let copy = tables.copy()?;
        assert_eq!(rt; copy.breaks(0, b"afib")?.as_slice(), [2].as_slice());
        assert_eq!(rt; tables.add(0, &F1I), Err(PatternRefused::Duplicate));
        Ok(())
    }

    #[test]
    fn edges_and_digits(rt: HostRuntime) -> Result<(), Fail> {
        let mut tables = Patterns::new(rt.alloc())?;
        let anywhere = [Step::Letter(b'a'), Step::Digit(1), Step::Letter(b'b')];
        let at_the_end = [
            Step::Letter(b'a'),
            Step::Digit(2),
            Step::Letter(b'b'),
            Step::Edge,
        ];
        tables.add(7, &anywhere)?;
        tables.add(7, &at_the_end)?;
        assert_eq!(rt; tables.breaks(7, b"abab")?.as_slice(), [1].as_slice());
        assert_eq!(rt; tables.breaks(8, b"abab")?.len(), 0);
        Ok(())
    }

    #[test]
    fn refused(rt: HostRuntime) -> Result<(), Fail> {
        let mut tables = Patterns::new(rt.alloc())?;
        assert_eq!(rt;
            tables.add(0, &[Step::Letter(0)]),
            Err(PatternRefused::NonLetter)
        );
        assert_eq!(rt;
            tables.except(0, b"a\0", &[]),
            Err(PatternRefused::NonLetter)
        );
        Ok(())
    }

    #[test]
    fn replaced(rt: HostRuntime) -> Result<(), Fail> {
        let mut tables = Patterns::new(rt.alloc())?;
        tables.add(0, &F1I)?;
        let copy = tables.copy()?;
        tables.replace(0, &[Step::Letter(b'f'), Step::Digit(2), Step::Letter(b'i')])?;
        assert_eq!(rt; tables.breaks(0, b"afib")?.len(), 0);
        assert_eq!(rt; copy.breaks(0, b"afib")?.as_slice(), [2].as_slice());
        Ok(())
    }

    /// Whether a value may be handed to threads: only the bounds matter.
    fn is_for_threads<T: Send + Sync>(_value: &T) -> bool {
        true
    }

    #[test]
    fn tables_are_for_threads(rt: HostRuntime) -> Result<(), Fail> {
        let tables = Patterns::new(rt.alloc())?;
        assert!(rt; is_for_threads(&tables));
        Ok(())
    }

    #[test]
    fn exception(rt: HostRuntime) -> Result<(), Fail> {
        let mut tables = Patterns::new(rt.alloc())?;
        tables.add(0, &F1I)?;
        tables.except(0, b"afib", &[1])?;
        assert_eq!(rt; tables.breaks(0, b"afib")?.as_slice(), [1].as_slice());
        Ok(())
    }
}
