//! The patterns of all languages.
ghost use Rattle.std.specs.Prelude.{◌≡◌, ◌+◌, ◌<◌, ◌≤◌, [], ◌∷◌, ◌++◌, ℕ, true, false, length, slice_index, MatchOption, IfOk, OnOk, OnErr};
ghost use Rattle.etx_patterns.specs.Tables.{is_known, all_letters, new_pattern, replaced, greatest_digit, IsKnownAt};
ghost use Rattle.etx_patterns.specs.Shapes.{path_in, shape, letter_count};

use crate::marks::{has_digit, letter_count};
use crate::score::score_word;
use crate::step::{Mark, Step};
use crate::tables::{Pattern, copy_patterns};
use crate::trie::Trie;
use etx_lists::Listed;
use std::alloc::{AllocError, Global};
use std::marker::Model;

/// The patterns of all languages, in the order in which they were added, and a trie that leads to them.
#[derive(Drop)]
pub struct PatternList {
    patterns: Vec<Pattern>,
    trie: Trie,
    letters: usize,
}

impl Model for PatternList {
    ghost use Rattle.std.specs.Prelude.{List};
    ghost use Rattle.etx_patterns.specs.declared.tables.Pattern.{Pattern};

    ghost Value = { List Pattern };

    ghost use Rattle.etx_patterns.specs.Kept.{PatternsKept};

    ghost view = { λ it. it.patterns.items };

    ghost invariant = { λ it. PatternsKept it.trie it.patterns.items it.letters };
}

impl Clone for PatternList {
    ghost is_clone = { λ it copy. copy ≡ it };

    fn clone(&self) -> Result<PatternList, AllocError> {
        let patterns = copy_patterns(*self.patterns.allocator(), self.patterns.as_slice())?;
        let trie = self.trie.copy()?;
        Ok(PatternList {
            patterns,
            trie,
            letters: self.letters,
        })
    }
}

impl PatternList {
    /// No pattern.
    pub fn new(alloc: Global) -> Result<PatternList, AllocError>
        ensures { IfOk result (λ it. it ≡ []) }
    {
        let trie = Trie::new(alloc)?;
        Ok(PatternList {
            patterns: Vec::new(alloc),
            trie,
            letters: 0,
        })
    }

    pub fn allocator(&self) -> Global {
        *self.patterns.allocator()
    }

    /// The letters of all patterns.
    pub fn letters(&self) -> usize
        ensures value { result ≡ all_letters self.now }
        ensures few { result ≤ 1000000 }
    {
        self.letters
    }

    /// The number of the pattern with this path and with a digit above 0.
    fn known_at(&self, path: &[Mark]) -> Option<usize>
        ensures { MatchOption result
            (is_known self.now path.now ≡ false)
            (λ i. IsKnownAt self.now path.now i) }
    {
        let at = self.trie.find(path)?;
        let entry = self.trie.entry(at)?;
        if has_digit(self.patterns[entry].steps.as_slice()) {
            Some(entry)
        } else {
            None
        }
    }

    /// Whether there is a pattern with this path and with a digit above 0.
    pub fn is_known(&self, path: &[Mark]) -> bool
        ensures { result ≡ is_known self.now path.now }
    {
        match self.known_at(path) {
            Some(_) => true,
            None => false,
        }
    }

    /// Adds a pattern with this path.
    pub fn push(&mut self, language: u8, steps: &[Step], path: &[Mark]) -> Result<(), AllocError>
        requires path { path.now ≡ path_in language (shape steps.now) }
        requires unknown { is_known self.old path.now ≡ false }
        requires room { all_letters self.old + letter_count steps.now ≤ 1000000 }
        ensures ok { OnOk result (self.new ≡ self.old ++ new_pattern language steps.now ∷ []) }
        ensures err { OnErr result (self.new ≡ self.old) }
    {
        let letters = letter_count(steps);
        let steps = Listed::from_slice(*self.patterns.allocator(), steps)?;
        let at = self.trie.reach(path)?;
        let entry = self.patterns.len();
        self.patterns.push(Pattern { language, steps })?;
        self.trie.set_entry(at, entry);
        self.letters += letters;
        Ok(())
    }

    /// Puts the steps in the place of those of the pattern with their path and with a digit above 0. Where there is no
    /// such pattern it does nothing.
    pub fn replace(&mut self, language: u8, steps: &[Step], path: &[Mark]) -> Result<(), AllocError>
        requires path { path.now ≡ path_in language (shape steps.now) }
        requires known { is_known self.old path.now ≡ true }
        ensures ok { OnOk result (self.new ≡ replaced self.old (new_pattern language steps.now)) }
        ensures err { OnErr result (self.new ≡ self.old) }
    {
        let steps = Listed::from_slice(*self.patterns.allocator(), steps)?;
        if let Some(entry) = self.known_at(path) {
            self.patterns[entry].steps = steps;
        }
        Ok(())
    }

    /// Raises the scores, which are 0, to the greatest digit at each place over all patterns of the language that match.
    pub fn score(&self, language: u8, marks: &[Mark], scores: &mut [u8])
        requires room { length marks.now < length scores.old }
        requires zero { (place : ℕ) → slice_index scores.old place ≡ 0 }
        ensures { (place : ℕ) → place < length scores.old → slice_index scores.new place ≡ greatest_digit self.now language marks.now place }
    {
        score_word(
            &self.trie,
            self.patterns.as_slice(),
            language,
            marks,
            scores,
        );
    }
}
