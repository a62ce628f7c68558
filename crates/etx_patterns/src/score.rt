ghost use Rattle.std.specs.Prelude.{◌≡◌, ℕ, ◌+◌, ◌<◌, ◌≤◌, List, [], ◌∷◌, max, length, slice_index, slice_index_or, Option, None, Some};
ghost use Rattle.etx_patterns.specs.Shapes.{shape, digit_from, path_in};
ghost use Rattle.etx_patterns.specs.Tables.{given_digit, greatest_of, greatest_digit};
ghost use Rattle.etx_patterns.specs.Tree.{size, path_at, entry_at};
ghost use Rattle.etx_patterns.specs.Kept.{PatternsIndexed};
ghost use Rattle.etx_patterns.specs.Scores.{Raised, entry_digit};

use crate::step::{Mark, Step};
use crate::tables::Pattern;
use crate::trie::Trie;

/// Raises the scores, which are 0, to the greatest digit at each place over all patterns of the language that match.
pub fn score_word(
    trie: &Trie,
    patterns: &[Pattern],
    language: u8,
    marks: &[Mark],
    scores: &mut [u8],
)
    requires indexed { PatternsIndexed trie.now patterns.now }
    requires room { length marks.now < length scores.old }
    requires zero { (place : ℕ) → slice_index scores.old place ≡ 0 }
    ensures { (place : ℕ) → place < length scores.old → slice_index scores.new place ≡ greatest_digit patterns.now language marks.now place }
{
    let Some(top) = trie.child(trie.root(), Mark::Language(language)) else {
        return;
    };
    for start in 0..marks.len() + 1 {
        score_from(trie, patterns, language, top, marks, start, scores);
    }
}

/// Raises the scores by the patterns that match at `start`: walks from the language's node along the marks.
fn score_from(
    trie: &Trie,
    patterns: &[Pattern],
    language: u8,
    top: usize,
    marks: &[Mark],
    start: usize,
    scores: &mut [u8],
)
    requires indexed { PatternsIndexed trie.now patterns.now }
    requires top_within { top < size trie.now }
    requires top_path { path_at trie.now top ≡ path_in language [] }
    requires within { start ≤ length marks.now }
    requires room { length marks.now < length scores.old }
    ensures { Raised scores.old scores.new (λ place. greatest_of (given_digit language marks.now start place) patterns.now) }
{
    let mut at = top;
    score_entry(trie, patterns, at, start, scores);
    let rest = &marks[start..];
    for mark in rest {
        match trie.child(at, *mark) {
            None => return,
            Some(child) => at = child,
        }
        score_entry(trie, patterns, at, start, scores);
    }
}

/// Raises the scores by the pattern that ends at the node, if there is one, where it begins at `start`.
fn score_entry(trie: &Trie, patterns: &[Pattern], at: usize, start: usize, scores: &mut [u8])
    requires indexed { PatternsIndexed trie.now patterns.now }
    requires within { at < size trie.now }
    requires room { start + length (path_at trie.now at) ≤ length scores.old }
    ensures { Raised scores.old scores.new (entry_digit trie.now patterns.now at start) }
{
    if let Some(entry) = trie.entry(at) {
        raise(patterns[entry].steps.as_slice(), start, scores);
    }
}

/// Raises the scores to the digits of these steps, which begin at `start`.
fn raise(steps: &[Step], start: usize, scores: &mut [u8])
    requires { start + length (shape steps.now) < length scores.old }
    ensures { Raised scores.old scores.new (digit_from steps.now start) }
{
    let mut here = start;
    for step in steps {
        match *step {
            Step::Digit(digit) => {
                if scores[here] < digit {
                    scores[here] = digit;
                }
            }
            Step::Letter(_) | Step::Edge => here += 1,
        }
    }
}
