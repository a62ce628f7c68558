//! Hyphenation tables: the places of a word at which patterns and exceptions allow a hyphen.
//!
//! The tables are a list of patterns and a list of exceptions, and nothing else: contracts see them so. Inside, each list
//! has a trie, so that a word is looked up along its letters and no list is gone through, and is shared by all copies of
//! the tables until one of them changes it.
#![tactic(auto)]

mod exception_list;
mod marks;
mod pattern_list;
mod patterns;
mod places;
mod refused;
mod score;
mod step;
mod tables;
mod trie;

pub use patterns::Patterns;
pub use refused::PatternRefused;
pub use step::Step;
