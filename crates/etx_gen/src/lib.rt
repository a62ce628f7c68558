//! A document to measure with, and the small font that it is set in.
//!
//! Both are defined apart from the code: the document as lists of letters, words and paragraphs that a stream of
//! draws decides, and the font by its tables.
#![tactic(auto)]

mod document;
mod draws;
mod font;

pub use document::make_document;
pub use font::small_font;
