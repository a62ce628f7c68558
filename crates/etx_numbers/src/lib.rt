//! Numbers, dimensions, glue and expressions as they are scanned.
//!
//! Each scan is an entry of the mouth's stack that gets one token after the other: signs, constants, digits, units, keywords,
//! internal quantities with what they are coerced to, and the expressions of e-TeX. The rules are those of "TeX: The
//! Program", sections 402 to 462, and of the e-TeX manual.
#![tactic(auto)]

mod dimensions;
mod expressions;
mod internal;
mod numbers;
mod taking;
mod words;

pub use dimensions::number_word_row;
pub use expressions::outer_row;
pub use numbers::{INTEGER, is_other, number_row};
pub use taking::{amount_in, glue_in};
pub use words::{Spelled, Word, WordSet, begins_word, spell};
