//! Conditionals: what begins a test, how it is decided, and how text is skipped.
//!
//! The rules are those of "TeX: The Program", sections 487 to 510, and of the e-TeX manual for its own tests.
#![tactic(auto)]

mod conditionals;
mod skips;

pub use conditionals::{
    case_taken, defined_row, first_character_row, first_meaning_row, first_taken, if_begun,
    if_cs_name_row, number_for, odd_taken, relation_row, second_character_row, second_meaning_row,
    second_taken, unless_row,
};
pub use skips::{fi_or_else_begun, skip_row};
