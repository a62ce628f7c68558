//! Expansion, and the interpreter of the mouth's machine.
//!
//! The mouth is an explicit machine. What it is in the middle of stands on a stack of entries. A turn takes the entry on top
//! off, and handles one token or one value for it. What becomes of that is decided by rows, which answer data
//! ([`Plan`], [`Start`], [`Ended`]), and the interpreter ([`make`], [`begin`], [`follow`]) carries it out. The rules are those of "TeX: The
//! Program", sections 332 to 510.
#![tactic(auto)]

mod call;
mod converting;
mod expand;
mod fetch;
mod get;
mod law;
mod moves;
mod names;
mod texts;
mod turns;

pub use expand::{expansion_begun, is_plain};
pub use fetch::{Fetched, Idle, expand_token, fetch_behind, fetch_command, fetch_for, go_idle};
pub use law::{a_call_is_read_as_its_body, each_turn_goes_on};
pub use moves::{
    begin, do_alone, enter, error_deed, follow, insert_if, make, make_word, put_back, read_one,
};
pub use texts::text_for;
pub use turns::{
    put_both_back, take_expansion, take_number, take_number_word, take_text, turn_due,
    turn_expand_after, turn_number, turn_outer, turn_say, turn_text,
};
