//! A map that remembers what it was.
//!
//! A [`Store`] is a map from slots, with a history of its sets. A [`Mark`] is a place in that history: the number of sets
//! that stand since the store was made or last forgot. [`Store::back_to`] takes back each set since a mark, without taking
//! memory, and [`Store::value_at`] reads a slot as it was at a mark. Most slots are a place in a row, so that a look at one
//! is an index.
//!
//! [`StateMark`] is a mark of the whole state of a job, as the crates above put it together.
#![tactic(auto)]

mod law;
mod row;
mod slot;
mod state_mark;
mod store;
mod table;

pub use law::a_mark_keeps_its_map;
pub use slot::{NAMES, SMALL, Slot};
pub use state_mark::{InputMark, RestMark, StateMark};
pub use store::{Mark, Store};
