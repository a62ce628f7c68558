//! A list that grows and shrinks at its end, and that goes back to marks.
//!
//! A [`Mark`] is a time to which a [`Stack`] can go back. Only an item that stood at the last mark is kept when it goes or
//! changes, and only once: all else costs what it costs in a vector, and a push never keeps anything.
#![tactic(auto)]

mod stack;

pub use stack::{Mark, Share, Stack};
