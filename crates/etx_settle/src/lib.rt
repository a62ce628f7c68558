//! Deeds become history: a [`Journal`] keeps deeds until they are flushed, and then writes them in order.
//!
//! What deeds write is stated in `specs/Deeds.antt`: a text goes whole to the log and then, if it is for the terminal,
//! whole to the terminal, so whatever fails, what was written is a front of what was to be written.
#![tactic(auto)]

mod fault;
mod journal;
mod pen;
mod text;

pub use fault::FlushFault;
pub use journal::Journal;
