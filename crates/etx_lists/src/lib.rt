//! Lists of at most 2^30 items, which contracts see as plain lists.
//!
//! Every list that stands in a type which contracts compare is a [`Listed`]: two of them are equal where their items
//! are, whatever their capacities. Their bound keeps each place in a list within a `u32`, and each sum over one within
//! 64 bits. A list that is taken from at the front is a [`Queue`].
#![tactic(auto)]

mod listed;
mod queue;

pub use listed::{Bytes, Listed, MOST};
pub use queue::Queue;
