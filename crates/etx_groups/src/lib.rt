//! Groups and assignments, over the rest of the state.
//!
//! The values of the state are a list of maps: an outermost one that has every key, and one for each open group. The
//! calls here are stated over this list alone. How the state keeps it, with cells in rows and a stack of what the ends of
//! groups put back, no contract says.
#![tactic(auto)]

mod groups;
pub mod law;

pub use groups::{GroupEnd, NoGroup, after, assign, assign_global, begin, end};
