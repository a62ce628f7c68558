//! The best break of a vertical list, as `\vsplit` and the page builder's insertions use it ("TeX: The Program", sections
//! 967 to 977).
#![tactic(auto)]

mod best;
mod column;
mod places;
mod split;
mod trial;

pub use split::{Split, vert_break};
