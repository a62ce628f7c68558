//! Lists become boxes: the glue of a list is set so that it comes to a size ("TeX: The Program", sections 644 to 679).
//!
//! All sums are exact, and so is the fraction by which glue is set. Only what is stored is brought into -(2^31 - 1) to
//! 2^31 - 1 sp where it lies beyond: the sizes of the box that comes out, and the excess that is reported; and so are the
//! two sizes of which the badness is taken.
#![tactic(auto)]

mod boxes;
mod fitting;
mod orders;
mod packing;
mod reaches;
mod spacing;
mod totals;
mod walks;

pub use boxes::Packed;
pub use fitting::{badness_between, within_32_bits};
pub use orders::OrderTotals;
pub use packing::{hpack, vpack};
pub use reaches::{vertical_hang, vertical_length};
pub use spacing::{growth, pull};
