//! Assignments: definitions of macros, `\let` and `\futurelet`, `\catcode`, with their prefixes, and the tokens that
//! `\aftergroup` and `\afterassignment` keep.
//!
//! [`begin`] says what an assignment begins. [`scan`], [`number`] and [`future`] are the turns of what it leaves on the
//! stack. The rules are those of "TeX: The Program", sections 473 to 479, 1208 to 1232 and 1265 to 1271, and of the e-TeX
//! manual for `\protected`.
#![tactic(auto)]

mod arithmetic;
mod assignment;
mod begun;
mod body;
mod definition;
mod equals;
mod law;
mod lists;
mod naming;
mod numbers;
mod parameters;
mod prefix;
mod turns;

pub use law::each_assignment_goes_on;
pub use prefix::{begin, begin_register, is_assignment, no_prefixes, prefix_scan, with_prefix};
pub use turns::{future, number, scan, text, word};
