//! Hyphens in words: a word of a paragraph is found, and rebuilt with a discretionary at each place at which its tables
//! allow a hyphen ("TeX: The Program", sections 891 to 918).
//!
//! How a word is rebuilt is this project's own. It is read by the ligatures and kerns of its font as it stands, and for
//! each place in two parts, as they stand where the line is broken there. A discretionary takes the place of the
//! letters around its hyphen that one of these readings ties together, and of no more.
#![tactic(auto)]

mod bounds;
mod cuts;
mod hyphenating;
mod law;
mod letters;
mod parts;
mod progress;
mod rebuilding;
mod walk;
mod words;

pub use cuts::WordEnds;
pub use hyphenating::hyphenated;
pub use law::hyphens_change_nothing;
pub use rebuilding::{rebuild, rebuild_between};
