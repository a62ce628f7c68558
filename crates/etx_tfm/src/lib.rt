//! Fonts: a TFM file becomes a [`Font`](etx_matter::Font), or the first kind of damage that it has, and a font makes
//! ligatures and kerns of a run of characters.
//!
//! The format is that of the definition of TFM ("TeX: The Program", sections 540 to 547), and what is refused is what TeX
//! refuses when it reads a font (sections 560 to 576).
#![tactic(auto)]

mod checks;
mod coming;
mod fault;
mod header;
mod law;
mod lengths;
mod machine;
mod numbers;
mod pairs;
mod piece;
mod program;
mod read;
mod reading;
mod rest;
mod runs;
mod settle;
mod tables;
mod word;

pub use fault::{Damage, FontFault};
pub use law::more_depth_changes_nothing;
pub use piece::{Neighbour, boundary_if};
pub use read::read_font;
pub use reading::{CleanPlace, Reading};
pub use runs::{ligkern, push_ligkern, read_run};
