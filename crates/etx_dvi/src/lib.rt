//! The commands of a DVI file that TeX writes, and their bytes.
//!
//! The bytes are those of the DVI definition, identifier 2 ("TeX: The Program", sections 583 to 591). Dimensions are in
//! scaled points (sp), 2^-16 of a printer's point.
#![tactic(auto)]

mod cold;
mod command;
mod hot;
mod law;
mod lengths;
mod tail;

pub use command::{Dvi, FontName};
pub use hot::put;
pub use law::{commands_come_apart, numbers_read_back, tail_fills_up};
pub use lengths::length;
pub use tail::put_tail;
