//! The lines of a paragraph whose breaks are chosen: boxes with glue at their sides, each with its shape, the glue and the
//! penalties between them, and what moves out of them ("TeX: The Program", sections 877 to 890).
#![tactic(auto)]

mod between;
mod items;
mod lines;
mod setting;
mod sorting;

pub use between::interline_glue;
pub use lines::set_lines;
