//! Optimum line breaking ("TeX: The Program", sections 813 to 890).
//!
//! A row is a way to end a line at a break: the best one for its line and class. The rows of a paragraph are a table by
//! recursion over its breaks. The code goes on from those alone at which a later line can begin; it keeps the others too,
//! since breaks are followed back through them.
#![tactic(auto)]

mod bests;
mod breaker;
mod chosen;
mod line;
mod paragraph;
mod pass;
mod passes;
mod row;
mod told;

pub use paragraph::break_paragraph;
pub use passes::{first_breaks, later_breaks};
