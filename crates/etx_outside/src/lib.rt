//! The outside of a job: a tree of files and a terminal, as traits, in memory, and as the current folder with standard
//! output.
//!
//! What a job does to the outside is one history: names that are asked for, files that are made, bytes that are added
//! to files, bytes that are said. The clauses of [`Tree`] and [`Terminal`] say which entries of it each call writes,
//! and when it may fail. [`MemTree`] and [`MemTerminal`] tell all that they hold, and fail in the calls whose numbers
//! they were given. [`RealTree`] and [`RealTerminal`] tell nothing: they are the trusted edge.
#![tactic(auto)]

mod memory;
mod memory_terminal;
pub mod names;
mod real;
mod terminal;
mod tree;

pub use memory::MemTree;
pub use memory_terminal::MemTerminal;
pub use real::{RealTerminal, RealTree};
pub use terminal::{TermFault, Terminal};
pub use tree::{LONGEST_FILE, Loaded, Tree, TreeFault};
