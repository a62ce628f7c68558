//! The mouth: it reads, expands and carries out, one token after the other, up to what the outside has to do.
//!
//! [`Mouth::advance`] makes as many quiet turns as the budget lets it, and then one that yields something: a deed, a file that
//! is asked for, or the job's end. Main control and the dispatch of what stands on the mouth's stack are here, and so are
//! the fast ways through calls, bodies and commands, each of which is shown to be a run of such turns.
#![tactic(auto)]

mod commands;
mod law;
mod machine;
mod mouth;
mod skim;
mod skim_body;
mod skim_command;
mod skim_number;
mod skim_skip;
mod yields;

pub use law::each_run_halts_in_one_way;
pub use mouth::{Mouth, Source};
pub use yields::{Halt, Yield};
