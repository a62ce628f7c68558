//! The top calls of `etx`: a job from the words of the command line to its status.
//!
//! [`typeset_alone`] carries the equivalence theorem: what it reads, what it writes and what it answers are those of the
//! plain meaning of its words, which `specs/Chain.antt` and `specs/Meaning.antt` define.
#![tactic(auto)]

mod driver;
mod fault;
mod law;
mod typeset;
mod words;

pub use law::{
    a_job_keeps_to_its_files, each_job_has_one_meaning, more_budget_changes_nothing,
    the_column_is_that_of_the_log, the_log_is_what_was_said,
};
pub use typeset::typeset_alone;
