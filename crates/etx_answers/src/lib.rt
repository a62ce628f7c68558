//! What rows answer, and what a reader is shown.
//!
//! A row of the mouth's machine gets what it needs and answers data: a [`Plan`] of a scan, the [`Start`] of a command, what a
//! finisher has [`Ended`] with. Here stand these answers and their constructors, the shorter ones of scans that read numbers
//! ([`Read`]), what a meaning is to expansion ([`Expandable`]), and the texts in which names, tokens, meanings and amounts are
//! shown ("TeX: The Program", sections 57 to 70, 103, 178, 262, 263, 292 to 296).
#![tactic(auto)]

mod answers;
mod meaning;
mod plan;
mod printing;
mod read;
mod showing;

pub use answers::{
    ends, fails, fails_back, fails_before, fails_under, finished, insert_token, insert_tokens,
    nothing, plan_of, quiet, start_ends, start_fails, start_fails_back, start_fails_under,
    starting, used, value_ends,
};
pub use meaning::{
    Expandable, Reading, expandable_of, has_category, is_outer, is_relax, keeper_reading,
    reading_of, unexpanded, wanted,
};
pub use plan::{Did, Ended, Failure, Insert, Move, Plan, Push, Start, Then, Turned, WordPlan};
pub use printing::{
    character_tokens, push_escaped, push_name, push_printed, said_text, spell, text_of_tokens,
};
pub use read::{
    Next, Read, back, back_unless, behind, behind_all, failing, gives, gives_order, goes_on,
    letter, read_ended, read_plan, reads_end,
};
pub use showing::{
    character_words, push_amount, push_integer, push_meaning, push_meaning_text, push_natural,
    push_roman,
};
