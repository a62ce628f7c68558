//! A macro's parameter text, and the match of a call against it.
//!
//! [`Pattern::read`] takes a parameter text apart. A [`Matcher`] is fed the tokens of a call, one after another, and
//! says whether more are wanted, the call is complete, or no call goes on so. The rules are those of "TeX: The
//! Program", sections 389 to 401 and 473 to 476.
#![tactic(auto)]

mod argument;
mod fault;
mod law;
mod mark;
mod matcher;
mod open_pattern;
mod pattern;
mod progress;
mod substitution;

pub use fault::{Fed, MatchFault};
pub use law::{
    a_match_says_of_each_token_what_is_true, an_extra_brace_is_known_before_it_is_fed,
    each_text_begins_with_one_call, one_thing_is_said_of_any_tokens,
};
pub use mark::{Brace, brace_of};
pub use matcher::Matcher;
pub use open_pattern::OpenPattern;
pub use pattern::{Pattern, PatternFault};
pub use substitution::substitute;
