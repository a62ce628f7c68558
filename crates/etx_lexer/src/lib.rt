//! TeX's lexer of one line, and the lines of a file.
//!
//! A [`Line`] never changes; a reader keeps a [`LinePlace`] in it, and [`Line::next`] gives the next character, name or
//! end of the line under the categories that hold at the call. [`next_line`] finds the lines of a text. The rules are
//! those of "TeX: The Program", sections 303 and 332 to 356.
#![tactic(auto)]

mod categories;
mod front;
mod law;
mod lexed;
mod line;
mod lines;
mod name;
mod place;

pub use categories::CatOf;
pub use law::{each_text_has_one_first_line, each_text_is_lexed_in_one_way};
pub use lexed::Lexed;
pub use line::{Line, end_character, trimmed_length};
pub use lines::{LineSpan, next_line};
pub use place::{LinePlace, LineState};
