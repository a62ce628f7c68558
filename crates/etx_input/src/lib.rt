//! The input: files that are read line by line, and lists of tokens that are read before them.
//!
//! [`Levels`] is the stack of what is read, the innermost first ("TeX: The Program", sections 300 to 331). A file gives
//! what TeX's lexer makes of it; a list gives its tokens. A list whose last token was taken is left at once. The stack can
//! go back to marks.
#![tactic(auto)]

mod file;
mod gift;
mod law;
mod level;
mod levels;
mod mark;
mod origin;
mod run;
mod text;

pub use file::FileInput;
pub use law::fresh_tokens_are_given;
pub use level::{Level, ListInput};
pub use levels::{Levels, Next};
pub use mark::Mark;
pub use origin::Origin;
