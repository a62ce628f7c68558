//! Tests of hyphenation and of line breaking, through their public calls.
//!
//! They stand in a crate of their own, since tests in a crate are proved with all of that crate once more.
#![tactic(auto)]

#[cfg(test)]
mod hyphen;
#[cfg(test)]
mod linebreak;
