//! Tests of sealed paragraphs and of the lines between chosen breaks, through their public calls.
//!
//! They stand in a crate of their own, since tests in a crate are proved with all of that crate once more.
#![tactic(auto)]

#[cfg(test)]
mod sealed;
#[cfg(test)]
mod setlines;
