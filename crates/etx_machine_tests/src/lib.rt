//! Tests of the crates that read, expand and carry out, through their public calls: the worked rows of a job among them.
//!
//! They stand in a crate of their own, since tests in a crate are proved with all of that crate once more.
#![tactic(auto)]

#[cfg(test)]
mod groups;
#[cfg(test)]
mod input;
#[cfg(test)]
mod job;
#[cfg(test)]
mod lexer;
#[cfg(test)]
mod macros;
#[cfg(test)]
mod outside;
#[cfg(test)]
mod settle;
