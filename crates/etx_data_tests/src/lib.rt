//! Tests of the crates that hold data and compute on it, through their public calls.
//!
//! They stand in a crate of their own, since tests in a crate are proved with all of that crate once more.
#![tactic(auto)]

#[cfg(test)]
mod dvi;
#[cfg(test)]
mod exprs;
#[cfg(test)]
mod fonts;
#[cfg(test)]
mod matter;
#[cfg(test)]
mod nodes;
#[cfg(test)]
mod pack;
#[cfg(test)]
mod scaled;
#[cfg(test)]
mod ship;
#[cfg(test)]
mod stack;
#[cfg(test)]
mod undo;
#[cfg(test)]
mod vsplit;
