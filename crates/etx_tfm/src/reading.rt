//! A run of characters as it is read, with the places at which it can be cut.
use etx_lists::Listed;
use etx_matter::Nodes;

/// A place of a run at which it can be cut.
#[derive(Clone, Copy, Debug, PartialEq, Eq)]
pub struct CleanPlace {
    /// How many letters stand before it.
    pub letters: usize,
    /// How many nodes stand before it.
    pub nodes: usize,
}

/// The nodes of a run, and its clean places in order.
#[derive(Drop)]
pub struct Reading {
    pub nodes: Nodes,
    pub places: Listed<CleanPlace>,
}
