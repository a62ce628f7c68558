//! What the breaking of a paragraph gives.
use crate::sealed::SharedSealed;
use etx_lists::Listed;
use etx_matter::{Deed, Nodes, Report};

/// The lines of a paragraph.
#[derive(Drop)]
pub struct Lines {
    /// The lines as boxes, with what moves out of them and with the penalties and the glue between them.
    pub list: Nodes,
    /// How many lines there are.
    pub count: i32,
    /// The badness of the last line, as `\badness` tells it.
    pub badness: i32,
    /// The depth of the last line in sp, which `\prevdepth` gets.
    pub depth: i32,
    /// What is to be told of the lines, from the first on.
    pub reports: Listed<Report>,
}

/// What the breaking of a sealed paragraph gives. The errors come before the reports.
#[derive(Drop)]
pub struct Outcome {
    /// The paragraph.
    pub sealed: SharedSealed,
    pub lines: Lines,
    /// The errors, in their order.
    pub errors: Listed<Deed>,
    /// What is told of the lines, in their order.
    pub reports: Listed<Deed>,
    /// Whether a second pass was made, which hyphenates.
    pub second_pass: bool,
}
