//! Sizes of things, in sp, and what a packing is asked for.
use crate::glue::Glue;

/// The sizes of a character, in sp, as its font gives them.
#[derive(Clone, Copy, Debug, PartialEq, Eq)]
pub struct CharSize {
    pub width: i32,
    pub height: i32,
    pub depth: i32,
    /// The italic correction.
    pub italic: i32,
}

/// The sizes of a rule, in sp. One that is `None` runs as far as the box around the rule ("TeX: The Program", section
/// 138).
#[derive(Clone, Copy, Debug, PartialEq, Eq)]
pub struct RuleSize {
    pub width: Option<i32>,
    pub height: Option<i32>,
    pub depth: Option<i32>,
}

/// What is told of a box register: whether it is void, and else its direction and its sizes in sp. The sizes of a void
/// one are 0.
#[derive(Clone, Copy, Debug, PartialEq, Eq)]
pub struct BoxSize {
    pub void: bool,
    pub vertical: bool,
    pub width: i32,
    pub height: i32,
    pub depth: i32,
}

/// The size that a list is packed to, in sp.
#[derive(Clone, Copy, Debug, PartialEq, Eq)]
pub enum Goal {
    /// The natural size.
    Natural,
    /// This size: `to`.
    Exactly(i32),
    /// The natural size and this much more: `spread`.
    Spread(i32),
}

/// What decides on the report of a packing: `\hbadness`, `\hfuzz` and `\overfullrule`, or `\vbadness`, `\vfuzz` and 0.
#[derive(Clone, Copy, Debug, PartialEq, Eq)]
pub struct Limits {
    /// A box of greater badness is reported.
    pub badness: i32,
    /// A box that is too full by more than this, in sp, is reported.
    pub fuzz: i32,
    /// The width of the rule that marks an overfull line, in sp.
    pub rule: i32,
}

/// The size at which a font is loaded.
#[derive(Clone, Copy, Debug, PartialEq, Eq)]
pub enum Size {
    /// Its design size.
    Design,
    /// This size, in sp.
    At(i32),
    /// Its design size times this number of thousandths.
    Scaled(i32),
}

/// What was wrong with a packing ("TeX: The Program", sections 660, 663, 666, 667, 674, 677 and 678).
#[derive(Clone, Copy, Debug, PartialEq, Eq)]
pub enum ReportKind {
    /// The box is too full: the number is the excess in sp.
    Overfull,
    /// The glue stretches with a badness over 100, which is the number.
    Underfull,
    /// The glue stretches with a badness of at most 100, which is the number.
    Loose,
    /// The glue shrinks with this badness.
    Tight,
}

/// The report of a packing.
#[derive(Clone, Copy, Debug, PartialEq, Eq)]
pub struct Report {
    pub kind: ReportKind,
    /// Whether the box is a vertical one.
    pub vertical: bool,
    /// The excess in sp of an overfull box, else the badness.
    pub number: i32,
}

/// What the page builder knows of an insertion class ("TeX: The Program", section 981).
#[derive(Clone, Copy, Debug, PartialEq, Eq)]
pub struct Class {
    /// Its number, from 0 to 254.
    pub class: u8,
    /// Its `\count`: the thousandths of its size that it takes from the page.
    pub count: i32,
    /// Its `\dimen`: the most that goes onto one page, in sp.
    pub dimen: i32,
    /// Its `\skip`: what the first insertion takes besides.
    pub skip: Glue,
    /// What its box register holds.
    pub have: BoxSize,
    /// The place in the page, counted from 0, of its last insertion that goes into its box. `None` where all are held.
    pub last: Option<u32>,
    /// The place in that insertion's list at which it is broken. `None` where it goes in whole.
    pub split: Option<u32>,
}
