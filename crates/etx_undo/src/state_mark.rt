//! A mark of the whole state: a record of places, one for each part that goes back by itself.
use crate::store::Mark;

/// A time in the history of the values, the names and the conditionals.
#[derive(Clone, Copy, Debug, PartialEq, Eq)]
pub struct RestMark {
    /// Of the values under keys.
    pub values: Mark,
    /// Of what the ends of groups will do.
    pub saves: etx_stack::Mark,
    /// How many groups were open.
    pub depth: u32,
    /// How many names there were.
    pub names: u32,
    /// Of the conditionals that were open.
    pub conditions: etx_stack::Mark,
    /// The magnification that was fixed, or 0.
    pub mag: u16,
}

/// A time in the history of what is read.
#[derive(Clone, Copy, Debug, PartialEq, Eq)]
pub struct InputMark {
    /// Of the stack of what is read.
    pub levels: etx_stack::Mark,
    /// How many lines of the outermost file were read once it was left.
    pub left: u32,
}

/// A time in the history of the whole state of a job. It is numbers alone, so that what is handed to the page side can
/// carry it.
///
/// Whether it still stands is no property of its own, but of the state that it was taken of.
#[derive(Clone, Copy, Debug, PartialEq, Eq)]
pub struct StateMark {
    /// Of all that isn't scanning.
    pub rest: RestMark,
    /// Of what is read.
    pub input: InputMark,
    /// How many steps were taken.
    pub spent: u64,
}
