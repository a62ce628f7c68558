//! Times in the history of what is read.

/// A time in the history of the input.
///
/// It stands for what was read then, until the input goes back to an earlier mark, or forgets.
#[derive(Clone, Copy, Debug, PartialEq, Eq)]
pub struct Mark {
    /// What the levels were then.
    pub levels: etx_stack::Mark,
    /// The number of lines of the outermost file, where that was left before.
    pub left: u32,
}
