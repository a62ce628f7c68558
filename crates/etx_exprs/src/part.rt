//! The parts of an expression, and what is said of each.
use crate::value::Value;

/// A part of an expression. Operators and parentheses are characters of category 12. An operand's signs belong to the operand.
#[derive(Clone, Copy, Debug, PartialEq, Eq)]
pub enum Part {
    /// An integer, a dimension or glue, of the kind that is wanted at its place.
    Operand(Value),
    /// `+` where an operator is due.
    Plus,
    /// `-` where an operator is due.
    Minus,
    /// `*`.
    Times,
    /// `/`.
    Divide,
    /// `(`.
    Open,
    /// `)`.
    Close,
    /// A token that means `\relax`.
    Relax,
    /// A token that is none of these.
    Other,
}

/// What a constant or an expression says of what it is fed.
#[derive(Clone, Copy, Debug, PartialEq, Eq)]
pub enum Turn {
    /// It goes on.
    More,
    /// It has ended, and what was fed last is used up.
    Done,
    /// It has ended, or can't go on; what was fed last was not taken, and belongs to what follows.
    DoneBack,
}
