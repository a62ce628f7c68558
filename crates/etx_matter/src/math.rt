//! What noads are made of besides lists ("TeX: The Program", sections 680 to 688).

/// The eight classes of a formula's parts, between which spaces are put.
#[derive(Clone, Copy, Debug, PartialEq, Eq)]
pub enum Class8 {
    Ord,
    Op,
    Bin,
    Rel,
    Open,
    Close,
    Punct,
    Inner,
}

/// The size of a style, the largest first.
#[derive(Clone, Copy, Debug, PartialEq, Eq)]
pub enum StyleSize {
    Display,
    Text,
    Script,
    ScriptScript,
}

/// A style in which a formula is set. In a cramped one superscripts are raised less.
#[derive(Clone, Copy, Debug, PartialEq, Eq)]
pub struct Style {
    pub size: StyleSize,
    pub cramped: bool,
}

/// A character of a family of math fonts.
#[derive(Clone, Copy, Debug, PartialEq, Eq)]
pub struct MathChar {
    /// From 0 to 15.
    pub family: u8,
    pub code: u8,
}

/// A delimiter: a small character, and a larger one for where it is too small. A pair of zeros stands for none.
#[derive(Clone, Copy, Debug, PartialEq, Eq)]
pub struct Delim {
    /// From 0 to 15.
    pub small_family: u8,
    pub small: u8,
    /// From 0 to 15.
    pub large_family: u8,
    pub large: u8,
}

/// Where the scripts of an operator stand.
#[derive(Clone, Copy, Debug, PartialEq, Eq)]
pub enum LimitPlace {
    /// Above and below it in display style, else beside it: `\displaylimits`.
    ByStyle,
    /// Above and below it: `\limits`.
    AboveAndBelow,
    /// Beside it: `\nolimits`.
    Beside,
}

/// What an atom does with its nucleus.
#[derive(Clone, Copy, Debug, PartialEq, Eq)]
pub enum AtomKind {
    Ord,
    /// A large operator.
    Op(LimitPlace),
    Bin,
    Rel,
    Open,
    Close,
    Punct,
    Inner,
    /// The nucleus under a sign of this kind.
    Radical(Delim),
    /// The nucleus under this accent.
    Accent(MathChar),
    /// The nucleus under a line.
    Overline,
    /// The nucleus over a line.
    Underline,
    /// The nucleus, a vertical box, centred on the axis.
    Centered,
}

/// Which of a group's delimiters one is.
#[derive(Clone, Copy, Debug, PartialEq, Eq)]
pub enum Side {
    Left,
    /// e-TeX's `\middle`.
    Middle,
    Right,
}
