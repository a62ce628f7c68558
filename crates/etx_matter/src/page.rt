//! What is asked and told of the page that is being built ("TeX: The Program", sections 980 to 1027).
use crate::node::BoxNode;
use crate::token::Tokens;
use etx_lists::Listed;

/// A total of the page: the integers `\pagegoal` to `\pagedepth`.
#[derive(Clone, Copy, Debug, PartialEq, Eq)]
pub enum PageTotal {
    Goal,
    /// The natural height so far.
    Height,
    Stretch,
    FilStretch,
    FillStretch,
    FilllStretch,
    Shrink,
    Depth,
}

/// A quality of the last item of the outermost vertical list.
#[derive(Clone, Copy, Debug, PartialEq, Eq)]
pub enum LastItem {
    /// `\lastpenalty`.
    Penalty,
    /// `\lastkern`.
    Kern,
    /// `\lastskip`.
    Skip,
    /// `\lastnodetype`.
    NodeType,
}

/// An item that `\unskip`, `\unkern` or `\unpenalty` takes off the end of a list.
#[derive(Clone, Copy, Debug, PartialEq, Eq)]
pub enum Removal {
    Skip,
    Kern,
    Penalty,
}

/// What the mouth asks of the side that builds pages.
#[derive(Clone, Copy, Debug, PartialEq, Eq)]
pub enum PageAsk {
    /// `\prevgraf` of the outermost vertical list.
    Prevgraf,
    /// Its `\prevdepth`, in sp.
    Prevdepth,
    /// The badness of the last packing.
    Badness,
    Total(PageTotal),
    /// `\insertpenalties`.
    InsertPenalties,
    /// `\deadcycles`.
    DeadCycles,
    Last(LastItem),
    /// Take off the last item, if it is of this kind. The answer is no exactly where TeX reports an error, as an item
    /// that is on the page already can't be taken off.
    Remove(Removal),
    /// The natural end of the last line, in sp, for a display.
    LastLine,
    /// Whether a paragraph was broken with hyphenation.
    SecondPass,
    /// Whether the page has nothing that waits to be shipped.
    Empty,
}

/// A number of the side that builds pages, which can be set.
#[derive(Clone, Copy, Debug, PartialEq, Eq)]
pub enum Quantity {
    /// `\prevgraf` of the outermost vertical list.
    Prevgraf,
    /// Its `\prevdepth`, in sp.
    Prevdepth,
    /// The badness of the last packing.
    Badness,
    /// A total of the page, in sp.
    Total(PageTotal),
    /// `\insertpenalties`.
    InsertPenalties,
    /// `\deadcycles`.
    DeadCycles,
    /// How many errors there were since the last paragraph.
    Errors,
    /// 1 where a paragraph was broken with hyphenation, else 0.
    SecondPass,
}

/// A box for the register of an insertion class.
#[derive(Drop)]
pub struct ClassBox {
    /// From 0 to 254.
    pub class: u8,
    pub node: BoxNode,
}

/// The marks of a class on a page.
#[derive(Drop)]
pub struct ClassMarks {
    /// From 0 to 32767.
    pub class: u16,
    pub first: Tokens,
    pub bottom: Tokens,
}

/// A page that is full, as the output routine gets it.
#[derive(Drop)]
pub struct Fired {
    pub box255: BoxNode,
    /// What each insertion class has for its register.
    pub boxes: Listed<ClassBox>,
    pub marks: Listed<ClassMarks>,
    /// The penalty of the break, for `\outputpenalty`.
    pub penalty: i32,
    /// Whether the page is shipped as if there were no output routine, since too many have shipped nothing.
    pub default: bool,
}
