//! What passes between the mouth, which reads the source, and the side that builds pages.
use crate::outcome::Lines;
use crate::sealed::SharedSealed;
use etx_lists::Bytes;
use etx_matter::{Deed, End, Glue, Node, PageAsk, Quantity};
use etx_undo::StateMark;

/// What changes the side that builds pages. All sizes are in sp.
#[derive(Drop)]
pub enum Event {
    /// A paragraph of the outermost vertical list.
    Par(SharedSealed),
    /// A box for that list, with `\baselineskip`, `\lineskip` and `\lineskiplimit` for the glue before it.
    Line {
        node: Node,
        baseline: Glue,
        lineskip: Glue,
        limit: i32,
    },
    /// Another node for that list.
    Raw(Node),
    /// A quantity gets this value.
    Set(Quantity, i32),
    /// The page builder is called ("TeX: The Program", section 994). Where it fires a page, the mouth goes back to this
    /// mark.
    Build(StateMark),
}

/// What the mouth waits for.
#[derive(Drop)]
pub enum Question {
    /// Something of the side that builds pages.
    Of(PageAsk),
    /// The lines of a paragraph of an inner vertical list.
    Break(SharedSealed),
    /// The bytes of the file with this name.
    Load(Bytes),
}

/// The answer to a question.
#[derive(Drop)]
pub enum Answer {
    Number(i32),
    GlueIs(Glue),
    Yes(bool),
    /// The lines of a paragraph.
    Lines(Lines),
    /// There is no file with that name.
    Absent,
    /// The file has more than 16777216 bytes.
    TooLong,
    /// The bytes of the file.
    Contents(Bytes),
}

/// What a turn of the mouth gives to the outside.
#[derive(Drop)]
pub enum Yield {
    /// Nothing.
    Quiet,
    Event(Event),
    Ask(Question),
    Deed(Deed),
    /// The mouth has come to its end.
    Done(End),
}

/// What the carrying out of a value comes to.
#[derive(Drop)]
pub enum Did {
    /// There is more to be scanned.
    More,
    Yield(Yield),
    End(End),
}
