//! What a job does to the outside.
use etx_lists::Bytes;

/// To whom a text goes.
#[derive(Clone, Copy, Debug, PartialEq, Eq)]
pub enum Audience {
    /// The log alone.
    Log,
    /// The log, and then the terminal.
    LogAndTerminal,
}

/// One thing that a job does to the outside. Its text goes whole to the log, and then, if it is for the terminal,
/// whole to the terminal.
#[derive(Drop)]
pub enum Deed {
    /// The start of a line: byte 10, unless a line is at its start.
    Fresh(Audience),
    /// A space, unless a line is at its start.
    Space(Audience),
    /// These bytes.
    Text {
        bytes: Bytes,
        audience: Audience,
    },
    /// An error: at the start of a line, `! `, the text, a full stop, and on a line of its own `l.` and the number of
    /// the line that was read last.
    Error {
        text: Bytes,
        line: u32,
        audience: Audience,
    },
    /// The creation of a file. The first that a job creates is its log.
    Create(Bytes),
}

/// What an observer of a job is told, in the order in which it happens.
#[derive(Clone, Copy, Debug, PartialEq, Eq)]
pub enum Notice {
    /// A page was shipped: its number, from 1 on, and `\count0` then.
    Page { number: u64, count0: i32 },
    /// An error was reported, with the number of the line that was read last.
    Error { line: u32 },
}
