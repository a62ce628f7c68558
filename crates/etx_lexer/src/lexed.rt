// What is lexed.
use etx_lists::Bytes;

/// What the lexer finds next in a line.
#[derive(Debug, Drop)]
pub enum Lexed {
    /// A character with its category, which is none of 0, 5, 9, 14 and 15. A space has code 32 and category 10.
    Char { code: u8, cat: u8 },
    /// A control sequence: the name behind its escape character, which may be empty. An empty line is the name `par`.
    Name(Bytes),
    /// The line is over, and gives nothing more.
    LineEnd,
    /// A character of category 15. The reader goes on behind it.
    Invalid(u8),
}
