use etx_lists::Listed;

/// The number of a control sequence's name. A name keeps its number for the whole job.
#[derive(Clone, Copy, Debug, PartialEq, Eq)]
pub struct NameId(pub u32);

/// The number of the name `par`, which is the same in every job: a paragraph's end is known by it.
pub const PAR: NameId = NameId(0);

/// The control sequence that takes a definition where the source names none. No text can name it: its number is none of
/// a name's, since those are below 2^20 ("TeX: The Program", section 1216).
pub const FROZEN_INACCESSIBLE: NameId = NameId(1_048_576);

/// A token, as "TeX: The Program", section 289, has it.
#[derive(Clone, Copy, Debug, PartialEq, Eq)]
pub enum Token {
    /// A character and the category, at most 15, under which it was read.
    Char { code: u8, cat: u8 },
    /// A control sequence, by the number of its name.
    Name(NameId),
    /// A parameter in the body of a macro, from 1 to 9.
    Param(u8),
}

/// A list of tokens.
pub type Tokens = Listed<Token>;
