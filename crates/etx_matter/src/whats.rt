//! Whatsits ("TeX: The Program", section 1341).
use crate::shared::SharedTokens;
use etx_lists::Bytes;

/// What is done when a page is shipped, or in a paragraph's hyphenation.
#[derive(Drop)]
pub enum What {
    /// `\openout`: the stream writes to this file from now on.
    OpenFile { stream: i32, name: Bytes },
    /// `\write`: these tokens are expanded and written. A stream below 0 is the log alone, and one above 15, or one that
    /// isn't open, the log and the terminal.
    Write { stream: i32, tokens: SharedTokens },
    /// `\closeout`.
    CloseFile { stream: i32 },
    /// `\special`: these bytes go into the DVI file.
    Special(Bytes),
    /// The language of the words behind this place, and the least letters before and behind a hyphen.
    Language { language: u8, left: u8, right: u8 },
}
