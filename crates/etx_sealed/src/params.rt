//! What line breaking reads of the state, as it stands where a paragraph ends.
use crate::shape::ParShape;
use etx_lists::{Bytes, Listed};
use etx_matter::{Glue, Limits, SharedFont};
use etx_patterns::Patterns;
use etx_prims::InteractionKind;

/// What decides on the choice of breaks.
#[derive(Clone, Copy, Debug, PartialEq, Eq)]
pub struct BreakParams {
    /// The greatest badness on the first pass: `\pretolerance`. Where it is negative there is no such pass.
    pub pretolerance: i32,
    /// The greatest badness on the later passes: `\tolerance`.
    pub tolerance: i32,
    /// `\linepenalty`.
    pub line_penalty: i32,
    /// `\hyphenpenalty`: the penalty of a discretionary with a pre-break text.
    pub hyphen_penalty: i32,
    /// `\exhyphenpenalty`: that of one without.
    pub ex_hyphen_penalty: i32,
    /// `\doublehyphendemerits`.
    pub double_hyphen_demerits: i32,
    /// `\finalhyphendemerits`.
    pub final_hyphen_demerits: i32,
    /// `\adjdemerits`.
    pub adj_demerits: i32,
    /// `\looseness`: by how many lines the paragraph is to be longer than at its best.
    pub looseness: i32,
    /// `\emergencystretch`: the stretch that each line has on a third pass, in sp. There is one where it is positive.
    pub emergency_stretch: i32,
}

/// What stands behind lines ("TeX: The Program", section 890).
#[derive(Clone, Copy, Debug, PartialEq, Eq)]
pub struct ParagraphPenalties {
    /// `\interlinepenalty`.
    pub inter_line: i32,
    /// `\clubpenalty`.
    pub club: i32,
    /// `\widowpenalty`.
    pub widow: i32,
    /// `\displaywidowpenalty`, which stands for `\widowpenalty` before a display.
    pub display_widow: i32,
    /// `\brokenpenalty`.
    pub broken: i32,
}

/// The glue in lines and between them.
#[derive(Clone, Copy, Debug, PartialEq, Eq)]
pub struct LineSkips {
    /// `\leftskip`.
    pub left: Glue,
    /// `\rightskip`.
    pub right: Glue,
    /// `\parfillskip`, which ends the last line.
    pub par_fill: Glue,
    /// `\baselineskip`.
    pub baseline: Glue,
    /// `\lineskip`.
    pub line: Glue,
    /// `\lineskiplimit`, in sp.
    pub limit: i32,
}

/// A font whose words can be hyphenated.
#[derive(Drop)]
pub struct SealedFont {
    pub font: SharedFont,
    /// `\hyphenchar` of it. Where it is no code from 0 to 255 the font's words are not hyphenated.
    pub hyphen_char: i32,
}

/// What line breaking reads of the state besides a paragraph's list. But for `language`, `left` and `right` all is as it
/// stands where the paragraph ends.
#[derive(Drop)]
pub struct ParParams {
    /// `\prevgraf`: how many lines the paragraph has before this part of it.
    pub prevgraf: u32,
    pub shape: ParShape,
    pub breaks: BreakParams,
    pub penalties: ParagraphPenalties,
    pub skips: LineSkips,
    /// `\hbadness`, `\hfuzz` and `\overfullrule`.
    pub limits: Limits,
    /// `\uchyph`: words that begin in upper case are hyphenated where it is positive.
    pub uchyph: i32,
    /// `\lccode` of each code from 0 on. A code past the end has 0, which makes it no letter.
    pub lccode: Bytes,
    /// The fonts of the list.
    pub fonts: Listed<SealedFont>,
    /// The patterns and exceptions of all languages.
    pub tables: Patterns,
    /// How the job deals with errors: in batch mode nothing is told to the terminal.
    pub mode: InteractionKind,
    /// The number of the source line where the paragraph, or its part behind a display, began.
    pub first_line: u32,
    /// That of the line where it ends.
    pub last_line: u32,
    /// Whether an output routine is active.
    pub active: bool,
    /// Whether a display follows.
    pub display: bool,
    /// The language with which the paragraph, or its part behind a display, began.
    pub language: u8,
    /// The least letters before a hyphen with which it began.
    pub left: u8,
    /// The least letters behind a hyphen with which it began.
    pub right: u8,
}
