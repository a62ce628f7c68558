//! A font: its tables as they stand in a TFM file, with dimensions in sp at the font's size.
ghost use Rattle.std.specs.Prelude.{◌≡◌, None, Some};
ghost use Rattle.etx_matter.specs.Fonts.{info_at, has_width};
ghost use Rattle.etx_matter.specs.Soundness.{IsSound, IsFont};

use etx_lists::Listed;
use std::marker::Model;

/// What a character's word says besides its dimensions ("TeX: The Program", section 544).
#[derive(Clone, Copy, Debug, PartialEq, Eq)]
pub enum CharTag {
    Plain,
    /// Its program of ligatures and kerns begins at this step.
    Program(u8),
    /// The next greater character of the same shape.
    Successor(u8),
    /// It is built of parts, by this recipe.
    Extensible(u8),
}

/// The word of a character: places in the tables of widths, heights, depths and italic corrections, and its tag. A
/// character whose place among the widths is 0 doesn't exist. ("TeX: The Program", section 543.)
#[derive(Clone, Copy, Debug, PartialEq, Eq)]
pub struct CharInfo {
    pub width: u8,
    pub height: u8,
    pub depth: u8,
    pub italic: u8,
    pub tag: CharTag,
}

/// What a step puts between two characters ("TeX: The Program", section 545).
#[derive(Clone, Copy, Debug, PartialEq, Eq)]
pub enum PairAction {
    /// A kern, by its place in the table of kerns.
    Kern(u16),
    /// The ligature `code`. The current character stays if `keeps_current`, the next one if `keeps_next`, and the
    /// cursor then passes over `passes` characters.
    Ligature {
        code: u8,
        keeps_current: bool,
        keeps_next: bool,
        passes: u8,
    },
}

/// A neighbour, as a program of ligatures and kerns sees it.
#[derive(Clone, Copy, Debug, PartialEq, Eq)]
pub enum LigItem {
    /// What stands before the first character of a word, or behind the last.
    Boundary,
    /// The character of this code.
    Glyph(u8),
}

/// A step of the programs of ligatures and kerns ("TeX: The Program", section 545).
#[derive(Clone, Copy, Debug, PartialEq, Eq)]
pub enum LigStep {
    /// What is to be done where `next` follows. Where it doesn't, so many steps are passed over; with `None` the program
    /// ends here.
    Pair {
        next: u8,
        action: PairAction,
        skip: Option<u8>,
    },
    /// Never carried out: it ends a program, and a character's program that begins here really begins at that step.
    Elsewhere(u16),
}

/// The parts of an extensible character, from the top; any but the repeated one may be missing ("TeX: The Program",
/// section 546).
#[derive(Clone, Copy, Debug, PartialEq, Eq)]
pub struct Recipe {
    pub top: Option<u8>,
    pub middle: Option<u8>,
    pub bottom: Option<u8>,
    pub repeated: u8,
}

/// The dimensions of characters, in sp.
#[derive(Debug, Drop)]
pub struct Dimensions {
    pub widths: Listed<i32>,
    pub heights: Listed<i32>,
    pub depths: Listed<i32>,
    pub italics: Listed<i32>,
}

/// What the header of a font's file says, and the size at which it is used.
#[derive(Clone, Copy, Debug, PartialEq, Eq)]
pub struct FontHeader {
    pub checksum: u32,
    /// In sp, from 1pt to below 2048pt.
    pub design_size: u32,
    /// In sp, from 1 to 134217727.
    pub size: u32,
}

/// The tables of a font.
#[derive(Debug, Drop)]
pub struct FontInfo {
    pub header: FontHeader,
    /// The code of the first of `characters`.
    pub first: u8,
    pub characters: Listed<CharInfo>,
    pub dimensions: Dimensions,
    /// The character that stands behind the last one of a word.
    pub boundary: Option<u8>,
    /// Where the program begins of what stands before the first character of a word.
    pub left_program: Option<u16>,
    pub steps: Listed<LigStep>,
    /// In sp.
    pub kerns: Listed<i32>,
    pub recipes: Listed<Recipe>,
    /// Seven at least: the slant, in sp for each pt, and then, in sp, space, stretch, shrink, x-height, quad and extra
    /// space.
    pub parameters: Listed<i32>,
}

/// A font: its number, by which the state and DVI files name it, and its tables, whose places and codes all lead to
/// something. Its sizes are in the range that their fields name, and it has seven parameters at least.
#[derive(Debug, Drop)]
pub struct Font {
    number: u8,
    info: FontInfo,
}

impl Model for Font {
    ghost use Rattle.etx_matter.specs.Fonts.{FontState};
    ghost use Rattle.etx_matter.specs.Soundness.{IsFont};

    ghost Value = { FontState };

    ghost view = { λ it. record { number = it.number; info = it.info } };

    ghost invariant = { λ it. IsFont it.info };
}

impl Font {
    /// A font of these tables.
    pub fn new(number: u8, info: FontInfo) -> Font
        requires { IsFont info }
        ensures { result ≡ record { number = number; info = info } }
    {
        Font { number, info }
    }

    pub fn number(&self) -> u8
        ensures { result ≡ self.now.number }
    {
        self.number
    }

    pub fn set_number(&mut self, number: u8)
        ensures { self.new ≡ record self.old { number = number } }
    {
        self.number = number;
    }

    /// The tables.
    pub fn info(&self) -> &FontInfo
        ensures value { result.now ≡ self.now.info }
        ensures sound { IsSound self.now.info }
        ensures font { IsFont self.now.info }
    {
        &self.info
    }
}

impl FontInfo {
    /// The word of the character `code`. `None` exactly where the font has none for this code.
    #[tactic(auto, unfolding(crate::specs::Fonts::info_at))]
    pub fn character(&self, code: u8) -> Option<CharInfo>
        ensures { result ≡ info_at self.now code }
    {
        if code < self.first {
            return None;
        }
        self.characters.at(usize::from(code - self.first)).copied()
    }

    /// Whether the character `code` exists.
    pub fn has_character(&self, code: u8) -> bool
        ensures { result ≡ has_width (info_at self.now code) }
    {
        match self.character(code) {
            Some(info) => info.width > 0,
            None => false,
        }
    }
}
