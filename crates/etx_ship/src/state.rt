//! The state of a DVI file between two pages.
ghost use Rattle.std.specs.Prelude.{◌≡◌, ◌<◌, ◌≤◌, List, ◌∷◌, length, OnOk, OnErr};
ghost use Rattle.etx_ship.specs.Files.{file_of, new_file, with_font};
ghost use Rattle.etx_ship.specs.Wholes.{Event, Load, bytes_behind, dvi_file};

use etx_dvi::FontName;
use std::alloc::{AllocError, Global};
use std::marker::Model;

/// The most fonts that a file knows. They are numbered from 0 in the order in which they are loaded.
pub const MOST_FONTS: usize = 255;

/// A font as a DVI file defines it. The sizes are in sp.
#[derive(Debug, Drop)]
pub struct DviFont {
    /// The name of the font's file, without an area.
    pub name: FontName,
    pub checksum: u32,
    /// The size at which it is used.
    pub size: i32,
    pub design_size: i32,
}

/// What a file's next page and its postamble need to know of the pages that it has.
#[derive(Clone, Copy)]
pub(crate) struct Numbers {
    pub bytes: u32,
    pub pages: u64,
    /// The place of the last page's first command, or -1.
    pub last: i32,
    /// The greatest height plus depth of a page with its offset down (`\voffset`), in sp, and at least 0.
    pub tallest: i32,
    /// The greatest width of a page with its offset to the right (`\hoffset`), in sp, and at least 0.
    pub widest: i32,
    /// The most boxes that were open at once.
    pub pushes: u64,
    pub magnification: i32,
}

/// A DVI file that is being written: how long it is and which pages it has, as far as the next page and the postamble
/// need it, and the fonts that are loaded.
///
/// It has at most 2147483647 bytes, none before its first page, and at most [`MOST_FONTS`] fonts, for each of which it keeps
/// whether it is used.
#[derive(Drop)]
pub struct DviState {
    numbers: Numbers,
    fonts: Vec<DviFont>,
    used: Vec<bool>,
}

impl Model for DviState {
    ghost use Rattle.std.specs.Prelude.{length, ◌≤◌, ◌≡◌};
    ghost use Rattle.etx_ship.specs.Files.{FileState, file_of};

    ghost Value = { FileState };

    ghost view = { λ it. file_of it.numbers it.fonts.items it.used.items };

    ghost invariant = { λ it. (it.numbers.bytes ≤ 2147483647) × (it.numbers.pages ≡ 0 → it.numbers.bytes ≡ 0) × (length it.fonts.items ≤ 255) × (length it.used.items ≡ length it.fonts.items) };
}

impl DviState {
    /// A file with nothing in it, and no font. `magnification` is the magnification times 1000. Takes no memory.
    #[tactic(auto, unfolding(crate::specs::Files::new_file, crate::specs::Wholes::dvi_file))]
    pub fn new(alloc: Global, magnification: i32) -> DviState
        ensures value { result ≡ new_file magnification }
        ensures whole { (events : List Event) → dvi_file magnification events ≡ bytes_behind result events }
    {
        let numbers = Numbers {
            bytes: 0,
            pages: 0,
            last: -1,
            tallest: 0,
            widest: 0,
            pushes: 0,
            magnification,
        };
        DviState {
            numbers,
            fonts: Vec::new(alloc),
            used: Vec::new(alloc),
        }
    }

    /// Sets the magnification times 1000. The first page's preamble tells it, so it is only to be set before that.
    pub fn set_magnification(&mut self, magnification: i32)
        requires { self.old.pages ≡ 0 }
        ensures { self.new ≡ record self.old { magnification = magnification } }
    {
        self.numbers.magnification = magnification;
    }

    /// How many pages there are.
    pub fn pages(&self) -> u64
        ensures { result ≡ self.now.pages }
    {
        self.numbers.pages
    }

    /// How many bytes the file has without its postamble.
    pub fn bytes(&self) -> u32
        ensures value { result ≡ self.now.bytes }
        ensures small { result ≤ 2147483647 }
    {
        self.numbers.bytes
    }

    /// How many fonts are loaded.
    pub fn fonts(&self) -> usize
        ensures value { result ≡ length self.now.fonts }
        ensures marks { result ≡ length self.now.used }
        ensures small { result ≤ 255 }
    {
        self.fonts.len()
    }

    /// Loads the next font. For want of memory the state is as before.
    #[tactic(auto, unfolding(crate::specs::Files::with_font, crate::specs::Wholes::bytes_behind))]
    pub fn load(&mut self, font: DviFont) -> Result<(), AllocError>
        requires { length self.old.fonts < 255 }
        ensures ok { OnOk result (self.new ≡ with_font font self.old) }
        ensures whole { OnOk result ((events : List Event) → bytes_behind self.old (Load font ∷ events) ≡ bytes_behind self.new events) }
        ensures err { OnErr result (self.new ≡ self.old) }
    {
        self.used.reserve(1)?;
        self.fonts.push(font)?;
        self.used.push(false)?;
        Ok(())
    }

    // The fonts that are loaded.
    pub(crate) fn loaded(&self) -> &[DviFont]
        ensures value { result.now ≡ self.now.fonts }
        ensures small { length result.now ≤ 255 }
    {
        self.fonts.as_slice()
    }

    // Which of them are used.
    pub(crate) fn used(&self) -> &[bool]
        ensures value { result.now ≡ self.now.used }
        ensures marks { length result.now ≡ length self.now.fonts }
    {
        self.used.as_slice()
    }

    pub(crate) fn numbers(&self) -> Numbers
        ensures value { file_of result self.now.fonts self.now.used ≡ self.now }
        ensures small { result.bytes ≤ 2147483647 }
        ensures none { result.pages ≡ 0 → result.bytes ≡ 0 }
    {
        self.numbers
    }

    // One more page stands in the file.
    pub(crate) fn set(&mut self, numbers: Numbers, used: Vec<bool>)
        requires small { numbers.bytes ≤ 2147483647 }
        requires none { numbers.pages ≡ 0 → numbers.bytes ≡ 0 }
        requires marks { length used.items ≡ length self.old.fonts }
        ensures { self.new ≡ file_of numbers self.old.fonts used.items }
    {
        self.numbers = numbers;
        self.used = used;
    }
}
