//! A font that is shared.
ghost use Rattle.std.specs.Prelude.{◌≡◌, IfOk};

use crate::font::Font;
use etx_lists::Bytes;
use std::alloc::{AllocError, Global};
use std::marker::Model;
use std::sync::Arc;

/// A font that is never changed. Contracts see the font. Its sharing copies no table.
#[derive(Drop)]
pub struct SharedFont {
    font: Arc<Font, Global>,
}

impl Model for SharedFont {
    ghost use Rattle.std.specs.Arc.{arc_value};
    ghost use Rattle.etx_matter.specs.Fonts.{FontState};

    ghost Value = { FontState };

    ghost view = { λ it. arc_value it.font };
}

impl SharedFont {
    /// Takes a font.
    pub fn new(alloc: Global, font: Font) -> Result<SharedFont, AllocError>
        ensures { IfOk result (λ it. it ≡ font) }
    {
        Ok(SharedFont {
            font: Arc::new(alloc, font)?,
        })
    }

    /// The same font, once more. The only want is of room in the count of those that share it.
    pub fn share(&self) -> Result<SharedFont, AllocError>
        ensures { IfOk result (λ it. it ≡ self.now) }
    {
        Ok(SharedFont {
            font: Arc::try_clone(&self.font)?,
        })
    }

    pub fn get(&self) -> &Font
        ensures { result.now ≡ self.now }
    {
        &self.font
    }
}

/// A font with the name that `\fontname` prints and that a DVI file knows it by; its size, design size and checksum stand
/// in the font's [`crate::FontHeader`].
#[derive(Drop)]
pub struct NamedFont {
    /// The name of its file, without `.tfm`.
    pub name: Bytes,
    pub font: SharedFont,
}
