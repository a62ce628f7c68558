// A command of a DVI file.
ghost use Rattle.std.specs.Prelude.{◌≡◌, ◌≤◌, length};
ghost use Rattle.std.specs.Option.{SomeIff};

use etx_lists::Bytes;
use std::marker::Model;

/// The name of a font in a DVI file: at most 255 bytes, which contracts see as the list of them.
#[derive(Debug, Drop)]
pub struct FontName {
    name: Bytes,
}

impl Model for FontName {
    ghost use Rattle.std.specs.Prelude.{ℕ, List, length, ◌≤◌};

    ghost Value = { List ℕ };

    ghost view = { λ it. it.name };

    ghost invariant = { λ it. length it.name ≤ 255 };
}

impl FontName {
    /// `None` exactly where the name has more than 255 bytes.
    pub fn new(name: Bytes) -> Option<FontName>
        ensures { SomeIff result (length name ≤ 255) name }
    {
        if name.len() <= 255 {
            Some(FontName { name })
        } else {
            None
        }
    }

    pub fn as_slice(&self) -> &[u8]
        ensures same { result.now ≡ self.now }
        ensures small { length self.now ≤ 255 }
    {
        self.name.as_slice()
    }
}

/// A command of a DVI file. Where the definition has several spellings of one command, which one is written follows
/// from what the command carries.
#[derive(Debug, Drop)]
pub enum Dvi {
    /// Sets a character of the font and moves right by its width: `set_char` below 128, else `set1`.
    SetChar(u8),
    /// Sets a rule and moves right by its width.
    SetRule {
        height: i32,
        width: i32,
    },
    /// Sets a rule and moves nowhere.
    PutRule {
        height: i32,
        width: i32,
    },
    /// Begins a page: the ten counts that name it, and the place of the page before, or -1.
    Bop {
        counts: [i32; 10],
        last: i32,
    },
    /// Ends a page.
    Eop,
    /// Keeps the place and the four registers w, x, y, z.
    Push,
    /// Brings back what the last `Push` that is still open kept.
    Pop,
    /// Moves right: `right1` to `right4`, by the bytes that the amount needs; likewise the other movements.
    Right(i32),
    /// Moves right by w.
    W0,
    /// Moves right by the amount, which w becomes.
    W(i32),
    /// Moves right by x.
    X0,
    /// Moves right by the amount, which x becomes.
    X(i32),
    /// Moves down.
    Down(i32),
    /// Moves down by y.
    Y0,
    /// Moves down by the amount, which y becomes.
    Y(i32),
    /// Moves down by z.
    Z0,
    /// Moves down by the amount, which z becomes.
    Z(i32),
    /// Chooses a font that was defined: `fnt_num` below 64, else `fnt1`.
    FontNumber(u8),
    /// A `\special`: `xxx1` below 256 bytes, else `xxx4`.
    Special(Bytes),
    /// Defines a font, without an area: its checksum, the size at which it is used and its design size.
    FontDefinition {
        number: u8,
        checksum: u32,
        size: i32,
        design_size: i32,
        name: FontName,
    },
    /// Begins the file, with the magnification times 1000. The unit is the sp, and the comment always the same.
    Pre {
        magnification: i32,
    },
    /// Begins the postamble: the place of the last page or -1, the magnification times 1000, the greatest height plus
    /// depth of a page with the offset down, the greatest width with the offset to the right (sp, "TeX: The Program",
    /// section 641), the greatest number of open `Push`, and the number of pages, both modulo 65536.
    Post {
        last: i32,
        magnification: i32,
        tallest: i32,
        widest: i32,
        pushes: u16,
        pages: u16,
    },
    /// Ends the postamble, with the place of its `Post`. Behind it the file is filled up ([`crate::put_tail`]).
    PostPost {
        post: i32,
    },
}
