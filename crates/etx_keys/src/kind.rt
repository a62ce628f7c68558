//! The kinds of keys, and their numbers.
ghost use Rattle.std.specs.Prelude.{◌≡◌, ◌<◌, Some};
ghost use Rattle.etx_keys.specs.Kinds.{kind_number, kind_at};

use crate::table::in_table;

/// The kind of a key. Keys of one kind are told apart by a number, and the values under them are of one class.
#[derive(Clone, Copy, Debug, PartialEq, Eq, PartialOrd, Ord)]
pub enum Kind {
    /// The meaning of a control sequence, by the number of its name.
    Meaning,
    /// The meaning of an active character, by its code.
    Active,
    /// An integer parameter.
    IntParam,
    /// A dimension parameter.
    DimenParam,
    /// A glue parameter.
    GlueParam,
    /// A parameter of math glue.
    MuGlueParam,
    /// A parameter that holds a token list.
    TokenParam,
    /// An integer register.
    Count,
    /// A dimension register.
    Dimen,
    /// A glue register.
    Skip,
    /// A register of math glue.
    MuSkip,
    /// A token list register.
    Toks,
    /// A box register.
    Box,
    /// `\catcode` of a character.
    CatCode,
    /// `\mathcode` of a character.
    MathCode,
    /// `\lccode` of a character.
    LcCode,
    /// `\uccode` of a character.
    UcCode,
    /// `\sfcode` of a character.
    SfCode,
    /// `\delcode` of a character.
    DelCode,
    /// `\hyphenchar` of a font.
    HyphenChar,
    /// `\skewchar` of a font.
    SkewChar,
    /// The text font of a math family.
    TextFont,
    /// The script font of a math family.
    ScriptFont,
    /// The scriptscript font of a math family.
    ScriptScriptFont,
    /// Parameter 1 of a font: sp to the right for each pt up.
    Slant,
    /// Parameter 2 of a font: the width of a space.
    Space,
    /// Parameter 3 of a font: the stretch of a space.
    SpaceStretch,
    /// Parameter 4 of a font: the shrink of a space.
    SpaceShrink,
    /// Parameter 5 of a font: 1ex.
    XHeight,
    /// Parameter 6 of a font: 1em.
    Quad,
    /// Parameter 7 of a font: what a space after a sentence has more.
    ExtraSpace,
    /// A further parameter of a font.
    FontDimen,
    /// What there is one of.
    Single,
    /// A font that was loaded.
    Font,
    /// An input stream.
    InStream,
    /// An output stream.
    OutStream,
    /// The mark at the top of the last page.
    TopMark,
    /// The first mark on the last page.
    FirstMark,
    /// The last mark on the last page.
    BottomMark,
    /// The first mark of the last split.
    SplitFirstMark,
    /// The last mark of the last split.
    SplitBottomMark,
}

/// Each kind, in the order of their numbers.
static KINDS: [Kind; 41] = [
    Kind::Meaning,
    Kind::Active,
    Kind::IntParam,
    Kind::DimenParam,
    Kind::GlueParam,
    Kind::MuGlueParam,
    Kind::TokenParam,
    Kind::Count,
    Kind::Dimen,
    Kind::Skip,
    Kind::MuSkip,
    Kind::Toks,
    Kind::Box,
    Kind::CatCode,
    Kind::MathCode,
    Kind::LcCode,
    Kind::UcCode,
    Kind::SfCode,
    Kind::DelCode,
    Kind::HyphenChar,
    Kind::SkewChar,
    Kind::TextFont,
    Kind::ScriptFont,
    Kind::ScriptScriptFont,
    Kind::Slant,
    Kind::Space,
    Kind::SpaceStretch,
    Kind::SpaceShrink,
    Kind::XHeight,
    Kind::Quad,
    Kind::ExtraSpace,
    Kind::FontDimen,
    Kind::Single,
    Kind::Font,
    Kind::InStream,
    Kind::OutStream,
    Kind::TopMark,
    Kind::FirstMark,
    Kind::BottomMark,
    Kind::SplitFirstMark,
    Kind::SplitBottomMark,
];

impl Kind {
    /// Its number: one byte.
    #[tactic(auto, unfolding(crate::specs::Kinds::kind_number))]
    pub fn number(self) -> u8
        ensures { result ≡ kind_number self }
    {
        self as u8
    }

    /// The kind with a number; `None` exactly where there is none.
    #[tactic(auto, unfolding(crate::specs::Kinds::all_kinds, crate::specs::Kinds::kind_at))]
    pub fn at(number: u8) -> Option<Kind>
        ensures { result ≡ kind_at number }
    {
        in_table(&KINDS, u32::from(number))
    }
}
