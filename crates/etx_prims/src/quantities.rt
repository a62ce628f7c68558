ghost use Rattle.std.specs.Prelude.{◌≡◌};
ghost use Rattle.etx_prims.specs.Quantities.{register_name, register_definer_name, code_name, font_int_name, family_font_name, box_dimen_name, aux_name, page_int_name, page_dimen_name, last_item_name, read_only_int_name, font_char_name, par_shape_item_name, glue_part_name, glue_conversion_name, expression_name};

/// A kind of register.
#[derive(Clone, Copy, Debug, PartialEq, Eq, PartialOrd, Ord)]
pub enum RegisterKind {
    Count,
    Dimen,
    Skip,
    MuSkip,
    Toks,
}

impl RegisterKind {
    /// The name of the command, without the escape character.
    #[tactic(auto, unfolding(crate::specs::Quantities::register_name))]
    pub fn name(self) -> &'static [u8]
        ensures { result.now ≡ register_name self }
    {
        match self {
            RegisterKind::Count => b"count",
            RegisterKind::Dimen => b"dimen",
            RegisterKind::Skip => b"skip",
            RegisterKind::MuSkip => b"muskip",
            RegisterKind::Toks => b"toks",
        }
    }

    /// The name of the command that defines a name of a register.
    #[tactic(auto, unfolding(crate::specs::Quantities::register_definer_name))]
    pub fn definer_name(self) -> &'static [u8]
        ensures { result.now ≡ register_definer_name self }
    {
        match self {
            RegisterKind::Count => b"countdef",
            RegisterKind::Dimen => b"dimendef",
            RegisterKind::Skip => b"skipdef",
            RegisterKind::MuSkip => b"muskipdef",
            RegisterKind::Toks => b"toksdef",
        }
    }
}

/// A code that each character has.
#[derive(Clone, Copy, Debug, PartialEq, Eq, PartialOrd, Ord)]
pub enum CodeKind {
    Cat,
    Math,
    Lc,
    Uc,
    Sf,
    Del,
}

impl CodeKind {
    /// The name of the command, without the escape character.
    #[tactic(auto, unfolding(crate::specs::Quantities::code_name))]
    pub fn name(self) -> &'static [u8]
        ensures { result.now ≡ code_name self }
    {
        match self {
            CodeKind::Cat => b"catcode",
            CodeKind::Math => b"mathcode",
            CodeKind::Lc => b"lccode",
            CodeKind::Uc => b"uccode",
            CodeKind::Sf => b"sfcode",
            CodeKind::Del => b"delcode",
        }
    }
}

/// A number that each font has.
#[derive(Clone, Copy, Debug, PartialEq, Eq, PartialOrd, Ord)]
pub enum FontIntKind {
    HyphenChar,
    SkewChar,
}

impl FontIntKind {
    /// The name of the command, without the escape character.
    #[tactic(auto, unfolding(crate::specs::Quantities::font_int_name))]
    pub fn name(self) -> &'static [u8]
        ensures { result.now ≡ font_int_name self }
    {
        match self {
            FontIntKind::HyphenChar => b"hyphenchar",
            FontIntKind::SkewChar => b"skewchar",
        }
    }
}

/// A size of a math family.
#[derive(Clone, Copy, Debug, PartialEq, Eq, PartialOrd, Ord)]
pub enum FamilyFontKind {
    Text,
    Script,
    ScriptScript,
}

impl FamilyFontKind {
    /// The name of the command, without the escape character.
    #[tactic(auto, unfolding(crate::specs::Quantities::family_font_name))]
    pub fn name(self) -> &'static [u8]
        ensures { result.now ≡ family_font_name self }
    {
        match self {
            FamilyFontKind::Text => b"textfont",
            FamilyFontKind::Script => b"scriptfont",
            FamilyFontKind::ScriptScript => b"scriptscriptfont",
        }
    }
}

/// A dimension of a box register.
#[derive(Clone, Copy, Debug, PartialEq, Eq)]
pub enum BoxDimenKind {
    Width,
    Height,
    Depth,
}

impl BoxDimenKind {
    /// The name of the command, without the escape character.
    #[tactic(auto, unfolding(crate::specs::Quantities::box_dimen_name))]
    pub fn name(self) -> &'static [u8]
        ensures { result.now ≡ box_dimen_name self }
    {
        match self {
            BoxDimenKind::Width => b"wd",
            BoxDimenKind::Height => b"ht",
            BoxDimenKind::Depth => b"dp",
        }
    }
}

/// What a list in construction keeps of its end.
#[derive(Clone, Copy, Debug, PartialEq, Eq)]
pub enum AuxKind {
    PrevDepth,
    SpaceFactor,
}

impl AuxKind {
    /// The name of the command, without the escape character.
    #[tactic(auto, unfolding(crate::specs::Quantities::aux_name))]
    pub fn name(self) -> &'static [u8]
        ensures { result.now ≡ aux_name self }
    {
        match self {
            AuxKind::PrevDepth => b"prevdepth",
            AuxKind::SpaceFactor => b"spacefactor",
        }
    }
}

/// A number that the page builder keeps.
#[derive(Clone, Copy, Debug, PartialEq, Eq)]
pub enum PageIntKind {
    DeadCycles,
    InsertPenalties,
}

impl PageIntKind {
    /// The name of the command, without the escape character.
    #[tactic(auto, unfolding(crate::specs::Quantities::page_int_name))]
    pub fn name(self) -> &'static [u8]
        ensures { result.now ≡ page_int_name self }
    {
        match self {
            PageIntKind::DeadCycles => b"deadcycles",
            PageIntKind::InsertPenalties => b"insertpenalties",
        }
    }
}

/// A dimension that the page builder keeps.
#[derive(Clone, Copy, Debug, PartialEq, Eq)]
pub enum PageDimenKind {
    Goal,
    Total,
    Stretch,
    FilStretch,
    FillStretch,
    FilllStretch,
    Shrink,
    Depth,
}

impl PageDimenKind {
    /// The name of the command, without the escape character.
    #[tactic(auto, unfolding(crate::specs::Quantities::page_dimen_name))]
    pub fn name(self) -> &'static [u8]
        ensures { result.now ≡ page_dimen_name self }
    {
        match self {
            PageDimenKind::Goal => b"pagegoal",
            PageDimenKind::Total => b"pagetotal",
            PageDimenKind::Stretch => b"pagestretch",
            PageDimenKind::FilStretch => b"pagefilstretch",
            PageDimenKind::FillStretch => b"pagefillstretch",
            PageDimenKind::FilllStretch => b"pagefilllstretch",
            PageDimenKind::Shrink => b"pageshrink",
            PageDimenKind::Depth => b"pagedepth",
        }
    }
}

/// What is read of the last node of a list.
#[derive(Clone, Copy, Debug, PartialEq, Eq)]
pub enum LastItemKind {
    Penalty,
    Kern,
    Skip,
    NodeType,
}

impl LastItemKind {
    /// The name of the command, without the escape character.
    #[tactic(auto, unfolding(crate::specs::Quantities::last_item_name))]
    pub fn name(self) -> &'static [u8]
        ensures { result.now ≡ last_item_name self }
    {
        match self {
            LastItemKind::Penalty => b"lastpenalty",
            LastItemKind::Kern => b"lastkern",
            LastItemKind::Skip => b"lastskip",
            LastItemKind::NodeType => b"lastnodetype",
        }
    }
}

/// A number that can be read alone.
#[derive(Clone, Copy, Debug, PartialEq, Eq)]
pub enum ReadOnlyIntKind {
    InputLineNo,
    Badness,
    ETeXVersion,
    CurrentGroupLevel,
    CurrentGroupType,
    CurrentIfLevel,
    CurrentIfType,
    CurrentIfBranch,
}

impl ReadOnlyIntKind {
    /// The name of the command, without the escape character.
    #[tactic(auto, unfolding(crate::specs::Quantities::read_only_int_name))]
    pub fn name(self) -> &'static [u8]
        ensures { result.now ≡ read_only_int_name self }
    {
        match self {
            ReadOnlyIntKind::InputLineNo => b"inputlineno",
            ReadOnlyIntKind::Badness => b"badness",
            ReadOnlyIntKind::ETeXVersion => b"eTeXversion",
            ReadOnlyIntKind::CurrentGroupLevel => b"currentgrouplevel",
            ReadOnlyIntKind::CurrentGroupType => b"currentgrouptype",
            ReadOnlyIntKind::CurrentIfLevel => b"currentiflevel",
            ReadOnlyIntKind::CurrentIfType => b"currentiftype",
            ReadOnlyIntKind::CurrentIfBranch => b"currentifbranch",
        }
    }
}

/// A dimension of a character of a font.
#[derive(Clone, Copy, Debug, PartialEq, Eq)]
pub enum FontCharKind {
    Width,
    Height,
    Depth,
    Italic,
}

impl FontCharKind {
    /// The name of the command, without the escape character.
    #[tactic(auto, unfolding(crate::specs::Quantities::font_char_name))]
    pub fn name(self) -> &'static [u8]
        ensures { result.now ≡ font_char_name self }
    {
        match self {
            FontCharKind::Width => b"fontcharwd",
            FontCharKind::Height => b"fontcharht",
            FontCharKind::Depth => b"fontchardp",
            FontCharKind::Italic => b"fontcharic",
        }
    }
}

/// What is read of a line of the shape of paragraphs.
#[derive(Clone, Copy, Debug, PartialEq, Eq)]
pub enum ParShapeItemKind {
    Length,
    Indent,
    Dimen,
}

impl ParShapeItemKind {
    /// The name of the command, without the escape character.
    #[tactic(auto, unfolding(crate::specs::Quantities::par_shape_item_name))]
    pub fn name(self) -> &'static [u8]
        ensures { result.now ≡ par_shape_item_name self }
    {
        match self {
            ParShapeItemKind::Length => b"parshapelength",
            ParShapeItemKind::Indent => b"parshapeindent",
            ParShapeItemKind::Dimen => b"parshapedimen",
        }
    }
}

/// What is read of a glue.
#[derive(Clone, Copy, Debug, PartialEq, Eq)]
pub enum GluePartKind {
    Stretch,
    Shrink,
    StretchOrder,
    ShrinkOrder,
}

impl GluePartKind {
    /// The name of the command, without the escape character.
    #[tactic(auto, unfolding(crate::specs::Quantities::glue_part_name))]
    pub fn name(self) -> &'static [u8]
        ensures { result.now ≡ glue_part_name self }
    {
        match self {
            GluePartKind::Stretch => b"gluestretch",
            GluePartKind::Shrink => b"glueshrink",
            GluePartKind::StretchOrder => b"gluestretchorder",
            GluePartKind::ShrinkOrder => b"glueshrinkorder",
        }
    }
}

/// Between glue and math glue.
#[derive(Clone, Copy, Debug, PartialEq, Eq)]
pub enum GlueConversionKind {
    ToMu,
    FromMu,
}

impl GlueConversionKind {
    /// The name of the command, without the escape character.
    #[tactic(auto, unfolding(crate::specs::Quantities::glue_conversion_name))]
    pub fn name(self) -> &'static [u8]
        ensures { result.now ≡ glue_conversion_name self }
    {
        match self {
            GlueConversionKind::ToMu => b"gluetomu",
            GlueConversionKind::FromMu => b"mutoglue",
        }
    }
}

/// The kind of an expression.
#[derive(Clone, Copy, Debug, PartialEq, Eq)]
pub enum ExpressionKind {
    Num,
    Dimen,
    Glue,
    Mu,
}

impl ExpressionKind {
    /// The name of the command, without the escape character.
    #[tactic(auto, unfolding(crate::specs::Quantities::expression_name))]
    pub fn name(self) -> &'static [u8]
        ensures { result.now ≡ expression_name self }
    {
        match self {
            ExpressionKind::Num => b"numexpr",
            ExpressionKind::Dimen => b"dimexpr",
            ExpressionKind::Glue => b"glueexpr",
            ExpressionKind::Mu => b"muexpr",
        }
    }
}
