ghost use Rattle.std.specs.Prelude.{◌≡◌};
ghost use Rattle.etx_prims.specs.Assignments.{def_name, let_name, char_def_name, read_name, hyphen_data_name, prefix_name, arithmetic_name, interaction_name};

/// A definition of a macro.
#[derive(Clone, Copy, Debug, PartialEq, Eq)]
pub enum DefKind {
    Def,
    GDef,
    EDef,
    XDef,
}

impl DefKind {
    /// The name of the command, without the escape character.
    #[tactic(auto, unfolding(crate::specs::Assignments::def_name))]
    pub fn name(self) -> &'static [u8]
        ensures { result.now ≡ def_name self }
    {
        match self {
            DefKind::Def => b"def",
            DefKind::GDef => b"gdef",
            DefKind::EDef => b"edef",
            DefKind::XDef => b"xdef",
        }
    }
}

/// An assignment of a meaning.
#[derive(Clone, Copy, Debug, PartialEq, Eq)]
pub enum LetKind {
    Let,
    FutureLet,
}

impl LetKind {
    /// The name of the command, without the escape character.
    #[tactic(auto, unfolding(crate::specs::Assignments::let_name))]
    pub fn name(self) -> &'static [u8]
        ensures { result.now ≡ let_name self }
    {
        match self {
            LetKind::Let => b"let",
            LetKind::FutureLet => b"futurelet",
        }
    }
}

/// What a name becomes a number of.
#[derive(Clone, Copy, Debug, PartialEq, Eq)]
pub enum CharDefKind {
    Char,
    MathChar,
}

impl CharDefKind {
    /// The name of the command, without the escape character.
    #[tactic(auto, unfolding(crate::specs::Assignments::char_def_name))]
    pub fn name(self) -> &'static [u8]
        ensures { result.now ≡ char_def_name self }
    {
        match self {
            CharDefKind::Char => b"chardef",
            CharDefKind::MathChar => b"mathchardef",
        }
    }
}

/// How a line of a stream is read.
#[derive(Clone, Copy, Debug, PartialEq, Eq)]
pub enum ReadKind {
    Read,
    ReadLine,
}

impl ReadKind {
    /// The name of the command, without the escape character.
    #[tactic(auto, unfolding(crate::specs::Assignments::read_name))]
    pub fn name(self) -> &'static [u8]
        ensures { result.now ≡ read_name self }
    {
        match self {
            ReadKind::Read => b"read",
            ReadKind::ReadLine => b"readline",
        }
    }
}

/// What is added to the tables of hyphenation.
#[derive(Clone, Copy, Debug, PartialEq, Eq)]
pub enum HyphenDataKind {
    Hyphenation,
    Patterns,
}

impl HyphenDataKind {
    /// The name of the command, without the escape character.
    #[tactic(auto, unfolding(crate::specs::Assignments::hyphen_data_name))]
    pub fn name(self) -> &'static [u8]
        ensures { result.now ≡ hyphen_data_name self }
    {
        match self {
            HyphenDataKind::Hyphenation => b"hyphenation",
            HyphenDataKind::Patterns => b"patterns",
        }
    }
}

/// A prefix of an assignment.
#[derive(Clone, Copy, Debug, PartialEq, Eq)]
pub enum PrefixKind {
    Long,
    Outer,
    Global,
    Protected,
}

impl PrefixKind {
    /// The name of the command, without the escape character.
    #[tactic(auto, unfolding(crate::specs::Assignments::prefix_name))]
    pub fn name(self) -> &'static [u8]
        ensures { result.now ≡ prefix_name self }
    {
        match self {
            PrefixKind::Long => b"long",
            PrefixKind::Outer => b"outer",
            PrefixKind::Global => b"global",
            PrefixKind::Protected => b"protected",
        }
    }
}

/// An arithmetic assignment.
#[derive(Clone, Copy, Debug, PartialEq, Eq)]
pub enum ArithmeticKind {
    Advance,
    Multiply,
    Divide,
}

impl ArithmeticKind {
    /// The name of the command, without the escape character.
    #[tactic(auto, unfolding(crate::specs::Assignments::arithmetic_name))]
    pub fn name(self) -> &'static [u8]
        ensures { result.now ≡ arithmetic_name self }
    {
        match self {
            ArithmeticKind::Advance => b"advance",
            ArithmeticKind::Multiply => b"multiply",
            ArithmeticKind::Divide => b"divide",
        }
    }
}

/// A mode of interaction, in the order of `\interactionmode`, from 0.
#[derive(Clone, Copy, Debug, PartialEq, Eq)]
pub enum InteractionKind {
    Batch,
    NonStop,
    Scroll,
    ErrorStop,
}

impl InteractionKind {
    /// The name of the command, without the escape character.
    #[tactic(auto, unfolding(crate::specs::Assignments::interaction_name))]
    pub fn name(self) -> &'static [u8]
        ensures { result.now ≡ interaction_name self }
    {
        match self {
            InteractionKind::Batch => b"batchmode",
            InteractionKind::NonStop => b"nonstopmode",
            InteractionKind::Scroll => b"scrollmode",
            InteractionKind::ErrorStop => b"errorstopmode",
        }
    }
}
