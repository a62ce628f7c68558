ghost use Rattle.std.specs.Prelude.{◌≡◌};
ghost use Rattle.etx_prims.specs.Expansion.{expand_name, input_name, if_name, fi_or_else_name, convert_name, the_name, mark_name, class_mark_name};

/// What is done with the next tokens: expanding past one, keeping one, reading a name, turning a test round.
#[derive(Clone, Copy, Debug, PartialEq, Eq)]
pub enum ExpandKind {
    ExpandAfter,
    NoExpand,
    CsName,
    Unless,
}

impl ExpandKind {
    /// The name of the command, without the escape character.
    #[tactic(auto, unfolding(crate::specs::Expansion::expand_name))]
    pub fn name(self) -> &'static [u8]
        ensures { result.now ≡ expand_name self }
    {
        match self {
            ExpandKind::ExpandAfter => b"expandafter",
            ExpandKind::NoExpand => b"noexpand",
            ExpandKind::CsName => b"csname",
            ExpandKind::Unless => b"unless",
        }
    }
}

/// What the input goes on with.
#[derive(Clone, Copy, Debug, PartialEq, Eq)]
pub enum InputKind {
    Input,
    EndInput,
    ScanTokens,
}

impl InputKind {
    /// The name of the command, without the escape character.
    #[tactic(auto, unfolding(crate::specs::Expansion::input_name))]
    pub fn name(self) -> &'static [u8]
        ensures { result.now ≡ input_name self }
    {
        match self {
            InputKind::Input => b"input",
            InputKind::EndInput => b"endinput",
            InputKind::ScanTokens => b"scantokens",
        }
    }
}

/// A test, in the order in which `\currentiftype` numbers them, from 1.
#[derive(Clone, Copy, Debug, PartialEq, Eq)]
pub enum IfKind {
    Char,
    Cat,
    Num,
    Dim,
    Odd,
    VMode,
    HMode,
    MMode,
    Inner,
    Void,
    HBox,
    VBox,
    X,
    Eof,
    True,
    False,
    Case,
    Defined,
    CsName,
    FontChar,
}

impl IfKind {
    /// The name of the command, without the escape character.
    #[tactic(auto, unfolding(crate::specs::Expansion::if_name))]
    pub fn name(self) -> &'static [u8]
        ensures { result.now ≡ if_name self }
    {
        match self {
            IfKind::Char => b"if",
            IfKind::Cat => b"ifcat",
            IfKind::Num => b"ifnum",
            IfKind::Dim => b"ifdim",
            IfKind::Odd => b"ifodd",
            IfKind::VMode => b"ifvmode",
            IfKind::HMode => b"ifhmode",
            IfKind::MMode => b"ifmmode",
            IfKind::Inner => b"ifinner",
            IfKind::Void => b"ifvoid",
            IfKind::HBox => b"ifhbox",
            IfKind::VBox => b"ifvbox",
            IfKind::X => b"ifx",
            IfKind::Eof => b"ifeof",
            IfKind::True => b"iftrue",
            IfKind::False => b"iffalse",
            IfKind::Case => b"ifcase",
            IfKind::Defined => b"ifdefined",
            IfKind::CsName => b"ifcsname",
            IfKind::FontChar => b"iffontchar",
        }
    }
}

/// What ends a branch of a conditional.
#[derive(Clone, Copy, Debug, PartialEq, Eq)]
pub enum FiOrElseKind {
    Fi,
    Else,
    Or,
}

impl FiOrElseKind {
    /// The name of the command, without the escape character.
    #[tactic(auto, unfolding(crate::specs::Expansion::fi_or_else_name))]
    pub fn name(self) -> &'static [u8]
        ensures { result.now ≡ fi_or_else_name self }
    {
        match self {
            FiOrElseKind::Fi => b"fi",
            FiOrElseKind::Else => b"else",
            FiOrElseKind::Or => b"or",
        }
    }
}

/// What is turned into characters.
#[derive(Clone, Copy, Debug, PartialEq, Eq)]
pub enum ConvertKind {
    Number,
    RomanNumeral,
    String,
    Meaning,
    FontName,
    ETeXRevision,
    JobName,
}

impl ConvertKind {
    /// The name of the command, without the escape character.
    #[tactic(auto, unfolding(crate::specs::Expansion::convert_name))]
    pub fn name(self) -> &'static [u8]
        ensures { result.now ≡ convert_name self }
    {
        match self {
            ConvertKind::Number => b"number",
            ConvertKind::RomanNumeral => b"romannumeral",
            ConvertKind::String => b"string",
            ConvertKind::Meaning => b"meaning",
            ConvertKind::FontName => b"fontname",
            ConvertKind::ETeXRevision => b"eTeXrevision",
            ConvertKind::JobName => b"jobname",
        }
    }
}

/// Which tokens are put into the input.
#[derive(Clone, Copy, Debug, PartialEq, Eq)]
pub enum TheKind {
    The,
    Unexpanded,
    Detokenize,
}

impl TheKind {
    /// The name of the command, without the escape character.
    #[tactic(auto, unfolding(crate::specs::Expansion::the_name))]
    pub fn name(self) -> &'static [u8]
        ensures { result.now ≡ the_name self }
    {
        match self {
            TheKind::The => b"the",
            TheKind::Unexpanded => b"unexpanded",
            TheKind::Detokenize => b"detokenize",
        }
    }
}

/// A mark of the page or of the last `\vsplit`.
#[derive(Clone, Copy, Debug, PartialEq, Eq)]
pub enum MarkKind {
    Top,
    First,
    Bottom,
    SplitFirst,
    SplitBottom,
}

impl MarkKind {
    /// The name of the command, without the escape character.
    #[tactic(auto, unfolding(crate::specs::Expansion::mark_name))]
    pub fn name(self) -> &'static [u8]
        ensures { result.now ≡ mark_name self }
    {
        match self {
            MarkKind::Top => b"topmark",
            MarkKind::First => b"firstmark",
            MarkKind::Bottom => b"botmark",
            MarkKind::SplitFirst => b"splitfirstmark",
            MarkKind::SplitBottom => b"splitbotmark",
        }
    }

    /// The name of the command that reads a class of marks.
    #[tactic(auto, unfolding(crate::specs::Expansion::class_mark_name))]
    pub fn class_name(self) -> &'static [u8]
        ensures { result.now ≡ class_mark_name self }
    {
        match self {
            MarkKind::Top => b"topmarks",
            MarkKind::First => b"firstmarks",
            MarkKind::Bottom => b"botmarks",
            MarkKind::SplitFirst => b"splitfirstmarks",
            MarkKind::SplitBottom => b"splitbotmarks",
        }
    }
}
