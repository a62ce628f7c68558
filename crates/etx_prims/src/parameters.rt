ghost use Rattle.std.specs.Prelude.{◌≡◌};
ghost use Rattle.etx_prims.specs.Parameters.{int_param_name, dimen_param_name, glue_param_name, mu_glue_param_name, token_param_name};

/// An integer parameter.
#[derive(Clone, Copy, Debug, PartialEq, Eq, PartialOrd, Ord)]
pub enum IntParam {
    Pretolerance,
    Tolerance,
    LinePenalty,
    HyphenPenalty,
    ExHyphenPenalty,
    ClubPenalty,
    WidowPenalty,
    DisplayWidowPenalty,
    BrokenPenalty,
    BinOpPenalty,
    RelPenalty,
    PreDisplayPenalty,
    PostDisplayPenalty,
    InterLinePenalty,
    DoubleHyphenDemerits,
    FinalHyphenDemerits,
    AdjDemerits,
    Mag,
    DelimiterFactor,
    Looseness,
    Time,
    Day,
    Month,
    Year,
    ShowBoxBreadth,
    ShowBoxDepth,
    HBadness,
    VBadness,
    Pausing,
    TracingOnline,
    TracingMacros,
    TracingStats,
    TracingParagraphs,
    TracingPages,
    TracingOutput,
    TracingLostChars,
    TracingCommands,
    TracingRestores,
    TracingAssigns,
    TracingGroups,
    TracingIfs,
    TracingScanTokens,
    TracingNesting,
    UcHyph,
    OutputPenalty,
    MaxDeadCycles,
    HangAfter,
    FloatingPenalty,
    GlobalDefs,
    Fam,
    EscapeChar,
    DefaultHyphenChar,
    DefaultSkewChar,
    EndLineChar,
    NewLineChar,
    Language,
    LeftHyphenMin,
    RightHyphenMin,
    HoldingInserts,
    ErrorContextLines,
}

impl IntParam {
    /// The name of the command, without the escape character.
    #[tactic(auto, unfolding(crate::specs::Parameters::int_param_name))]
    pub fn name(self) -> &'static [u8]
        ensures { result.now ≡ int_param_name self }
    {
        match self {
            IntParam::Pretolerance => b"pretolerance",
            IntParam::Tolerance => b"tolerance",
            IntParam::LinePenalty => b"linepenalty",
            IntParam::HyphenPenalty => b"hyphenpenalty",
            IntParam::ExHyphenPenalty => b"exhyphenpenalty",
            IntParam::ClubPenalty => b"clubpenalty",
            IntParam::WidowPenalty => b"widowpenalty",
            IntParam::DisplayWidowPenalty => b"displaywidowpenalty",
            IntParam::BrokenPenalty => b"brokenpenalty",
            IntParam::BinOpPenalty => b"binoppenalty",
            IntParam::RelPenalty => b"relpenalty",
            IntParam::PreDisplayPenalty => b"predisplaypenalty",
            IntParam::PostDisplayPenalty => b"postdisplaypenalty",
            IntParam::InterLinePenalty => b"interlinepenalty",
            IntParam::DoubleHyphenDemerits => b"doublehyphendemerits",
            IntParam::FinalHyphenDemerits => b"finalhyphendemerits",
            IntParam::AdjDemerits => b"adjdemerits",
            IntParam::Mag => b"mag",
            IntParam::DelimiterFactor => b"delimiterfactor",
            IntParam::Looseness => b"looseness",
            IntParam::Time => b"time",
            IntParam::Day => b"day",
            IntParam::Month => b"month",
            IntParam::Year => b"year",
            IntParam::ShowBoxBreadth => b"showboxbreadth",
            IntParam::ShowBoxDepth => b"showboxdepth",
            IntParam::HBadness => b"hbadness",
            IntParam::VBadness => b"vbadness",
            IntParam::Pausing => b"pausing",
            IntParam::TracingOnline => b"tracingonline",
            IntParam::TracingMacros => b"tracingmacros",
            IntParam::TracingStats => b"tracingstats",
            IntParam::TracingParagraphs => b"tracingparagraphs",
            IntParam::TracingPages => b"tracingpages",
            IntParam::TracingOutput => b"tracingoutput",
            IntParam::TracingLostChars => b"tracinglostchars",
            IntParam::TracingCommands => b"tracingcommands",
            IntParam::TracingRestores => b"tracingrestores",
            IntParam::TracingAssigns => b"tracingassigns",
            IntParam::TracingGroups => b"tracinggroups",
            IntParam::TracingIfs => b"tracingifs",
            IntParam::TracingScanTokens => b"tracingscantokens",
            IntParam::TracingNesting => b"tracingnesting",
            IntParam::UcHyph => b"uchyph",
            IntParam::OutputPenalty => b"outputpenalty",
            IntParam::MaxDeadCycles => b"maxdeadcycles",
            IntParam::HangAfter => b"hangafter",
            IntParam::FloatingPenalty => b"floatingpenalty",
            IntParam::GlobalDefs => b"globaldefs",
            IntParam::Fam => b"fam",
            IntParam::EscapeChar => b"escapechar",
            IntParam::DefaultHyphenChar => b"defaulthyphenchar",
            IntParam::DefaultSkewChar => b"defaultskewchar",
            IntParam::EndLineChar => b"endlinechar",
            IntParam::NewLineChar => b"newlinechar",
            IntParam::Language => b"language",
            IntParam::LeftHyphenMin => b"lefthyphenmin",
            IntParam::RightHyphenMin => b"righthyphenmin",
            IntParam::HoldingInserts => b"holdinginserts",
            IntParam::ErrorContextLines => b"errorcontextlines",
        }
    }
}

/// A dimension parameter.
#[derive(Clone, Copy, Debug, PartialEq, Eq, PartialOrd, Ord)]
pub enum DimenParam {
    ParIndent,
    MathSurround,
    LineSkipLimit,
    HSize,
    VSize,
    MaxDepth,
    SplitMaxDepth,
    BoxMaxDepth,
    HFuzz,
    VFuzz,
    DelimiterShortfall,
    NullDelimiterSpace,
    ScriptSpace,
    PreDisplaySize,
    DisplayWidth,
    DisplayIndent,
    OverfullRule,
    HangIndent,
    HOffset,
    VOffset,
    EmergencyStretch,
}

impl DimenParam {
    /// The name of the command, without the escape character.
    #[tactic(auto, unfolding(crate::specs::Parameters::dimen_param_name))]
    pub fn name(self) -> &'static [u8]
        ensures { result.now ≡ dimen_param_name self }
    {
        match self {
            DimenParam::ParIndent => b"parindent",
            DimenParam::MathSurround => b"mathsurround",
            DimenParam::LineSkipLimit => b"lineskiplimit",
            DimenParam::HSize => b"hsize",
            DimenParam::VSize => b"vsize",
            DimenParam::MaxDepth => b"maxdepth",
            DimenParam::SplitMaxDepth => b"splitmaxdepth",
            DimenParam::BoxMaxDepth => b"boxmaxdepth",
            DimenParam::HFuzz => b"hfuzz",
            DimenParam::VFuzz => b"vfuzz",
            DimenParam::DelimiterShortfall => b"delimitershortfall",
            DimenParam::NullDelimiterSpace => b"nulldelimiterspace",
            DimenParam::ScriptSpace => b"scriptspace",
            DimenParam::PreDisplaySize => b"predisplaysize",
            DimenParam::DisplayWidth => b"displaywidth",
            DimenParam::DisplayIndent => b"displayindent",
            DimenParam::OverfullRule => b"overfullrule",
            DimenParam::HangIndent => b"hangindent",
            DimenParam::HOffset => b"hoffset",
            DimenParam::VOffset => b"voffset",
            DimenParam::EmergencyStretch => b"emergencystretch",
        }
    }
}

/// A glue parameter.
#[derive(Clone, Copy, Debug, PartialEq, Eq, PartialOrd, Ord)]
pub enum GlueParam {
    LineSkip,
    BaselineSkip,
    ParSkip,
    AboveDisplaySkip,
    BelowDisplaySkip,
    AboveDisplayShortSkip,
    BelowDisplayShortSkip,
    LeftSkip,
    RightSkip,
    TopSkip,
    SplitTopSkip,
    TabSkip,
    SpaceSkip,
    XSpaceSkip,
    ParFillSkip,
}

impl GlueParam {
    /// The name of the command, without the escape character.
    #[tactic(auto, unfolding(crate::specs::Parameters::glue_param_name))]
    pub fn name(self) -> &'static [u8]
        ensures { result.now ≡ glue_param_name self }
    {
        match self {
            GlueParam::LineSkip => b"lineskip",
            GlueParam::BaselineSkip => b"baselineskip",
            GlueParam::ParSkip => b"parskip",
            GlueParam::AboveDisplaySkip => b"abovedisplayskip",
            GlueParam::BelowDisplaySkip => b"belowdisplayskip",
            GlueParam::AboveDisplayShortSkip => b"abovedisplayshortskip",
            GlueParam::BelowDisplayShortSkip => b"belowdisplayshortskip",
            GlueParam::LeftSkip => b"leftskip",
            GlueParam::RightSkip => b"rightskip",
            GlueParam::TopSkip => b"topskip",
            GlueParam::SplitTopSkip => b"splittopskip",
            GlueParam::TabSkip => b"tabskip",
            GlueParam::SpaceSkip => b"spaceskip",
            GlueParam::XSpaceSkip => b"xspaceskip",
            GlueParam::ParFillSkip => b"parfillskip",
        }
    }
}

/// A parameter of math glue.
#[derive(Clone, Copy, Debug, PartialEq, Eq, PartialOrd, Ord)]
pub enum MuGlueParam {
    ThinMuSkip,
    MedMuSkip,
    ThickMuSkip,
}

impl MuGlueParam {
    /// The name of the command, without the escape character.
    #[tactic(auto, unfolding(crate::specs::Parameters::mu_glue_param_name))]
    pub fn name(self) -> &'static [u8]
        ensures { result.now ≡ mu_glue_param_name self }
    {
        match self {
            MuGlueParam::ThinMuSkip => b"thinmuskip",
            MuGlueParam::MedMuSkip => b"medmuskip",
            MuGlueParam::ThickMuSkip => b"thickmuskip",
        }
    }
}

/// A parameter that holds a token list.
#[derive(Clone, Copy, Debug, PartialEq, Eq, PartialOrd, Ord)]
pub enum TokenParam {
    Output,
    EveryPar,
    EveryMath,
    EveryDisplay,
    EveryHBox,
    EveryVBox,
    EveryJob,
    EveryCr,
    ErrHelp,
    EveryEof,
}

impl TokenParam {
    /// The name of the command, without the escape character.
    #[tactic(auto, unfolding(crate::specs::Parameters::token_param_name))]
    pub fn name(self) -> &'static [u8]
        ensures { result.now ≡ token_param_name self }
    {
        match self {
            TokenParam::Output => b"output",
            TokenParam::EveryPar => b"everypar",
            TokenParam::EveryMath => b"everymath",
            TokenParam::EveryDisplay => b"everydisplay",
            TokenParam::EveryHBox => b"everyhbox",
            TokenParam::EveryVBox => b"everyvbox",
            TokenParam::EveryJob => b"everyjob",
            TokenParam::EveryCr => b"everycr",
            TokenParam::ErrHelp => b"errhelp",
            TokenParam::EveryEof => b"everyeof",
        }
    }
}
