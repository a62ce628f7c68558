//! The parameters by number.
ghost use Rattle.std.specs.Prelude.{◌≡◌, Some, IfSome};
ghost use Rattle.etx_keys.specs.Parameters.{int_number, int_at, dimen_number, dimen_at, glue_number, glue_at, mu_glue_number, mu_glue_at, token_number, token_at};

use crate::table::in_table;
use etx_prims::{DimenParam, GlueParam, IntParam, MuGlueParam, TokenParam};

/// Each integer parameter, in the order of their numbers.
static INTS: [IntParam; 60] = [
    IntParam::Pretolerance,
    IntParam::Tolerance,
    IntParam::LinePenalty,
    IntParam::HyphenPenalty,
    IntParam::ExHyphenPenalty,
    IntParam::ClubPenalty,
    IntParam::WidowPenalty,
    IntParam::DisplayWidowPenalty,
    IntParam::BrokenPenalty,
    IntParam::BinOpPenalty,
    IntParam::RelPenalty,
    IntParam::PreDisplayPenalty,
    IntParam::PostDisplayPenalty,
    IntParam::InterLinePenalty,
    IntParam::DoubleHyphenDemerits,
    IntParam::FinalHyphenDemerits,
    IntParam::AdjDemerits,
    IntParam::Mag,
    IntParam::DelimiterFactor,
    IntParam::Looseness,
    IntParam::Time,
    IntParam::Day,
    IntParam::Month,
    IntParam::Year,
    IntParam::ShowBoxBreadth,
    IntParam::ShowBoxDepth,
    IntParam::HBadness,
    IntParam::VBadness,
    IntParam::Pausing,
    IntParam::TracingOnline,
    IntParam::TracingMacros,
    IntParam::TracingStats,
    IntParam::TracingParagraphs,
    IntParam::TracingPages,
    IntParam::TracingOutput,
    IntParam::TracingLostChars,
    IntParam::TracingCommands,
    IntParam::TracingRestores,
    IntParam::TracingAssigns,
    IntParam::TracingGroups,
    IntParam::TracingIfs,
    IntParam::TracingScanTokens,
    IntParam::TracingNesting,
    IntParam::UcHyph,
    IntParam::OutputPenalty,
    IntParam::MaxDeadCycles,
    IntParam::HangAfter,
    IntParam::FloatingPenalty,
    IntParam::GlobalDefs,
    IntParam::Fam,
    IntParam::EscapeChar,
    IntParam::DefaultHyphenChar,
    IntParam::DefaultSkewChar,
    IntParam::EndLineChar,
    IntParam::NewLineChar,
    IntParam::Language,
    IntParam::LeftHyphenMin,
    IntParam::RightHyphenMin,
    IntParam::HoldingInserts,
    IntParam::ErrorContextLines,
];

/// The number of an integer parameter.
#[tactic(auto, unfolding(crate::specs::Parameters::int_number))]
pub fn int_number(parameter: IntParam) -> u32
    ensures { result ≡ int_number parameter }
{
    parameter as u32
}

/// The integer parameter with a number.
#[tactic(auto, unfolding(crate::specs::Parameters::all_ints, crate::specs::Parameters::int_at))]
pub fn int_at(number: u32) -> Option<IntParam>
    ensures { result ≡ int_at number }
{
    in_table(&INTS, number)
}

/// Each dimension parameter, in the order of their numbers.
static DIMENS: [DimenParam; 21] = [
    DimenParam::ParIndent,
    DimenParam::MathSurround,
    DimenParam::LineSkipLimit,
    DimenParam::HSize,
    DimenParam::VSize,
    DimenParam::MaxDepth,
    DimenParam::SplitMaxDepth,
    DimenParam::BoxMaxDepth,
    DimenParam::HFuzz,
    DimenParam::VFuzz,
    DimenParam::DelimiterShortfall,
    DimenParam::NullDelimiterSpace,
    DimenParam::ScriptSpace,
    DimenParam::PreDisplaySize,
    DimenParam::DisplayWidth,
    DimenParam::DisplayIndent,
    DimenParam::OverfullRule,
    DimenParam::HangIndent,
    DimenParam::HOffset,
    DimenParam::VOffset,
    DimenParam::EmergencyStretch,
];

/// The number of a dimension parameter.
#[tactic(auto, unfolding(crate::specs::Parameters::dimen_number))]
pub fn dimen_number(parameter: DimenParam) -> u32
    ensures { result ≡ dimen_number parameter }
{
    parameter as u32
}

/// The dimension parameter with a number.
#[tactic(auto, unfolding(crate::specs::Parameters::all_dimens, crate::specs::Parameters::dimen_at))]
pub fn dimen_at(number: u32) -> Option<DimenParam>
    ensures { result ≡ dimen_at number }
{
    in_table(&DIMENS, number)
}

/// Each glue parameter, in the order of their numbers.
static GLUES: [GlueParam; 15] = [
    GlueParam::LineSkip,
    GlueParam::BaselineSkip,
    GlueParam::ParSkip,
    GlueParam::AboveDisplaySkip,
    GlueParam::BelowDisplaySkip,
    GlueParam::AboveDisplayShortSkip,
    GlueParam::BelowDisplayShortSkip,
    GlueParam::LeftSkip,
    GlueParam::RightSkip,
    GlueParam::TopSkip,
    GlueParam::SplitTopSkip,
    GlueParam::TabSkip,
    GlueParam::SpaceSkip,
    GlueParam::XSpaceSkip,
    GlueParam::ParFillSkip,
];

/// The number of a glue parameter.
#[tactic(auto, unfolding(crate::specs::Parameters::glue_number))]
pub fn glue_number(parameter: GlueParam) -> u32
    ensures { result ≡ glue_number parameter }
{
    parameter as u32
}

/// The glue parameter with a number.
#[tactic(auto, unfolding(crate::specs::Parameters::all_glues, crate::specs::Parameters::glue_at))]
pub fn glue_at(number: u32) -> Option<GlueParam>
    ensures { result ≡ glue_at number }
{
    in_table(&GLUES, number)
}

/// Each parameter of math glue, in the order of their numbers.
static MU_GLUES: [MuGlueParam; 3] = [
    MuGlueParam::ThinMuSkip,
    MuGlueParam::MedMuSkip,
    MuGlueParam::ThickMuSkip,
];

/// The number of a parameter of math glue.
#[tactic(auto, unfolding(crate::specs::Parameters::mu_glue_number))]
pub fn mu_glue_number(parameter: MuGlueParam) -> u32
    ensures { result ≡ mu_glue_number parameter }
{
    parameter as u32
}

/// The parameter of math glue with a number.
#[tactic(auto, unfolding(crate::specs::Parameters::all_mu_glues, crate::specs::Parameters::mu_glue_at))]
pub fn mu_glue_at(number: u32) -> Option<MuGlueParam>
    ensures { result ≡ mu_glue_at number }
{
    in_table(&MU_GLUES, number)
}

/// Each parameter that holds a token list, in the order of their numbers.
static TOKENS: [TokenParam; 10] = [
    TokenParam::Output,
    TokenParam::EveryPar,
    TokenParam::EveryMath,
    TokenParam::EveryDisplay,
    TokenParam::EveryHBox,
    TokenParam::EveryVBox,
    TokenParam::EveryJob,
    TokenParam::EveryCr,
    TokenParam::ErrHelp,
    TokenParam::EveryEof,
];

/// The number of a parameter that holds a token list.
#[tactic(auto, unfolding(crate::specs::Parameters::token_number))]
pub fn token_number(parameter: TokenParam) -> u32
    ensures { result ≡ token_number parameter }
{
    parameter as u32
}

/// The parameter that holds a token list with a number.
#[tactic(auto, unfolding(crate::specs::Parameters::all_tokens, crate::specs::Parameters::token_at))]
pub fn token_at(number: u32) -> Option<TokenParam>
    ensures { result ≡ token_at number }
{
    in_table(&TOKENS, number)
}
