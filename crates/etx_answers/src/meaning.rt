//! What expansion asks of a meaning, and which scans expand.
ghost use Rattle.std.specs.Prelude.{◌≡◌, Some, None, MatchResult};
ghost use Rattle.std.specs.Option.{option_map};
ghost use Rattle.etx_answers.specs.Meanings.{the_kind, kept_in_text, expand_kind, convert_kind, primitive_expandable, expandable_of, is_outer, is_protected, has_category, is_relax, unexpanded, expansion_reading, number_reading, text_reading, body_reading, assign_reading, reading_of, keeper_reading, wanted};

use etx_prims::{ConvertKind, ExpandKind, FiOrElseKind, IfKind, Primitive, TheKind};
use etx_state::{
    AssignScan, ExpansionScan, Keeper, Macro, Meaning, NumberScan, ParameterMark, Scan, TextPlace,
};

/// What an expandable token is.
#[derive(Drop)]
pub enum Expandable {
    /// It means nothing, which is an error.
    Undefined,
    ExpandAfter,
    NoExpand,
    CsName,
    Unless,
    StringOf,
    MeaningOf,
    Number,
    RomanNumeral,
    JobName,
    /// `\eTeXrevision`.
    Revision,
    /// `is_kept`: whether a list of tokens goes into the text that is read, as it is.
    The { is_kept: bool },
    Unexpanded { is_kept: bool },
    Detokenize,
    If(IfKind),
    FiOrElse(FiOrElseKind),
    Call(Macro),
    /// It is still to come.
    Unbuilt,
}

/// How a scan gets its tokens.
#[derive(Clone, Copy, Debug, PartialEq, Eq)]
pub enum Reading {
    /// As they are.
    Plain,
    /// After expansion.
    Expanded,
    /// After expansion, in which protected macros stay.
    Text,
}

fn expand_kind(kind: ExpandKind) -> Expandable
    ensures { result ≡ expand_kind kind }
{
    match kind {
        ExpandKind::ExpandAfter => Expandable::ExpandAfter,
        ExpandKind::NoExpand => Expandable::NoExpand,
        ExpandKind::CsName => Expandable::CsName,
        ExpandKind::Unless => Expandable::Unless,
    }
}

fn convert_kind(kind: ConvertKind) -> Expandable
    ensures { result ≡ convert_kind kind }
{
    match kind {
        ConvertKind::String => Expandable::StringOf,
        ConvertKind::Number => Expandable::Number,
        ConvertKind::RomanNumeral => Expandable::RomanNumeral,
        ConvertKind::Meaning => Expandable::MeaningOf,
        ConvertKind::FontName => Expandable::Unbuilt,
        ConvertKind::ETeXRevision => Expandable::Revision,
        ConvertKind::JobName => Expandable::JobName,
    }
}

fn the_kind(kind: TheKind) -> Expandable
    ensures { result ≡ the_kind kind }
{
    match kind {
        TheKind::The => Expandable::The { is_kept: false },
        TheKind::Unexpanded => Expandable::Unexpanded { is_kept: false },
        TheKind::Detokenize => Expandable::Detokenize,
    }
}

/// What it is in a text that is expanded: the tokens that come of it go into that text as they are.
fn kept_in_text(what: Expandable) -> Expandable
    ensures { result ≡ kept_in_text what }
{
    match what {
        Expandable::The { .. } => Expandable::The { is_kept: true },
        Expandable::Unexpanded { .. } => Expandable::Unexpanded { is_kept: true },
        what => what,
    }
}

fn text_expandable(meaning: Meaning) -> Result<Expandable, Meaning>
    ensures { MatchResult result (λ what. option_map kept_in_text (expandable_of meaning) ≡ Some what) (λ m. (expandable_of meaning ≡ None) × (m ≡ meaning)) }
{
    match expandable_of(meaning) {
        Ok(what) => Ok(kept_in_text(what)),
        Err(meaning) => Err(meaning),
    }
}

#[tactic(auto, unfolding(crate::specs::Meanings::primitive_expandable))]
fn primitive_expandable(primitive: Primitive) -> Option<Expandable>
    ensures { result ≡ primitive_expandable primitive }
{
    match primitive {
        Primitive::Expand(kind) => Some(expand_kind(kind)),
        Primitive::Convert(kind) => Some(convert_kind(kind)),
        Primitive::Input(_) => Some(Expandable::Unbuilt),
        Primitive::Conditional(kind) => Some(Expandable::If(kind)),
        Primitive::FiOrElse(kind) => Some(Expandable::FiOrElse(kind)),
        Primitive::The(kind) => Some(the_kind(kind)),
        Primitive::TopBotMark(_) => Some(Expandable::Unbuilt),
        Primitive::TopBotMarks(_) => Some(Expandable::Unbuilt),
        _ => None,
    }
}

fn primitive_of(primitive: Primitive) -> Result<Expandable, Meaning>
    ensures { MatchResult result (λ what. primitive_expandable primitive ≡ Some what) (λ m. (primitive_expandable primitive ≡ None) × (m ≡ Meaning.Primitive primitive)) }
{
    match primitive_expandable(primitive) {
        Some(what) => Ok(what),
        None => Err(Meaning::Primitive(primitive)),
    }
}

/// What an expandable token is that means this. `Err`, with the meaning, where it isn't expandable. One that means nothing is
/// expandable, since its expansion is an error.
#[tactic(auto, unfolding(crate::specs::Meanings::expandable_of))]
pub fn expandable_of(meaning: Meaning) -> Result<Expandable, Meaning>
    ensures { MatchResult result (λ what. expandable_of meaning ≡ Some what) (λ m. (expandable_of meaning ≡ None) × (m ≡ meaning)) }
{
    match meaning {
        Meaning::Undefined => Ok(Expandable::Undefined),
        Meaning::Primitive(primitive) => primitive_of(primitive),
        Meaning::Char { code, cat } => Err(Meaning::Char { code, cat }),
        Meaning::Macro(definition) => Ok(Expandable::Call(definition)),
        Meaning::CharGiven(code) => Err(Meaning::CharGiven(code)),
        Meaning::MathGiven(code) => Err(Meaning::MathGiven(code)),
        Meaning::Register { kind, number } => Err(Meaning::Register { kind, number }),
        Meaning::Unexpanded => Err(Meaning::Unexpanded),
        Meaning::EndTemplate => Err(Meaning::EndTemplate),
    }
}

#[tactic(auto, unfolding(crate::specs::Meanings::is_outer))]
pub fn is_outer(meaning: &Meaning) -> bool
    ensures { result ≡ is_outer meaning.now }
{
    match meaning {
        Meaning::Macro(definition) => definition.is_outer(),
        _ => false,
    }
}

#[tactic(auto, unfolding(crate::specs::Meanings::is_protected))]
fn is_protected(meaning: &Meaning) -> bool
    ensures { result ≡ is_protected meaning.now }
{
    match meaning {
        Meaning::Macro(definition) => definition.is_protected(),
        _ => false,
    }
}

/// Whether a token means a character of this category.
pub fn has_category(category: u8, meaning: &Meaning) -> bool
    ensures { result ≡ has_category category meaning.now }
{
    match meaning {
        Meaning::Char { cat, .. } => *cat == category,
        _ => false,
    }
}

/// Whether a token means `\relax`, or what `\noexpand` made that for once.
#[tactic(auto, unfolding(crate::specs::Meanings::is_relax))]
pub fn is_relax(meaning: &Meaning) -> bool
    ensures { result ≡ is_relax meaning.now }
{
    match meaning {
        Meaning::Primitive(Primitive::Relax) => true,
        Meaning::Unexpanded => true,
        _ => false,
    }
}

/// What a token means that isn't expanded this time.
#[tactic(auto, unfolding(crate::specs::Meanings::unexpanded))]
pub fn unexpanded(meaning: Meaning) -> Meaning
    ensures { result ≡ unexpanded meaning }
{
    match expandable_of(meaning) {
        Ok(_) => Meaning::Unexpanded,
        Err(meaning) => meaning,
    }
}

fn expansion_reading(scan: &ExpansionScan) -> Reading
    ensures { result ≡ expansion_reading scan.now }
{
    match scan {
        ExpansionScan::ExpandAfter => Reading::Plain,
        ExpansionScan::NoExpand => Reading::Plain,
        ExpansionScan::StringOf => Reading::Plain,
        ExpansionScan::CsName(_) => Reading::Expanded,
        ExpansionScan::Call(_) => Reading::Plain,
        ExpansionScan::MeaningOf => Reading::Plain,
        ExpansionScan::Unless => Reading::Plain,
        ExpansionScan::FirstCharacter { .. } => Reading::Expanded,
        ExpansionScan::SecondCharacter { .. } => Reading::Expanded,
        ExpansionScan::FirstMeaning(_) => Reading::Plain,
        ExpansionScan::SecondMeaning { .. } => Reading::Plain,
        ExpansionScan::Relation { .. } => Reading::Expanded,
        ExpansionScan::Defined(_) => Reading::Plain,
        ExpansionScan::IfCsName { .. } => Reading::Expanded,
        ExpansionScan::Skip(_) => Reading::Plain,
    }
}

fn number_reading(scan: &NumberScan) -> Reading
    ensures { result ≡ number_reading scan.now }
{
    match scan {
        NumberScan::Equals(_) => Reading::Expanded,
        NumberScan::Start(_) => Reading::Expanded,
        NumberScan::Character(_) => Reading::Plain,
        NumberScan::CharacterEnd { .. } => Reading::Expanded,
        NumberScan::Digits { .. } => Reading::Expanded,
        NumberScan::Fraction { .. } => Reading::Expanded,
        NumberScan::Unit { .. } => Reading::Expanded,
        NumberScan::Fil { .. } => Reading::Expanded,
        NumberScan::UnitEnd { .. } => Reading::Expanded,
        NumberScan::Plus { .. } => Reading::Expanded,
        NumberScan::Minus { .. } => Reading::Expanded,
        NumberScan::Operand { .. } => Reading::Expanded,
        NumberScan::Operator { .. } => Reading::Expanded,
    }
}

fn text_reading(is_expanded: bool, place: TextPlace) -> Reading
    ensures { result ≡ text_reading is_expanded place }
{
    match place {
        TextPlace::Before => Reading::Expanded,
        TextPlace::Inside { .. } => {
            if is_expanded {
                Reading::Text
            } else {
                Reading::Plain
            }
        }
    }
}

/// How the body of a definition gets its tokens: that of `\edef` is expanded. Behind a character of category 6
/// protected macros are expanded too, as TeX looks for a digit there.
fn body_reading(is_expanded: bool, mark: Option<ParameterMark>) -> Reading
    ensures { result ≡ body_reading is_expanded mark }
{
    if !is_expanded {
        return Reading::Plain;
    }
    match mark {
        None => Reading::Text,
        Some(_) => Reading::Expanded,
    }
}

fn assign_reading(scan: &AssignScan) -> Reading
    ensures { result ≡ assign_reading scan.now }
{
    match scan {
        AssignScan::Prefix(_) => Reading::Expanded,
        AssignScan::Name(_) => Reading::Plain,
        AssignScan::Params(_) => Reading::Plain,
        AssignScan::Body(definition) => {
            body_reading(definition.get().is_expanded, definition.get().mark)
        }
        AssignScan::LetEquals { .. } => Reading::Plain,
        AssignScan::LetSpace { .. } => Reading::Plain,
        AssignScan::LetToken { .. } => Reading::Plain,
        AssignScan::FutureFirst { .. } => Reading::Plain,
        AssignScan::AfterGroup => Reading::Plain,
        AssignScan::AfterAssignment => Reading::Plain,
        AssignScan::Arithmetic { .. } => Reading::Expanded,
        AssignScan::By { .. } => Reading::Expanded,
        AssignScan::List { .. } => Reading::Expanded,
    }
}

/// Which scans expand.
#[tactic(auto, unfolding(crate::specs::Meanings::reading_of))]
pub fn reading_of(scan: &Scan) -> Reading
    ensures { result ≡ reading_of scan.now }
{
    match scan {
        Scan::Expansion(scan) => expansion_reading(scan),
        Scan::Number { scan, .. } => number_reading(scan),
        Scan::Text { text, .. } => text_reading(text.get().is_expanded, text.get().place),
        Scan::Assign(scan) => assign_reading(scan),
        Scan::Control(_) => Reading::Expanded,
    }
}

/// How the token behind one that is kept is got.
pub fn keeper_reading(by: Keeper) -> Reading
    ensures { result ≡ keeper_reading by }
{
    match by {
        Keeper::ExpandAfter => Reading::Expanded,
        Keeper::Future { .. } => Reading::Plain,
    }
}

/// What is expanded, where tokens are got so. `Err`, with the meaning, where nothing is.
#[tactic(auto, unfolding(crate::specs::Meanings::wanted))]
pub fn wanted(by: Reading, meaning: Meaning) -> Result<Expandable, Meaning>
    ensures { MatchResult result (λ what. wanted by meaning ≡ Some what) (λ m. (wanted by meaning ≡ None) × (m ≡ meaning)) }
{
    match by {
        Reading::Plain => Err(meaning),
        Reading::Expanded => expandable_of(meaning),
        Reading::Text => {
            if is_protected(&meaning) {
                Err(meaning)
            } else {
                text_expandable(meaning)
            }
        }
    }
}
