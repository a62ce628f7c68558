//! What stands under keys.
ghost use Rattle.std.specs.Prelude.{◌≡◌, ◌↔◌, IsTrue, ◌≤ℤ◌};
ghost use Rattle.etx_keys.specs.Classes.{class_of, range_of, register_class, single_class, register_range, single_range, code_range, any_number, up_to, IsWithin};

use crate::key::Key;
use crate::single::Single;
use etx_prims::{CodeKind, RegisterKind};

/// The class of the values under a key.
#[derive(Clone, Copy, Debug, PartialEq, Eq)]
pub enum Class {
    /// What a token means.
    Meaning,
    /// A number.
    Integer,
    /// A number of sp.
    Dimension,
    Glue,
    MuGlue,
    Tokens,
    Box,
    /// The shape of paragraphs.
    Shape,
    /// One token, or none.
    Token,
    /// A font's metrics.
    Font,
    /// Patterns and exceptions.
    HyphenTables,
    Stream,
}

/// A range of numbers.
#[derive(Clone, Copy, Debug, PartialEq, Eq)]
pub struct NumberRange {
    pub least: i32,
    pub greatest: i32,
}

impl NumberRange {
    /// Whether a number is in the range.
    pub fn contains(self, number: i32) -> bool
        ensures { IsTrue result ↔ IsWithin self number }
    {
        self.least <= number && number <= self.greatest
    }
}

/// All numbers that are kept: those up to 2^31-1 in size.
fn any_number() -> NumberRange
    ensures { result ≡ any_number }
{
    NumberRange {
        least: -2_147_483_647,
        greatest: 2_147_483_647,
    }
}

fn up_to(greatest: u16) -> NumberRange
    ensures { result ≡ up_to greatest }
{
    NumberRange {
        least: 0,
        greatest: i32::from(greatest),
    }
}

fn register_class(kind: RegisterKind) -> Class
    ensures { result ≡ register_class kind }
{
    match kind {
        RegisterKind::Count => Class::Integer,
        RegisterKind::Dimen => Class::Dimension,
        RegisterKind::Skip => Class::Glue,
        RegisterKind::MuSkip => Class::MuGlue,
        RegisterKind::Toks => Class::Tokens,
    }
}

fn single_class(single: Single) -> Class
    ensures { result ≡ single_class single }
{
    match single {
        Single::CurrentFont => Class::Integer,
        Single::ParShape => Class::Shape,
        Single::AfterAssignment => Class::Token,
        Single::Interaction => Class::Integer,
        Single::HyphenTables => Class::HyphenTables,
    }
}

fn register_range(kind: RegisterKind) -> Option<NumberRange>
    ensures { result ≡ register_range kind }
{
    match kind {
        RegisterKind::Count => Some(any_number()),
        RegisterKind::Dimen => Some(any_number()),
        RegisterKind::Skip => None,
        RegisterKind::MuSkip => None,
        RegisterKind::Toks => None,
    }
}

/// "TeX: The Program", section 1233; a `\delcode` may be negative, which says that there is no delimiter.
fn code_range(kind: CodeKind) -> NumberRange
    ensures { result ≡ code_range kind }
{
    match kind {
        CodeKind::Cat => up_to(15),
        CodeKind::Math => up_to(32_768),
        CodeKind::Lc => up_to(255),
        CodeKind::Uc => up_to(255),
        CodeKind::Sf => up_to(32_767),
        CodeKind::Del => NumberRange {
            least: -2_147_483_647,
            greatest: 16_777_215,
        },
    }
}

fn single_range(single: Single) -> Option<NumberRange>
    ensures { result ≡ single_range single }
{
    match single {
        Single::CurrentFont => Some(up_to(255)),
        Single::ParShape => None,
        Single::AfterAssignment => None,
        Single::Interaction => Some(up_to(3)),
        Single::HyphenTables => None,
    }
}

impl Key {
    /// The class of the values under it.
    pub fn class(self) -> Class
        ensures { result ≡ class_of self }
    {
        match self {
            Key::Meaning(_) => Class::Meaning,
            Key::Active(_) => Class::Meaning,
            Key::Int(_) => Class::Integer,
            Key::Dimen(_) => Class::Dimension,
            Key::Glue(_) => Class::Glue,
            Key::MuGlue(_) => Class::MuGlue,
            Key::Tokens(_) => Class::Tokens,
            Key::Register { kind, .. } => register_class(kind),
            Key::Box(_) => Class::Box,
            Key::Code { .. } => Class::Integer,
            Key::FontInt { .. } => Class::Integer,
            Key::FamilyFont { .. } => Class::Integer,
            Key::FontDimen { .. } => Class::Dimension,
            Key::Single(single) => single_class(single),
            Key::Font(_) => Class::Font,
            Key::InStream(_) => Class::Stream,
            Key::OutStream(_) => Class::Stream,
            Key::Mark { .. } => Class::Tokens,
        }
    }

    /// The numbers that it may have; `None` exactly where its values are neither integers nor dimensions.
    pub fn range(self) -> Option<NumberRange>
        ensures { result ≡ range_of self }
    {
        match self {
            Key::Meaning(_) => None,
            Key::Active(_) => None,
            Key::Int(_) => Some(any_number()),
            Key::Dimen(_) => Some(any_number()),
            Key::Glue(_) => None,
            Key::MuGlue(_) => None,
            Key::Tokens(_) => None,
            Key::Register { kind, .. } => register_range(kind),
            Key::Box(_) => None,
            Key::Code { kind, .. } => Some(code_range(kind)),
            Key::FontInt { .. } => Some(any_number()),
            Key::FamilyFont { .. } => Some(up_to(255)),
            Key::FontDimen { .. } => Some(any_number()),
            Key::Single(single) => single_range(single),
            Key::Font(_) => None,
            Key::InStream(_) => None,
            Key::OutStream(_) => None,
            Key::Mark { .. } => None,
        }
    }
}
