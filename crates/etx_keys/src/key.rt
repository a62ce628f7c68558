//! Keys.
ghost use Rattle.std.specs.Prelude.{◌≡◌, ◌↔◌, IsTrue, Some};
ghost use Rattle.etx_keys.specs.Keys.{kind_of, at_of, number_of, key_of, IsKey};

use crate::family::{
    code_kind, family_font_kind, font_dimen_at, font_dimen_kind, font_int_kind, mark_kind,
    register_kind,
};
use crate::kind::Kind;
use crate::number::KeyNumber;
use crate::parameters::{dimen_number, glue_number, int_number, mu_glue_number, token_number};
use crate::single::{Single, single_number};
use etx_prims::{
    CodeKind, DimenParam, FamilyFontKind, FontIntKind, GlueParam, IntParam, MarkKind, MuGlueParam,
    RegisterKind, TokenParam,
};

/// A place of the state that holds a value.
#[derive(Clone, Copy, Debug, PartialEq, Eq)]
pub enum Key {
    /// The meaning of a control sequence, by the number of its name.
    Meaning(u32),
    /// The meaning of an active character, by its code.
    Active(u8),
    /// An integer parameter.
    Int(IntParam),
    /// A dimension parameter.
    Dimen(DimenParam),
    /// A glue parameter.
    Glue(GlueParam),
    /// A parameter of math glue.
    MuGlue(MuGlueParam),
    /// A parameter that holds a token list.
    Tokens(TokenParam),
    /// A register but a box, with a number up to 32767.
    Register { kind: RegisterKind, number: u16 },
    /// A box register, with a number up to 32767.
    Box(u16),
    /// A code of a character.
    Code { kind: CodeKind, code: u8 },
    /// A number of a font.
    FontInt { kind: FontIntKind, font: u8 },
    /// The font of a size of a math family, which has a number up to 15.
    FamilyFont { size: FamilyFontKind, family: u8 },
    /// A parameter of a font, by its number from 1 on.
    FontDimen { font: u8, parameter: u16 },
    /// What there is one of.
    Single(Single),
    /// A font that was loaded, by its number.
    Font(u8),
    /// An input stream, with a number up to 15.
    InStream(u8),
    /// An output stream, with a number up to 15.
    OutStream(u8),
    /// A mark of a class, which has a number up to 32767.
    Mark { kind: MarkKind, class: u16 },
}

impl Key {
    /// Its kind.
    pub fn kind(self) -> Kind
        ensures { result ≡ kind_of self }
    {
        match self {
            Key::Meaning(_) => Kind::Meaning,
            Key::Active(_) => Kind::Active,
            Key::Int(_) => Kind::IntParam,
            Key::Dimen(_) => Kind::DimenParam,
            Key::Glue(_) => Kind::GlueParam,
            Key::MuGlue(_) => Kind::MuGlueParam,
            Key::Tokens(_) => Kind::TokenParam,
            Key::Register { kind, .. } => register_kind(kind),
            Key::Box(_) => Kind::Box,
            Key::Code { kind, .. } => code_kind(kind),
            Key::FontInt { kind, .. } => font_int_kind(kind),
            Key::FamilyFont { size, .. } => family_font_kind(size),
            Key::FontDimen { parameter, .. } => font_dimen_kind(parameter),
            Key::Single(_) => Kind::Single,
            Key::Font(_) => Kind::Font,
            Key::InStream(_) => Kind::InStream,
            Key::OutStream(_) => Kind::OutStream,
            Key::Mark { kind, .. } => mark_kind(kind),
        }
    }

    /// Its number among the keys of its kind.
    pub fn at(self) -> u32
        ensures { result ≡ at_of self }
    {
        match self {
            Key::Meaning(name) => name,
            Key::Active(code) => u32::from(code),
            Key::Int(parameter) => int_number(parameter),
            Key::Dimen(parameter) => dimen_number(parameter),
            Key::Glue(parameter) => glue_number(parameter),
            Key::MuGlue(parameter) => mu_glue_number(parameter),
            Key::Tokens(parameter) => token_number(parameter),
            Key::Register { number, .. } => u32::from(number),
            Key::Box(number) => u32::from(number),
            Key::Code { code, .. } => u32::from(code),
            Key::FontInt { font, .. } => u32::from(font),
            Key::FamilyFont { family, .. } => u32::from(family),
            Key::FontDimen { font, parameter } => font_dimen_at(font, parameter),
            Key::Single(single) => single_number(single),
            Key::Font(font) => u32::from(font),
            Key::InStream(stream) => u32::from(stream),
            Key::OutStream(stream) => u32::from(stream),
            Key::Mark { class, .. } => u32::from(class),
        }
    }

    /// Whether it names a place that there is: its numbers are in their ranges.
    pub fn exists(self) -> bool
        ensures { IsTrue result ↔ IsKey self }
    {
        match self {
            Key::Meaning(_) => true,
            Key::Active(_) => true,
            Key::Int(_) => true,
            Key::Dimen(_) => true,
            Key::Glue(_) => true,
            Key::MuGlue(_) => true,
            Key::Tokens(_) => true,
            Key::Register { number, .. } => number < 32768,
            Key::Box(number) => number < 32768,
            Key::Code { .. } => true,
            Key::FontInt { .. } => true,
            Key::FamilyFont { family, .. } => family < 16,
            Key::FontDimen { parameter, .. } => parameter > 0,
            Key::Single(_) => true,
            Key::Font(_) => true,
            Key::InStream(stream) => stream < 16,
            Key::OutStream(stream) => stream < 16,
            Key::Mark { class, .. } => class < 32768,
        }
    }

    /// Its number in tables: no other key has it, and [`KeyNumber::key`] gives the key back.
    #[tactic(auto, using(crate::proofs::KeyNumbers::key_back))]
    pub fn number(self) -> KeyNumber
        ensures value { result ≡ number_of self }
        ensures back { IsKey self → key_of result ≡ Some self }
    {
        KeyNumber {
            kind: self.kind().number(),
            at: self.at(),
        }
    }
}
