//! Families of keys whose kind goes by a payload.
ghost use Rattle.std.specs.Prelude.{◌≡◌};
ghost use Rattle.etx_keys.specs.Families.{register_kind, code_kind, font_int_kind, family_font_kind, mark_kind, font_dimen_kind, font_dimen_at};

use crate::kind::Kind;
use etx_prims::{CodeKind, FamilyFontKind, FontIntKind, MarkKind, RegisterKind};

pub fn register_kind(kind: RegisterKind) -> Kind
    ensures { result ≡ register_kind kind }
{
    match kind {
        RegisterKind::Count => Kind::Count,
        RegisterKind::Dimen => Kind::Dimen,
        RegisterKind::Skip => Kind::Skip,
        RegisterKind::MuSkip => Kind::MuSkip,
        RegisterKind::Toks => Kind::Toks,
    }
}

pub fn code_kind(kind: CodeKind) -> Kind
    ensures { result ≡ code_kind kind }
{
    match kind {
        CodeKind::Cat => Kind::CatCode,
        CodeKind::Math => Kind::MathCode,
        CodeKind::Lc => Kind::LcCode,
        CodeKind::Uc => Kind::UcCode,
        CodeKind::Sf => Kind::SfCode,
        CodeKind::Del => Kind::DelCode,
    }
}

pub fn font_int_kind(kind: FontIntKind) -> Kind
    ensures { result ≡ font_int_kind kind }
{
    match kind {
        FontIntKind::HyphenChar => Kind::HyphenChar,
        FontIntKind::SkewChar => Kind::SkewChar,
    }
}

pub fn family_font_kind(size: FamilyFontKind) -> Kind
    ensures { result ≡ family_font_kind size }
{
    match size {
        FamilyFontKind::Text => Kind::TextFont,
        FamilyFontKind::Script => Kind::ScriptFont,
        FamilyFontKind::ScriptScript => Kind::ScriptScriptFont,
    }
}

pub fn mark_kind(kind: MarkKind) -> Kind
    ensures { result ≡ mark_kind kind }
{
    match kind {
        MarkKind::Top => Kind::TopMark,
        MarkKind::First => Kind::FirstMark,
        MarkKind::Bottom => Kind::BottomMark,
        MarkKind::SplitFirst => Kind::SplitFirstMark,
        MarkKind::SplitBottom => Kind::SplitBottomMark,
    }
}

/// The first seven parameters of a font are kinds of their own, so that those of all fonts stand in rows.
#[tactic(auto, using(crate::proofs::FamilyNumbers::kind_far))]
pub fn font_dimen_kind(parameter: u16) -> Kind
    ensures { result ≡ font_dimen_kind parameter }
{
    match parameter {
        0 => Kind::FontDimen,
        1 => Kind::Slant,
        2 => Kind::Space,
        3 => Kind::SpaceStretch,
        4 => Kind::SpaceShrink,
        5 => Kind::XHeight,
        6 => Kind::Quad,
        7 => Kind::ExtraSpace,
        _ => Kind::FontDimen,
    }
}

/// Where a parameter of a font stands among those of its kind.
pub fn font_dimen_at(font: u8, parameter: u16) -> u32
    ensures { result ≡ font_dimen_at font parameter }
{
    if parameter < 8 {
        u32::from(font)
    } else {
        256 * u32::from(parameter) + u32::from(font)
    }
}
