//! Keys by number.
ghost use Rattle.std.specs.Prelude.{◌≡◌, IfSome};
ghost use Rattle.std.specs.Option.{option_map};
ghost use Rattle.etx_prims.specs.declared.quantities.RegisterKind.{RegisterKind};
ghost use Rattle.etx_keys.specs.Bounds.{byte_in, number_in, four_bits_in};
ghost use Rattle.etx_keys.specs.Parameters.{int_at, dimen_at, glue_at, mu_glue_at, token_at};
ghost use Rattle.etx_keys.specs.Singles.{single_at};
ghost use Rattle.etx_keys.specs.Keys.{number_of, key_of, key_in, font_dimen_in, far_font_dimen, is_dense, IsKey};

use crate::key::Key;
use crate::kind::Kind;
use crate::parameters::{dimen_at, glue_at, int_at, mu_glue_at, token_at};
use crate::single::single_at;
use etx_prims::{CodeKind, FamilyFontKind, FontIntKind, MarkKind, RegisterKind};

/// The number of a key in tables: that of its kind, and one among the keys of that kind.
///
/// Kind 0 are the meanings of names, which are as many as there are names. Of every other kind the numbers below 256 are
/// few enough for rows ([`KeyNumber::is_dense`]).
#[derive(Clone, Copy, Debug, PartialEq, Eq, PartialOrd, Ord)]
pub struct KeyNumber {
    pub kind: u8,
    pub at: u32,
}

impl KeyNumber {
    /// Whether values under it are to stand in a row: for the meanings of names, and below 256.
    pub fn is_dense(self) -> bool
        ensures { result ≡ is_dense self }
    {
        self.kind == 0 || self.at < 256
    }

    /// The key with this number; `None` exactly where no key has it.
    pub fn key(self) -> Option<Key>
        ensures value { result ≡ key_of self }
        ensures there { IfSome result (λ key. number_of key ≡ self) }
        ensures ranges { IfSome result (λ key. IsKey key) }
    {
        let kind = Kind::at(self.kind)?;
        key_in(kind, self.at)
    }
}

fn byte_in(at: u32) -> Option<u8>
    ensures { result ≡ byte_in at }
{
    if at < 256 { Some(at as u8) } else { None }
}

fn number_in(at: u32) -> Option<u16>
    ensures { result ≡ number_in at }
{
    if at < 32768 { Some(at as u16) } else { None }
}

fn four_bits_in(at: u32) -> Option<u8>
    ensures { result ≡ four_bits_in at }
{
    if at < 16 { Some(at as u8) } else { None }
}

fn active_in(at: u32) -> Option<Key>
    ensures { result ≡ option_map Key.Active (byte_in at) }
{
    let code = byte_in(at)?;
    Some(Key::Active(code))
}

fn int_in(at: u32) -> Option<Key>
    ensures { result ≡ option_map Key.Int (int_at at) }
{
    let parameter = int_at(at)?;
    Some(Key::Int(parameter))
}

fn dimen_in(at: u32) -> Option<Key>
    ensures { result ≡ option_map Key.Dimen (dimen_at at) }
{
    let parameter = dimen_at(at)?;
    Some(Key::Dimen(parameter))
}

fn glue_in(at: u32) -> Option<Key>
    ensures { result ≡ option_map Key.Glue (glue_at at) }
{
    let parameter = glue_at(at)?;
    Some(Key::Glue(parameter))
}

fn mu_glue_in(at: u32) -> Option<Key>
    ensures { result ≡ option_map Key.MuGlue (mu_glue_at at) }
{
    let parameter = mu_glue_at(at)?;
    Some(Key::MuGlue(parameter))
}

fn tokens_in(at: u32) -> Option<Key>
    ensures { result ≡ option_map Key.Tokens (token_at at) }
{
    let parameter = token_at(at)?;
    Some(Key::Tokens(parameter))
}

fn register_in(kind: RegisterKind, at: u32) -> Option<Key>
    ensures { result ≡ option_map (Key.Register kind) (number_in at) }
{
    let number = number_in(at)?;
    Some(Key::Register { kind, number })
}

fn box_in(at: u32) -> Option<Key>
    ensures { result ≡ option_map Key.Box (number_in at) }
{
    let number = number_in(at)?;
    Some(Key::Box(number))
}

fn code_in(kind: CodeKind, at: u32) -> Option<Key>
    ensures { result ≡ option_map (Key.Code kind) (byte_in at) }
{
    let code = byte_in(at)?;
    Some(Key::Code { kind, code })
}

fn font_int_in(kind: FontIntKind, at: u32) -> Option<Key>
    ensures { result ≡ option_map (Key.FontInt kind) (byte_in at) }
{
    let font = byte_in(at)?;
    Some(Key::FontInt { kind, font })
}

fn family_font_in(size: FamilyFontKind, at: u32) -> Option<Key>
    ensures { result ≡ option_map (Key.FamilyFont size) (four_bits_in at) }
{
    let family = four_bits_in(at)?;
    Some(Key::FamilyFont { size, family })
}

fn font_dimen_in(parameter: u16, at: u32) -> Option<Key>
    ensures { result ≡ font_dimen_in parameter at }
{
    let font = byte_in(at)?;
    Some(Key::FontDimen { font, parameter })
}

fn far_font_dimen(at: u32) -> Option<Key>
    ensures { result ≡ far_font_dimen at }
{
    if at < 2048 || at >= 1 << 24 {
        return None;
    }
    Some(Key::FontDimen {
        font: (at % 256) as u8,
        parameter: (at / 256) as u16,
    })
}

fn single_in(at: u32) -> Option<Key>
    ensures { result ≡ option_map Key.Single (single_at at) }
{
    let single = single_at(at)?;
    Some(Key::Single(single))
}

fn font_in(at: u32) -> Option<Key>
    ensures { result ≡ option_map Key.Font (byte_in at) }
{
    let font = byte_in(at)?;
    Some(Key::Font(font))
}

fn in_stream_in(at: u32) -> Option<Key>
    ensures { result ≡ option_map Key.InStream (four_bits_in at) }
{
    let stream = four_bits_in(at)?;
    Some(Key::InStream(stream))
}

fn out_stream_in(at: u32) -> Option<Key>
    ensures { result ≡ option_map Key.OutStream (four_bits_in at) }
{
    let stream = four_bits_in(at)?;
    Some(Key::OutStream(stream))
}

fn mark_in(kind: MarkKind, at: u32) -> Option<Key>
    ensures { result ≡ option_map (Key.Mark kind) (number_in at) }
{
    let class = number_in(at)?;
    Some(Key::Mark { kind, class })
}

/// The key of a kind with a number.
#[tactic(auto, unfolding(crate::specs::Keys::key_in))]
fn key_in(kind: Kind, at: u32) -> Option<Key>
    ensures { result ≡ key_in kind at }
{
    match kind {
        Kind::Meaning => Some(Key::Meaning(at)),
        Kind::Active => active_in(at),
        Kind::IntParam => int_in(at),
        Kind::DimenParam => dimen_in(at),
        Kind::GlueParam => glue_in(at),
        Kind::MuGlueParam => mu_glue_in(at),
        Kind::TokenParam => tokens_in(at),
        Kind::Count => register_in(RegisterKind::Count, at),
        Kind::Dimen => register_in(RegisterKind::Dimen, at),
        Kind::Skip => register_in(RegisterKind::Skip, at),
        Kind::MuSkip => register_in(RegisterKind::MuSkip, at),
        Kind::Toks => register_in(RegisterKind::Toks, at),
        Kind::Box => box_in(at),
        Kind::CatCode => code_in(CodeKind::Cat, at),
        Kind::MathCode => code_in(CodeKind::Math, at),
        Kind::LcCode => code_in(CodeKind::Lc, at),
        Kind::UcCode => code_in(CodeKind::Uc, at),
        Kind::SfCode => code_in(CodeKind::Sf, at),
        Kind::DelCode => code_in(CodeKind::Del, at),
        Kind::HyphenChar => font_int_in(FontIntKind::HyphenChar, at),
        Kind::SkewChar => font_int_in(FontIntKind::SkewChar, at),
        Kind::TextFont => family_font_in(FamilyFontKind::Text, at),
        Kind::ScriptFont => family_font_in(FamilyFontKind::Script, at),
        Kind::ScriptScriptFont => family_font_in(FamilyFontKind::ScriptScript, at),
        Kind::Slant => font_dimen_in(1, at),
        Kind::Space => font_dimen_in(2, at),
        Kind::SpaceStretch => font_dimen_in(3, at),
        Kind::SpaceShrink => font_dimen_in(4, at),
        Kind::XHeight => font_dimen_in(5, at),
        Kind::Quad => font_dimen_in(6, at),
        Kind::ExtraSpace => font_dimen_in(7, at),
        Kind::FontDimen => far_font_dimen(at),
        Kind::Single => single_in(at),
        Kind::Font => font_in(at),
        Kind::InStream => in_stream_in(at),
        Kind::OutStream => out_stream_in(at),
        Kind::TopMark => mark_in(MarkKind::Top, at),
        Kind::FirstMark => mark_in(MarkKind::First, at),
        Kind::BottomMark => mark_in(MarkKind::Bottom, at),
        Kind::SplitFirstMark => mark_in(MarkKind::SplitFirst, at),
        Kind::SplitBottomMark => mark_in(MarkKind::SplitBottom, at),
    }
}
