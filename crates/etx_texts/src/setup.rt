//! Sealed paragraphs of items, with the parameters of INITEX where a test says nothing else.
use crate::items::{Item, list};
use etx_gen::small_font;
use etx_lists::{Bytes, Listed};
use etx_matter::{Font, Glue, GlueOrder, Limits, SharedFont, Size};
use etx_patterns::Patterns;
use etx_prims::InteractionKind;
use etx_sealed::{
    BreakParams, LineSkips, ParParams, ParShape, ParagraphPenalties, Sealed, SealedFont,
    SharedSealed,
};
use etx_tfm::{FontFault, read_font};
use std::alloc::{AllocError, Global};

/// A point in sp.
pub const POINT: i32 = 65_536;

/// What a test says of a paragraph.
#[derive(Clone, Copy)]
pub struct Setup {
    /// The width of all lines, in sp.
    pub width: i32,
    pub breaks: BreakParams,
    pub penalties: ParagraphPenalties,
    pub skips: LineSkips,
    /// `\hyphenchar` of the font.
    pub hyphen_char: i32,
}

/// Glue of this width in sp that neither stretches nor shrinks.
pub fn glue(width: i32) -> Glue {
    Glue {
        width,
        stretch: 0,
        shrink: 0,
        stretch_order: GlueOrder::Normal,
        shrink_order: GlueOrder::Normal,
    }
}

/// The parameters of INITEX, with lines of this width in sp and a hyphen.
pub fn initex(width: i32) -> Setup {
    Setup {
        width,
        breaks: BreakParams {
            pretolerance: 0,
            tolerance: 10_000,
            line_penalty: 0,
            hyphen_penalty: 0,
            ex_hyphen_penalty: 0,
            double_hyphen_demerits: 0,
            final_hyphen_demerits: 0,
            adj_demerits: 0,
            looseness: 0,
            emergency_stretch: 0,
        },
        penalties: ParagraphPenalties {
            inter_line: 0,
            club: 0,
            widow: 0,
            display_widow: 0,
            broken: 0,
        },
        skips: LineSkips {
            left: glue(0),
            right: glue(0),
            par_fill: glue(0),
            baseline: glue(0),
            line: glue(0),
            limit: 0,
        },
        hyphen_char: i32::from(b'-'),
    }
}

/// The small font at 10pt.
pub fn small(alloc: Global) -> Result<Font, FontFault> {
    let bytes = small_font(alloc)?;
    read_font(alloc, bytes.as_slice(), Size::Design)
}

/// `\lccode` of each code, where small letters alone are letters.
fn lccode(alloc: Global) -> Result<Bytes, AllocError> {
    let mut codes = Bytes::with_room(alloc, 256)?;
    for code in 0..=255u8 {
        codes.push(if code.is_ascii_lowercase() { code } else { 0 })?;
    }
    Ok(codes)
}

fn fonts(alloc: Global, font: Font, hyphen_char: i32) -> Result<Listed<SealedFont>, AllocError> {
    let mut fonts = Listed::new(alloc);
    fonts.push(SealedFont {
        font: SharedFont::new(alloc, font)?,
        hyphen_char,
    })?;
    Ok(fonts)
}

fn params(
    alloc: Global,
    font: Font,
    setup: Setup,
    tables: Patterns,
) -> Result<ParParams, AllocError> {
    Ok(ParParams {
        prevgraf: 0,
        shape: ParShape::Hanging {
            width: setup.width,
            indent: 0,
            after: 1,
        },
        breaks: setup.breaks,
        penalties: setup.penalties,
        skips: setup.skips,
        limits: Limits {
            badness: 10_000,
            fuzz: 0,
            rule: 0,
        },
        uchyph: 0,
        lccode: lccode(alloc)?,
        fonts: fonts(alloc, font, setup.hyphen_char)?,
        tables,
        mode: InteractionKind::ErrorStop,
        first_line: 2,
        last_line: 2,
        active: false,
        display: false,
        language: 0,
        left: 1,
        right: 1,
    })
}

/// A sealed paragraph of these items in the small font, all words of language 0.
pub fn sealed(
    alloc: Global,
    items: &[Item],
    setup: Setup,
    tables: Patterns,
) -> Result<SharedSealed, FontFault> {
    let font = small(alloc)?;
    let list = list(alloc, &font, items)?;
    let params = params(alloc, font, setup, tables)?;
    let sealed = Sealed::new(alloc, list, params)?;
    let shared = SharedSealed::new(alloc, sealed)?;
    Ok(shared)
}
