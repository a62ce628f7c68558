//! The header of a TFM file.
ghost use Rattle.std.specs.Prelude.{◌≡◌, ◌≤◌, length, IfSome};
ghost use Rattle.etx_matter.specs.Soundness.{HasSizes};
ghost use Rattle.etx_tfm.specs.Headers.{IsSize, size_of, header_of};

use crate::lengths::Lengths;
use byteorder::{BigEndian, ByteOrder};
use etx_matter::{FontHeader, Size};

/// The size, in sp, of a font that is asked for so.
fn size_of(design_size: u32, size: Size) -> u64
    ensures { result ≡ size_of design_size size }
{
    match size {
        Size::Design => u64::from(design_size),
        Size::At(size) => u64::from(size.unsigned_abs()),
        Size::Scaled(factor) => u64::from(design_size) * u64::from(factor.unsigned_abs()) / 1000,
    }
}

/// What the header says, and the size; `None` exactly where the header is damaged, or the size too large.
#[tactic(auto, unfolding(crate::specs::Headers::has_bad_header))]
pub fn read_header(bytes: &[u8], lengths: &Lengths, size: Size) -> Option<FontHeader>
    requires long { 2 ≤ lengths.now.header → 32 ≤ length bytes.now }
    requires size { IsSize size }
    ensures value { result ≡ header_of bytes.now lengths.now size }
    ensures sizes { IfSome result (λ header. HasSizes header) }
{
    if lengths.header < 2 {
        return None;
    }
    let word = BigEndian::read_u32(&bytes[28..]);
    if word < 1 << 20 || word >= 1 << 31 {
        return None;
    }
    let design_size = word / 16;
    let size = size_of(design_size, size);
    if size >= 1 << 27 {
        return None;
    }
    Some(FontHeader {
        checksum: BigEndian::read_u32(&bytes[24..]),
        design_size,
        size: size as u32,
    })
}
