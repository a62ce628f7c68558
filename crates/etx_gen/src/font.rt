ghost use Rattle.std.specs.Prelude.{◌≡◌, ◌++◌, IfOk, OnOk};
ghost use Rattle.std.specs.List.{flat_map};
ghost use Rattle.std.specs.Int.{to_be_bytes, w16};
ghost use Rattle.etx_gen.specs.Font.{small_font, fix_word, character, width_index};
ghost use Rattle.std.specs.List.{range_with_len};

use std::alloc::{AllocError, Global};

/// The lengths of the file, its header and its tables, with the first and the last code between them.
const LENGTHS: [u16; 12] = [105, 2, 42, 122, 4, 2, 1, 1, 1, 0, 0, 7];

/// The checksum, and the design size of 10pt, in sixteenths.
const HEADER: [u8; 2] = [0, 160];

/// Widths, heights, depths and italic corrections, in sixteenths of the design size.
const DIMENSIONS: [u8; 8] = [0, 8, 4, 12, 0, 8, 0, 0];

/// Before an `i` comes the ligature `*`, in the place of both characters.
const LIGATURE_STEP: [u8; 4] = [128, b'i', 0, b'*'];

/// Slant, space, stretch, shrink, x-height, quad and extra space, in sixteenths.
const PARAMETERS: [u8; 7] = [0, 4, 2, 1, 8, 16, 2];

/// The font `sf` as the 420 bytes of its TFM file: letters, `-`, `.`, and a ligature of `f` and `i`.
///
/// An `Err` comes only where memory is wanting.
#[tactic(auto, unfolding(crate::specs::Font::small_font))]
pub fn small_font(alloc: Global) -> Result<Vec<u8>, AllocError>
    ensures { IfOk result (λ it. it.items ≡ small_font) }
{
    let mut out = Vec::new(alloc);
    push_lengths(&LENGTHS, &mut out)?;
    push_fix_words(&HEADER, &mut out)?;
    push_characters(&mut out)?;
    push_fix_words(&DIMENSIONS, &mut out)?;
    out.extend_from_slice(&LIGATURE_STEP)?;
    push_fix_words(&PARAMETERS, &mut out)?;
    Ok(out)
}

fn push_lengths(lengths: &[u16], out: &mut Vec<u8>) -> Result<(), AllocError>
    ensures { OnOk result (out.new.items ≡ out.old.items ++ flat_map (to_be_bytes w16) lengths.now) }
{
    for length in lengths {
        out.extend_from_slice(&length.to_be_bytes())?;
    }
    Ok(())
}

/// Numbers of sixteenths as words with 20 bits behind the point.
fn push_fix_words(sixteenths: &[u8], out: &mut Vec<u8>) -> Result<(), AllocError>
    ensures { OnOk result (out.new.items ≡ out.old.items ++ flat_map fix_word sixteenths.now) }
{
    for number in sixteenths {
        let word = u32::from(*number) * 65_536;
        out.extend_from_slice(&word.to_be_bytes())?;
    }
    Ok(())
}

/// The words of the characters 42 to 122.
fn push_characters(out: &mut Vec<u8>) -> Result<(), AllocError>
    ensures { OnOk result (out.new.items ≡ out.old.items ++ flat_map character (range_with_len 42 81)) }
{
    for code in 42u8..123 {
        out.extend_from_slice(&character(code))?;
    }
    Ok(())
}

#[tactic(auto, unfolding(crate::specs::Font::character))]
fn character(code: u8) -> [u8; 4]
    ensures { result ≡ character code }
{
    let width = width_index(code);
    if width == 0 {
        return [0, 0, 0, 0];
    }
    let tag = if code == b'f' { 1 } else { 0 };
    [width, 16, tag, 0]
}

/// The place of a character's width among the widths, or 0 where it doesn't exist.
fn width_index(code: u8) -> u8
    ensures { result ≡ width_index code }
{
    match code {
        b'-' | b'.' | b'i' | b'l' => 2,
        b'*' | b'm' | b'w' => 3,
        b'a'..=b'z' => 1,
        _ => 0,
    }
}

#[cfg(test)]
mod tests {
    use super::*;
    use std::test::Fail;

    /// The bytes of the font, as another program writes them.
    const FONT: [u8; 420] = [
        0, 105, 0, 2, 0, 42, 0, 122, 0, 4, 0, 2, 0, 1, 0, 1, 0, 1, 0, 0, 0, 0, 0, 7, 0, 0, 0, 0, 0,
        160, 0, 0, 3, 16, 0, 0, 0, 0, 0, 0, 0, 0, 0, 0, 2, 16, 0, 0, 2, 16, 0, 0, 0, 0, 0, 0, 0, 0,
        0, 0, 0, 0, 0, 0, 0, 0, 0, 0, 0, 0, 0, 0, 0, 0, 0, 0, 0, 0, 0, 0, 0, 0, 0, 0, 0, 0, 0, 0,
        0, 0, 0, 0, 0, 0, 0, 0, 0, 0, 0, 0, 0, 0, 0, 0, 0, 0, 0, 0, 0, 0, 0, 0, 0, 0, 0, 0, 0, 0,
        0, 0, 0, 0, 0, 0, 0, 0, 0, 0, 0, 0, 0, 0, 0, 0, 0, 0, 0, 0, 0, 0, 0, 0, 0, 0, 0, 0, 0, 0,
        0, 0, 0, 0, 0, 0, 0, 0, 0, 0, 0, 0, 0, 0, 0, 0, 0, 0, 0, 0, 0, 0, 0, 0, 0, 0, 0, 0, 0, 0,
        0, 0, 0, 0, 0, 0, 0, 0, 0, 0, 0, 0, 0, 0, 0, 0, 0, 0, 0, 0, 0, 0, 0, 0, 0, 0, 0, 0, 0, 0,
        0, 0, 0, 0, 0, 0, 0, 0, 0, 0, 0, 0, 0, 0, 0, 0, 0, 0, 0, 0, 0, 0, 0, 0, 0, 0, 0, 0, 0, 0,
        0, 0, 0, 0, 0, 0, 0, 0, 0, 0, 0, 0, 0, 0, 1, 16, 0, 0, 1, 16, 0, 0, 1, 16, 0, 0, 1, 16, 0,
        0, 1, 16, 0, 0, 1, 16, 1, 0, 1, 16, 0, 0, 1, 16, 0, 0, 2, 16, 0, 0, 1, 16, 0, 0, 1, 16, 0,
        0, 2, 16, 0, 0, 3, 16, 0, 0, 1, 16, 0, 0, 1, 16, 0, 0, 1, 16, 0, 0, 1, 16, 0, 0, 1, 16, 0,
        0, 1, 16, 0, 0, 1, 16, 0, 0, 1, 16, 0, 0, 1, 16, 0, 0, 3, 16, 0, 0, 1, 16, 0, 0, 1, 16, 0,
        0, 1, 16, 0, 0, 0, 0, 0, 0, 0, 8, 0, 0, 0, 4, 0, 0, 0, 12, 0, 0, 0, 0, 0, 0, 0, 8, 0, 0, 0,
        0, 0, 0, 0, 0, 0, 0, 128, 105, 0, 42, 0, 0, 0, 0, 0, 4, 0, 0, 0, 2, 0, 0, 0, 1, 0, 0, 0, 8,
        0, 0, 0, 16, 0, 0, 0, 2, 0, 0,
    ];

    #[test]
    fn font(rt: HostRuntime) -> Result<(), Fail> {
        let font = small_font(rt.alloc())?;
        let wanted: &[u8] = &FONT;
        assert_eq!(rt; font.as_slice(), wanted);
        Ok(())
    }
}
