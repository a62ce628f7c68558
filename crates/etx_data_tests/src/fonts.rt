//! The small font: its metrics at 10pt and at another size, its ligature, and files that are damaged.
use etx_gen::small_font;
use etx_matter::{Font, Node, Nodes, Size};
use etx_tfm::{Damage, FontFault, ligkern, read_font};
use std::alloc::{AllocError, Global};
use std::test::Fail;

/// The width of a character of the small font, in quarters of the font's size. `None`: there is no such character.
fn quarters(code: u8) -> Option<i32> {
    match code {
        b'-' | b'.' | b'i' | b'l' => Some(1),
        b'*' | b'm' | b'w' => Some(3),
        b'a'..=b'z' => Some(2),
        _ => None,
    }
}

/// The width, height, depth and italic correction of a character, as the font sets it alone.
fn sizes(alloc: Global, font: &Font, code: u8) -> Result<Option<(i32, i32, i32, i32)>, AllocError> {
    let nodes = ligkern(alloc, font, &[code], false, false)?;
    match nodes.at(0) {
        Some(Node::Char { size, .. }) => Ok(Some((
            size.width,
            size.height,
            size.depth,
            size.italic,
        ))),
        _ => Ok(None),
    }
}

/// Whether the characters have their sizes, where the font's size is four times this.
fn has_sizes(alloc: Global, font: &Font, quarter: i32) -> Result<bool, AllocError> {
    for code in 0..=255u8 {
        let exists = font.info().has_character(code);
        let right = match quarters(code) {
            None => !exists,
            Some(count) => {
                exists
                    && sizes(alloc, font, code)?
                        == Some((
                            quarter.saturating_mul(count),
                            quarter.saturating_mul(2),
                            0,
                            0,
                        ))
            }
        };
        if !right {
            return Ok(false);
        }
    }
    Ok(true)
}

/// Whether the header and the parameters are those of the small font at 10pt.
fn has_small_frame(font: &Font) -> bool {
    let header = font.info().header;
    header.checksum == 0
        && header.design_size == 655_360
        && header.size == 655_360
        && font.info().parameters.as_slice()
            == [0, 163_840, 81_920, 40_960, 327_680, 655_360, 81_920].as_slice()
}

#[test]
fn the_small_font_has_its_metrics(rt: HostRuntime) -> Result<(), Fail> {
    let bytes = small_font(rt.alloc())?;
    match read_font(rt.alloc(), bytes.as_slice(), Size::Design) {
        Ok(font) => {
            assert!(rt; has_small_frame(&font) && has_sizes(rt.alloc(), &font, 163_840)?);
        }
        Err(fault) => assert!(rt; false, "{fault:?}"),
    }
    Ok(())
}

#[test]
fn at_another_size_all_is_scaled(rt: HostRuntime) -> Result<(), Fail> {
    let bytes = small_font(rt.alloc())?;
    match read_font(rt.alloc(), bytes.as_slice(), Size::At(1_310_720)) {
        Ok(font) => assert!(rt; has_sizes(rt.alloc(), &font, 327_680)?),
        Err(fault) => assert!(rt; false, "{fault:?}"),
    }
    Ok(())
}

/// Whether the list is a letter, and the ligature of two letters.
fn is_ligature_behind(nodes: &Nodes, letter: u8, ligature: u8, letters: &[u8]) -> bool {
    let first = matches!(nodes.at(0), Some(Node::Char { code, .. }) if *code == letter);
    match nodes.at(1) {
        Some(Node::Lig { code, parts, .. }) => {
            let parts = parts.get();
            first
                && nodes.len() == 2
                && *code == ligature
                && parts.letters.as_slice() == letters
                && !parts.left
                && !parts.right
        }
        _ => false,
    }
}

#[test]
fn two_letters_become_a_ligature(rt: HostRuntime) -> Result<(), Fail> {
    let bytes = small_font(rt.alloc())?;
    match read_font(rt.alloc(), bytes.as_slice(), Size::Design) {
        Ok(font) => {
            let nodes = ligkern(rt.alloc(), &font, b"afi", true, true)?;
            assert!(rt; is_ligature_behind(&nodes, b'a', b'*', b"fi"));
        }
        Err(fault) => assert!(rt; false, "{fault:?}"),
    }
    Ok(())
}

fn is_damaged(font: Result<Font, FontFault>, wanted: Damage) -> bool {
    match font {
        Err(FontFault::BadMetric(damage)) => damage == wanted,
        _ => false,
    }
}

#[test]
fn a_file_that_ends_early_is_damaged(rt: HostRuntime) -> Result<(), Fail> {
    let bytes = small_font(rt.alloc())?;
    let whole = bytes.as_slice();
    for length in [0, 23, 419] {
        let font = read_font(rt.alloc(), &whole[..whole.len().min(length)], Size::Design);
        assert!(rt; is_damaged(font, Damage::Short), "{length}");
    }
    Ok(())
}
