//! What ends a DVI file.
ghost use Rattle.std.specs.Prelude.{◌≡◌, ◌≤◌, ◌<◌, ◌%◌, ◌++◌, [], ℤ, pos, length, IfOk, OnOk};
ghost use Rattle.std.specs.List.{flat_map};
ghost use Rattle.etx_dvi.specs.Commands.{bytes_of};
ghost use Rattle.etx_ship.specs.Files.{definitions, ending, postamble, file_of, post_of};
ghost use Rattle.etx_ship.specs.Pens.{is_used};
ghost use Rattle.etx_ship.specs.Wholes.{bytes_behind};

use crate::pen::definition;
use crate::state::{DviFont, DviState, Numbers};
use etx_dvi::{Dvi, put, put_tail};
use std::alloc::{AllocError, Global};

/// The postamble of a file, which stands behind its last page ("TeX: The Program", section 642). A file without a page
/// has none. Nothing is refused but for want of memory.
#[tactic(auto, unfolding(crate::specs::Wholes::bytes_behind))]
pub fn finish(alloc: Global, file: &DviState) -> Result<Vec<u8>, AllocError>
    ensures value { IfOk result (λ bytes. bytes.items ≡ postamble file.now) }
    ensures whole { IfOk result (λ bytes. bytes_behind file.now [] ≡ bytes.items) }
{
    let bytes = postamble_of(alloc, &file.numbers(), file.loaded(), file.used())?;
    Ok(bytes)
}

/// The postamble of a file of these numbers and fonts.
#[tactic(auto, unfolding(crate::specs::Files::postamble))]
pub(crate) fn postamble_of(
    alloc: Global,
    numbers: &Numbers,
    fonts: &[DviFont],
    used: &[bool],
) -> Result<Vec<u8>, AllocError>
    requires bytes { numbers.now.bytes ≤ 2147483647 }
    requires fonts { length fonts.now ≤ 255 }
    ensures { IfOk result (λ bytes. bytes.items ≡ postamble (file_of numbers.now fonts.now used.now)) }
{
    if numbers.pages == 0 {
        return Ok(Vec::new(alloc));
    }
    let mut out = ending_of(alloc, numbers, fonts, used)?;
    let place = numbers.bytes as u64 + out.len() as u64;
    put_tail((place % 4) as u32, &mut out)?;
    Ok(out)
}

#[tactic(auto, unfolding(crate::specs::Files::ending))]
fn ending_of(
    alloc: Global,
    numbers: &Numbers,
    fonts: &[DviFont],
    used: &[bool],
) -> Result<Vec<u8>, AllocError>
    requires bytes { numbers.now.bytes ≤ 2147483647 }
    requires fonts { length fonts.now ≤ 255 }
    ensures { IfOk result (λ bytes. bytes.items ≡ ending (file_of numbers.now fonts.now used.now)) }
{
    let mut out = Vec::new(alloc);
    put(alloc, &post(numbers), &mut out)?;
    put_definitions(alloc, fonts, used, &mut out)?;
    let end = Dvi::PostPost {
        post: numbers.bytes as i32,
    };
    put(alloc, &end, &mut out)?;
    Ok(out)
}

fn post(numbers: &Numbers) -> Dvi
    ensures { result ≡ post_of (file_of numbers.now [] []) }
{
    Dvi::Post {
        last: numbers.last,
        magnification: numbers.magnification,
        tallest: numbers.tallest,
        widest: numbers.widest,
        pushes: (numbers.pushes % 65536) as u16,
        pages: (numbers.pages % 65536) as u16,
    }
}

// The definitions of the fonts that are used, the highest number first.
fn put_definitions(
    alloc: Global,
    fonts: &[DviFont],
    used: &[bool],
    out: &mut Vec<u8>,
) -> Result<(), AllocError>
    requires { length fonts.now ≤ 255 }
    ensures { OnOk result (out.new.items ≡ out.old.items ++ flat_map bytes_of (definitions 0 fonts.now used.now)) }
{
    let mut number = fonts.len();
    while number > 0 {
        number -= 1;
        if used_at(used, number) {
            put(
                alloc,
                &definition(alloc, number as u8, &fonts[number])?,
                out,
            )?;
        }
    }
    Ok(())
}

fn used_at(used: &[bool], number: usize) -> bool
    ensures { result ≡ is_used used.now number }
{
    match used.get(number) {
        Some(used) => *used,
        None => false,
    }
}
