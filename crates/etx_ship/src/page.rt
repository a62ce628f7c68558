//! A page is shipped.
ghost use Rattle.std.specs.Prelude.{◌≡◌, ◌≤◌, ◌+◌, false, ℤ, pos, ◌+ℤ◌, ◌≤ℤ◌, ◌||◌, List, [], ◌∷◌, ◌++◌, length, IfOk, OnOk, OnErr};
ghost use Rattle.std.specs.Int.{int_max};
ghost use Rattle.std.specs.List.{flat_map};
ghost use Rattle.etx_dvi.specs.Commands.{bytes_of};
ghost use Rattle.etx_ship.specs.Pages.{page_of, is_huge as is_huge_page, passes, page_bytes, page_items, shipped, refusal, opening, fresh, numbers_behind, begun, AnswersBy};
ghost use Rattle.etx_ship.specs.Files.{file_of};
ghost use Rattle.etx_ship.specs.Hands.{wrote_command, drawn};
ghost use Rattle.etx_ship.specs.Pens.{after_all};
ghost use Rattle.etx_ship.specs.Places.{places_of};
ghost use Rattle.etx_ship.specs.Wholes.{Event, Ship, bytes_behind};
ghost use Rattle.etx_dvi.specs.declared.command.Dvi.TheVariants.{Bop, Eop};

use crate::close::postamble_of;
use crate::draw::draw_box;
use crate::fault::ShipFault;
use crate::pen::Pen;
use crate::place::Point;
use crate::state::{DviState, Numbers};
use etx_dvi::Dvi;
use etx_matter::BoxNode;
use std::alloc::{AllocError, Global};

/// The most bytes that a file has.
const MOST_BYTES: u64 = 2_147_483_647;

/// TeX's greatest size, in sp.
const GREATEST: i64 = 1_073_741_823;

/// The bytes of a page, which stand behind those that the file has: those of the first page begin the file. The page is
/// the box `b`, moved right and down by the two numbers of `offset` (`\hoffset` and `\voffset`, in sp), and is named by the
/// ten `counts`.
///
/// Refused, in this order: `Huge` exactly where the height or the depth of the box, or both together and the offset down,
/// or its width and the offset to the right, is more than 2^30 - 1 sp ("TeX: The Program", section 641); `Full` exactly
/// where the file with this page and its postamble would have more than 2147483647 bytes. Besides, memory can be wanting.
/// After an `Err` the state is as before.
pub fn ship(
    alloc: Global,
    b: &BoxNode,
    counts: [i32; 10],
    offset: (i32, i32),
    file: &mut DviState,
) -> Result<Vec<u8>, ShipFault>
    ensures bytes { IfOk result (λ bytes. bytes.items ≡ page_bytes file.old (page_of b.now counts offset.0 offset.1)) }
    ensures ok { IfOk result (λ bytes. file.new ≡ shipped file.old (page_of b.now counts offset.0 offset.1)) }
    ensures whole { IfOk result (λ bytes. (events : List Event) → bytes_behind file.old (Ship (page_of b.now counts offset.0 offset.1) ∷ events) ≡ bytes.items ++ bytes_behind file.new events) }
    ensures err { OnErr result (file.new ≡ file.old) }
    ensures answer { AnswersBy (refusal file.old (page_of b.now counts offset.0 offset.1)) result }
{
    if is_huge(b, offset) {
        return Err(ShipFault::Huge);
    }
    let page = draw_page(alloc, b, &counts, offset, file)?;
    if page.place > MOST_BYTES {
        return Err(ShipFault::Full);
    }
    let numbers = numbers_after(&file.numbers(), b, offset, page.place as u32, page.most)?;
    let end = postamble_of(alloc, &numbers, file.loaded(), page.used.as_slice())?;
    if page.place + end.len() as u64 > MOST_BYTES {
        return Err(ShipFault::Full);
    }
    file.set(numbers, page.used);
    Ok(page.bytes)
}

fn passes_greatest(size: i64) -> bool
    ensures value { result ≡ passes size }
    ensures fits { result ≡ false → size ≤ℤ pos 1073741823 }
{
    size > GREATEST
}

fn tall_of(b: &BoxNode, offset: (i32, i32)) -> i64
    ensures { result ≡ (b.now.height +ℤ b.now.depth) +ℤ offset.1 }
{
    b.height as i64 + b.depth as i64 + offset.1 as i64
}

fn wide_of(b: &BoxNode, offset: (i32, i32)) -> i64
    ensures { result ≡ b.now.width +ℤ offset.0 }
{
    b.width as i64 + offset.0 as i64
}

// Whether the page is too high, with what is above and below it, or too wide.
fn is_large(b: &BoxNode, offset: (i32, i32)) -> bool
    ensures value { result ≡ (passes ((b.now.height +ℤ b.now.depth) +ℤ offset.1) || passes (b.now.width +ℤ offset.0)) }
    ensures tall { result ≡ false → ((b.now.height +ℤ b.now.depth) +ℤ offset.1) ≤ℤ pos 1073741823 }
    ensures wide { result ≡ false → (b.now.width +ℤ offset.0) ≤ℤ pos 1073741823 }
{
    let tall = tall_of(b, offset);
    let wide = wide_of(b, offset);
    tall > GREATEST || wide > GREATEST
}

#[tactic(auto, unfolding(crate::specs::Pages::is_huge))]
fn is_huge(b: &BoxNode, offset: (i32, i32)) -> bool
    ensures value { (counts : List ℤ) → result ≡ is_huge_page (page_of b.now counts offset.0 offset.1) }
    ensures tall { result ≡ false → ((b.now.height +ℤ b.now.depth) +ℤ offset.1) ≤ℤ pos 1073741823 }
    ensures wide { result ≡ false → (b.now.width +ℤ offset.0) ≤ℤ pos 1073741823 }
{
    if passes_greatest(b.height as i64) {
        return true;
    }
    if passes_greatest(b.depth as i64) {
        return true;
    }
    is_large(b, offset)
}

// A page that is drawn: its bytes, the place behind them in the file, which fonts are used then, and the most boxes that
// were open.
#[derive(Drop)]
struct Drawn {
    bytes: Vec<u8>,
    place: u64,
    used: Vec<bool>,
    most: u64,
}

// Where the reference point of the page's box stands.
fn origin(b: &BoxNode, offset: (i32, i32)) -> Point
    ensures { result ≡ record { h = offset.0; v = b.now.height +ℤ offset.1 } }
{
    Point {
        h: offset.0 as i64,
        v: b.height as i64 + offset.1 as i64,
    }
}

// The first page begins the file.
#[tactic(auto, unfolding(crate::specs::Hands::wrote_command, crate::specs::Hands::inked))]
fn begin_file(pen: &mut Pen<'_>, numbers: &Numbers) -> Result<(), AllocError>
    ensures { OnOk result (pen.new ≡ begun (file_of numbers.now [] []) pen.old) }
{
    if numbers.pages == 0 {
        let pre = Dvi::Pre {
            magnification: numbers.magnification,
        };
        pen.write(&pre)?;
    }
    Ok(())
}

fn name_page(pen: &mut Pen<'_>, counts: &[i32; 10], numbers: &Numbers) -> Result<(), AllocError>
    ensures { OnOk result (pen.new ≡ wrote_command (Bop counts.now numbers.now.last) pen.old) }
{
    let begin = Dvi::Bop {
        counts: *counts,
        last: numbers.last,
    };
    pen.write(&begin)
}

fn write_page(
    pen: &mut Pen<'_>,
    b: &BoxNode,
    counts: &[i32; 10],
    at: Point,
    numbers: &Numbers,
) -> Result<(), AllocError>
    ensures { OnOk result (pen.new ≡ wrote_command Eop (drawn (places_of b.now at) (wrote_command (Bop counts.now numbers.now.last) (begun (file_of numbers.now [] []) pen.old)))) }
{
    begin_file(pen, numbers)?;
    name_page(pen, counts, numbers)?;
    draw_box(pen, b, at)?;
    pen.write(&Dvi::Eop)
}

fn draw_page(
    alloc: Global,
    b: &BoxNode,
    counts: &[i32; 10],
    offset: (i32, i32),
    file: &DviState,
) -> Result<Drawn, AllocError>
    ensures bytes { IfOk result (λ page. page.bytes.items ≡ page_bytes file.now (page_of b.now counts.now offset.0 offset.1)) }
    ensures place { IfOk result (λ page. page.place ≡ file.now.bytes + length (page_bytes file.now (page_of b.now counts.now offset.0 offset.1))) }
    ensures used { IfOk result (λ page. page.used.items ≡ (after_all file.now.fonts (page_items (page_of b.now counts.now offset.0 offset.1)) (fresh file.now.used)).used) }
    ensures marks { IfOk result (λ page. length page.used.items ≡ length file.now.fonts) }
    ensures most { IfOk result (λ page. page.most ≡ (after_all file.now.fonts (page_items (page_of b.now counts.now offset.0 offset.1)) (fresh file.now.used)).most) }
{
    let mut pen = Pen::new(alloc, file.loaded(), file.used())?;
    write_page(&mut pen, b, counts, origin(b, offset), &file.numbers())?;
    let (bytes, used, most) = pen.into_parts();
    let place = file.bytes() as u64 + bytes.len() as u64;
    Ok(Drawn {
        bytes,
        place,
        used,
        most,
    })
}

// The place at which a page begins: behind the preamble, where there is no page yet.
#[tactic(auto, using(crate::proofs::Paging::preamble_length))]
fn start_of(numbers: &Numbers) -> i32
    requires none { numbers.now.pages ≡ 0 → numbers.now.bytes ≡ 0 }
    requires bytes { numbers.now.bytes ≤ 2147483647 }
    ensures { result ≡ pos (numbers.now.bytes + length (flat_map bytes_of (opening (file_of numbers.now [] [])))) }
{
    if numbers.pages == 0 {
        42
    } else {
        numbers.bytes as i32
    }
}

// The greater of a size that no page passes yet and that of a page.
fn greater(most: i32, size: i64) -> i32
    requires { size ≤ℤ pos 1073741823 }
    ensures { result ≡ int_max most size }
{
    if size > most as i64 {
        size as i32
    } else {
        most
    }
}

fn numbers_after(
    numbers: &Numbers,
    b: &BoxNode,
    offset: (i32, i32),
    bytes: u32,
    most: u64,
) -> Result<Numbers, AllocError>
    requires none { numbers.now.pages ≡ 0 → numbers.now.bytes ≡ 0 }
    requires bytes { numbers.now.bytes ≤ 2147483647 }
    requires tall { ((b.now.height +ℤ b.now.depth) +ℤ offset.1) ≤ℤ pos 1073741823 }
    requires wide { (b.now.width +ℤ offset.0) ≤ℤ pos 1073741823 }
    ensures { IfOk result (λ next. (counts : List ℤ) → next ≡ numbers_behind (file_of numbers.now [] []) (page_of b.now counts offset.0 offset.1) bytes most) }
{
    let Some(pages) = numbers.pages.checked_add(1) else {
        return Err(AllocError);
    };
    Ok(Numbers {
        bytes,
        pages,
        last: start_of(numbers),
        tallest: greater(numbers.tallest, tall_of(b, offset)),
        widest: greater(numbers.widest, wide_of(b, offset)),
        pushes: numbers.pushes.max(most),
        magnification: numbers.magnification,
    })
}
