// The bytes of the commands that a file has once, or once a page or a font: they are put together first.
ghost use Rattle.std.specs.Prelude.{ℕ, ◌≡◌, ◌+◌, ◌<◌, ◌≤◌, ◌∷◌, [], ◌++◌, length, ℤ, IfOk, OnOk, OnErr, nat_lt, if◌then◌else◌};
ghost use Rattle.std.specs.List.{flat_map};
ghost use Rattle.std.specs.Int.{bytes_high_first};
ghost use Rattle.etx_dvi.specs.Commands.{unit, comment};
ghost use Rattle.etx_dvi.specs.Numbers.{four};

use crate::command::FontName;
use etx_lists::Bytes;
use std::alloc::{AllocError, Global};

/// What the preamble says of the program that wrote the file: always the same.
const COMMENT: &[u8; 27] = b" TeX output 1776.07.04:1200";

/// The unit in 10^-7 meters: a scaled point.
const NUMERATOR: i32 = 25_400_000;

const DENOMINATOR: i32 = 473_628_672;

fn push_four(number: i32, bytes: &mut Vec<u8>) -> Result<(), AllocError>
    ensures { OnOk result (bytes.new.items ≡ bytes.old.items ++ four number) }
{
    bytes.extend_from_slice(&number.to_be_bytes())
}

fn push_unit(bytes: &mut Vec<u8>) -> Result<(), AllocError>
    ensures { OnOk result (bytes.new.items ≡ bytes.old.items ++ unit) }
{
    push_four(NUMERATOR, bytes)?;
    push_four(DENOMINATOR, bytes)
}

fn page(alloc: Global, counts: &[i32; 10], last: i32) -> Result<Vec<u8>, AllocError>
    ensures { IfOk result (λ bytes. bytes.items ≡ 139 ∷ flat_map four counts.now ++ four last) }
{
    let mut bytes = Vec::with_capacity(alloc, 45)?;
    bytes.push(139)?;
    for count in counts {
        push_four(*count, &mut bytes)?;
    }
    push_four(last, &mut bytes)?;
    Ok(bytes)
}

pub(crate) fn put_page(
    alloc: Global,
    counts: &[i32; 10],
    last: i32,
    out: &mut Vec<u8>,
) -> Result<(), AllocError>
    ensures ok { OnOk result (out.new.items ≡ out.old.items ++ (139 ∷ flat_map four counts.now ++ four last)) }
    ensures err { OnErr result (out.new.items ≡ out.old.items) }
{
    let bytes = page(alloc, counts, last)?;
    out.extend_from_slice(bytes.as_slice())
}

fn special(alloc: Global, text: &Bytes) -> Result<Vec<u8>, AllocError>
    ensures { IfOk result (λ bytes. bytes.items ≡ (if nat_lt (length text.now) 256 then 239 ∷ length text.now ∷ [] else 242 ∷ bytes_high_first 4 (length text.now)) ++ text.now) }
{
    let mut bytes = Vec::with_capacity(alloc, text.len() + 5)?;
    if text.len() < 256 {
        bytes.extend_from_slice(&[239, text.len() as u8])?;
    } else {
        bytes.push(242)?;
        push_four(text.len() as i32, &mut bytes)?;
    }
    bytes.extend_from_slice(text.as_slice())?;
    Ok(bytes)
}

pub(crate) fn put_special(alloc: Global, text: &Bytes, out: &mut Vec<u8>) -> Result<(), AllocError>
    ensures ok { OnOk result (out.new.items ≡ out.old.items ++ ((if nat_lt (length text.now) 256 then 239 ∷ length text.now ∷ [] else 242 ∷ bytes_high_first 4 (length text.now)) ++ text.now)) }
    ensures err { OnErr result (out.new.items ≡ out.old.items) }
{
    let bytes = special(alloc, text)?;
    out.extend_from_slice(bytes.as_slice())
}

fn definition(
    alloc: Global,
    number: u8,
    checksum: u32,
    size: i32,
    design_size: i32,
    name: &FontName,
) -> Result<Vec<u8>, AllocError>
    ensures { IfOk result (λ bytes. bytes.items ≡ 243 ∷ number ∷ bytes_high_first 4 checksum ++ four size ++ four design_size ++ 0 ∷ length name.now ∷ name.now) }
{
    let name = name.as_slice();
    let mut bytes = Vec::with_capacity(alloc, 16 + name.len())?;
    bytes.extend_from_slice(&[243, number])?;
    bytes.extend_from_slice(&checksum.to_be_bytes())?;
    push_four(size, &mut bytes)?;
    push_four(design_size, &mut bytes)?;
    bytes.extend_from_slice(&[0, name.len() as u8])?;
    bytes.extend_from_slice(name)?;
    Ok(bytes)
}

pub(crate) fn put_definition(
    alloc: Global,
    number: u8,
    checksum: u32,
    size: i32,
    design_size: i32,
    name: &FontName,
    out: &mut Vec<u8>,
) -> Result<(), AllocError>
    ensures ok { OnOk result (out.new.items ≡ out.old.items ++ (243 ∷ number ∷ bytes_high_first 4 checksum ++ four size ++ four design_size ++ 0 ∷ length name.now ∷ name.now)) }
    ensures err { OnErr result (out.new.items ≡ out.old.items) }
{
    let bytes = definition(alloc, number, checksum, size, design_size, name)?;
    out.extend_from_slice(bytes.as_slice())
}

fn pre(alloc: Global, magnification: i32) -> Result<Vec<u8>, AllocError>
    ensures { IfOk result (λ bytes. bytes.items ≡ 247 ∷ 2 ∷ unit ++ four magnification ++ 27 ∷ comment) }
{
    let mut bytes = Vec::with_capacity(alloc, 42)?;
    bytes.extend_from_slice(&[247, 2])?;
    push_unit(&mut bytes)?;
    push_four(magnification, &mut bytes)?;
    bytes.push(27)?;
    bytes.extend_from_slice(COMMENT)?;
    Ok(bytes)
}

pub(crate) fn put_pre(
    alloc: Global,
    magnification: i32,
    out: &mut Vec<u8>,
) -> Result<(), AllocError>
    ensures ok { OnOk result (out.new.items ≡ out.old.items ++ (247 ∷ 2 ∷ unit ++ four magnification ++ 27 ∷ comment)) }
    ensures err { OnErr result (out.new.items ≡ out.old.items) }
{
    let bytes = pre(alloc, magnification)?;
    out.extend_from_slice(bytes.as_slice())
}

fn post(
    alloc: Global,
    last: i32,
    magnification: i32,
    tallest: i32,
    widest: i32,
    pushes: u16,
    pages: u16,
) -> Result<Vec<u8>, AllocError>
    ensures { IfOk result (λ bytes. bytes.items ≡ 248 ∷ four last ++ unit ++ four magnification ++ four tallest ++ four widest ++ bytes_high_first 2 pushes ++ bytes_high_first 2 pages) }
{
    let mut bytes = Vec::with_capacity(alloc, 29)?;
    bytes.push(248)?;
    push_four(last, &mut bytes)?;
    push_unit(&mut bytes)?;
    push_four(magnification, &mut bytes)?;
    push_four(tallest, &mut bytes)?;
    push_four(widest, &mut bytes)?;
    bytes.extend_from_slice(&pushes.to_be_bytes())?;
    bytes.extend_from_slice(&pages.to_be_bytes())?;
    Ok(bytes)
}

pub(crate) fn put_post(
    alloc: Global,
    last: i32,
    magnification: i32,
    tallest: i32,
    widest: i32,
    pushes: u16,
    pages: u16,
    out: &mut Vec<u8>,
) -> Result<(), AllocError>
    ensures ok { OnOk result (out.new.items ≡ out.old.items ++ (248 ∷ four last ++ unit ++ four magnification ++ four tallest ++ four widest ++ bytes_high_first 2 pushes ++ bytes_high_first 2 pages)) }
    ensures err { OnErr result (out.new.items ≡ out.old.items) }
{
    let bytes = post(alloc, last, magnification, tallest, widest, pushes, pages)?;
    out.extend_from_slice(bytes.as_slice())
}
