// The bytes of the commands that a page is made of: each is appended at once, and takes no memory of its own.
ghost use Rattle.std.specs.Prelude.{ℕ, ◌≡◌, ◌+◌, ◌<◌, ◌≤◌, ◌∷◌, [], ◌++◌, ℤ, OnOk, OnErr, nat_lt, if◌then◌else◌};
ghost use Rattle.etx_dvi.specs.Commands.{bytes_of, movement};
ghost use Rattle.etx_dvi.specs.Numbers.{four, width_of};

use crate::cold::{put_definition, put_page, put_post, put_pre, put_special};
use crate::command::Dvi;
use std::alloc::{AllocError, Global};

/// Appends the bytes of a command. For want of memory `out` is what it was.
pub fn put(alloc: Global, c: &Dvi, out: &mut Vec<u8>) -> Result<(), AllocError>
    ensures ok { OnOk result (out.new.items ≡ out.old.items ++ bytes_of c.now) }
    ensures err { OnErr result (out.new.items ≡ out.old.items) }
{
    match c {
        Dvi::SetChar(code) => put_char(*code, out),
        Dvi::SetRule { height, width } => put_rule(132, *height, *width, out),
        Dvi::PutRule { height, width } => put_rule(137, *height, *width, out),
        Dvi::Bop { counts, last } => put_page(alloc, counts, *last, out),
        Dvi::Eop => put_code(140, out),
        Dvi::Push => put_code(141, out),
        Dvi::Pop => put_code(142, out),
        Dvi::Right(amount) => put_movement(142, *amount, out),
        Dvi::W0 => put_code(147, out),
        Dvi::W(amount) => put_movement(147, *amount, out),
        Dvi::X0 => put_code(152, out),
        Dvi::X(amount) => put_movement(152, *amount, out),
        Dvi::Down(amount) => put_movement(156, *amount, out),
        Dvi::Y0 => put_code(161, out),
        Dvi::Y(amount) => put_movement(161, *amount, out),
        Dvi::Z0 => put_code(166, out),
        Dvi::Z(amount) => put_movement(166, *amount, out),
        Dvi::FontNumber(number) => put_font(*number, out),
        Dvi::Special(text) => put_special(alloc, text, out),
        Dvi::FontDefinition {
            number,
            checksum,
            size,
            design_size,
            name,
        } => { put_definition(alloc, *number, *checksum, *size, *design_size, name, out) }
        Dvi::Pre { magnification } => put_pre(alloc, *magnification, out),
        Dvi::Post {
            last,
            magnification,
            tallest,
            widest,
            pushes,
            pages,
        } => {
            put_post(
                alloc,
                *last,
                *magnification,
                *tallest,
                *widest,
                *pushes,
                *pages,
                out,
            )
        }
        Dvi::PostPost { post } => put_post_post(*post, out),
    }
}

fn put_code(code: u8, out: &mut Vec<u8>) -> Result<(), AllocError>
    ensures ok { OnOk result (out.new.items ≡ out.old.items ++ code ∷ []) }
    ensures err { OnErr result (out.new.items ≡ out.old.items) }
{
    out.extend_from_slice(&[code])
}

fn put_char(code: u8, out: &mut Vec<u8>) -> Result<(), AllocError>
    ensures ok { OnOk result (out.new.items ≡ out.old.items ++ (if nat_lt code 128 then code ∷ [] else 128 ∷ code ∷ [])) }
    ensures err { OnErr result (out.new.items ≡ out.old.items) }
{
    if code < 128 {
        out.extend_from_slice(&[code])
    } else {
        out.extend_from_slice(&[128, code])
    }
}

fn put_font(number: u8, out: &mut Vec<u8>) -> Result<(), AllocError>
    ensures ok { OnOk result (out.new.items ≡ out.old.items ++ (if nat_lt number 64 then (171 + number) ∷ [] else 235 ∷ number ∷ [])) }
    ensures err { OnErr result (out.new.items ≡ out.old.items) }
{
    if number < 64 {
        out.extend_from_slice(&[171 + number])
    } else {
        out.extend_from_slice(&[235, number])
    }
}

fn put_rule(code: u8, height: i32, width: i32, out: &mut Vec<u8>) -> Result<(), AllocError>
    ensures ok { OnOk result (out.new.items ≡ out.old.items ++ (code ∷ four height ++ four width)) }
    ensures err { OnErr result (out.new.items ≡ out.old.items) }
{
    let [a, b, c, d] = height.to_be_bytes();
    let [e, f, g, h] = width.to_be_bytes();
    out.extend_from_slice(&[code, a, b, c, d, e, f, g, h])
}

fn put_post_post(post: i32, out: &mut Vec<u8>) -> Result<(), AllocError>
    ensures ok { OnOk result (out.new.items ≡ out.old.items ++ (249 ∷ four post ++ 2 ∷ [])) }
    ensures err { OnErr result (out.new.items ≡ out.old.items) }
{
    let [a, b, c, d] = post.to_be_bytes();
    out.extend_from_slice(&[249, a, b, c, d, 2])
}

// The command with one byte has the code behind `before`.
fn put_movement(before: u8, amount: i32, out: &mut Vec<u8>) -> Result<(), AllocError>
    requires { before ≤ 166 }
    ensures ok { OnOk result (out.new.items ≡ out.old.items ++ movement before amount) }
    ensures err { OnErr result (out.new.items ≡ out.old.items) }
{
    let [a, b, c, d] = amount.to_be_bytes();
    match amount.unsigned_abs() {
        0..=127 => out.extend_from_slice(&[before + 1, d]),
        128..=32767 => out.extend_from_slice(&[before + 2, c, d]),
        32768..=8388607 => out.extend_from_slice(&[before + 3, b, c, d]),
        _ => out.extend_from_slice(&[before + 4, a, b, c, d]),
    }
}
