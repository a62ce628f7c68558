// How many bytes a command has.
ghost use Rattle.std.specs.Prelude.{ℕ, ◌≡◌, ◌+◌, ◌*◌, length, ℤ};
ghost use Rattle.etx_dvi.specs.Commands.{bytes_of};
ghost use Rattle.etx_dvi.specs.Numbers.{width_of};

use crate::command::Dvi;

/// The number of bytes that [`crate::put`] appends.
#[tactic(auto, using(crate::proofs::Sizes::lengths))]
pub fn length(c: &Dvi) -> u32
    ensures { result ≡ length (bytes_of c.now) }
{
    match c {
        Dvi::SetChar(code) => { if *code < 128 { 1 } else { 2 } }
        Dvi::SetRule { .. } | Dvi::PutRule { .. } => 9,
        Dvi::Bop { counts, .. } => page_length(counts),
        Dvi::Eop | Dvi::Push | Dvi::Pop | Dvi::W0 | Dvi::X0 | Dvi::Y0 | Dvi::Z0 => 1,
        Dvi::Right(amount) => movement_length(*amount),
        Dvi::W(amount) => movement_length(*amount),
        Dvi::X(amount) => movement_length(*amount),
        Dvi::Down(amount) => movement_length(*amount),
        Dvi::Y(amount) => movement_length(*amount),
        Dvi::Z(amount) => movement_length(*amount),
        Dvi::FontNumber(number) => { if *number < 64 { 1 } else { 2 } }
        Dvi::Special(text) => {
            let size = text.len() as u32;
            if size < 256 { 2 + size } else { 5 + size }
        }
        Dvi::FontDefinition { name, .. } => 16 + name.as_slice().len() as u32,
        Dvi::Pre { .. } => 42,
        Dvi::Post { .. } => 29,
        Dvi::PostPost { .. } => 6,
    }
}

fn page_length(counts: &[i32; 10]) -> u32
    ensures { result ≡ 5 + 4 * length counts.now }
{
    5 + 4 * counts.len() as u32
}

fn movement_length(amount: i32) -> u32
    ensures { result ≡ 1 + width_of amount }
{
    match amount.unsigned_abs() {
        0..=127 => 2,
        128..=32767 => 3,
        32768..=8388607 => 4,
        _ => 5,
    }
}
