// What fills up a file.
ghost use Rattle.std.specs.Prelude.{ℕ, ◌≡◌, ◌++◌, ◌^◌, ◌<◌, OnOk, OnErr};
ghost use Rattle.etx_dvi.specs.Tail.{tail_of};

use std::alloc::AllocError;

/// Appends the bytes that stand behind the last command of a file: four to seven bytes 223, which bring a file that has
/// `place` bytes before them to a multiple of four. For want of memory `out` is what it was.
pub fn put_tail(place: u32, out: &mut Vec<u8>) -> Result<(), AllocError>
    ensures ok { OnOk result (out.new.items ≡ out.old.items ++ tail_of place) }
    ensures err { OnErr result (out.new.items ≡ out.old.items) }
{
    match place % 4 {
        0 => out.extend_from_slice(&[223; 4]),
        1 => out.extend_from_slice(&[223; 7]),
        2 => out.extend_from_slice(&[223; 6]),
        _ => out.extend_from_slice(&[223; 5]),
    }
}
