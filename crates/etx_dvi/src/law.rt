// What holds of the bytes of commands.
ghost use Rattle.std.specs.Prelude.{ℕ, ◌≡◌, ◌+◌, ◌%◌, ◌≤◌, List, ◌++◌, Some, ℤ, FitsSigned, All, length};
ghost use Rattle.std.specs.List.{flat_map};
ghost use Rattle.std.specs.Int.{w32};
ghost use Rattle.etx_dvi.specs.declared.command.Dvi.{Dvi};
ghost use Rattle.etx_dvi.specs.Commands.{bytes_of};
ghost use Rattle.etx_dvi.specs.Kept.{IsKept};
ghost use Rattle.etx_dvi.specs.Numbers.{four, width_of, signed_bytes, signed_at};
ghost use Rattle.etx_dvi.specs.Reading.{read_command};
ghost use Rattle.etx_dvi.specs.Tail.{tail_of};

/// A number that is written in two's complement, in four bytes or in those that a movement takes, reads as the number.
pub fn numbers_read_back()
    ensures whole { (z : ℤ) (bs : List ℕ) → FitsSigned w32 z → signed_at 4 (four z ++ bs) ≡ z }
    ensures moved { (z : ℤ) (bs : List ℕ) → FitsSigned w32 z → signed_at (width_of z) (signed_bytes (width_of z) z ++ bs) ≡ z }
{}

/// A reader takes commands apart: no command's bytes begin another's, commands that differ have different bytes, and a
/// sequence of commands has bytes that no other sequence has.
pub fn commands_come_apart()
    ensures reads { (c : Dvi) (bs : List ℕ) → IsKept c → read_command (bytes_of c ++ bs) ≡ Some (c, bs) }
    ensures apart { (c d : Dvi) (bs cs : List ℕ) → IsKept c → IsKept d → bytes_of c ++ bs ≡ bytes_of d ++ cs → (c ≡ d) × (bs ≡ cs) }
    ensures sequences { (cs ds : List Dvi) → All IsKept cs → All IsKept ds → flat_map bytes_of cs ≡ flat_map bytes_of ds → cs ≡ ds }
{}

/// A file is filled up to a multiple of four bytes, by four to seven.
pub fn tail_fills_up()
    ensures whole { (place : ℕ) → (place + length (tail_of place)) % 4 ≡ 0 }
    ensures least { (place : ℕ) → 4 ≤ length (tail_of place) }
    ensures most { (place : ℕ) → length (tail_of place) ≤ 7 }
{}
