//! Tables of what is numbered.
ghost use Rattle.std.specs.Prelude.{◌≡◌, slice_get};

/// What a table has at a number.
pub fn in_table<T: Copy>(table: &[T], number: u32) -> Option<T>
    ensures { result ≡ slice_get table.now number }
{
    table.get(number as usize).copied()
}
