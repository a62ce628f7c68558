//! What the values of a store stand under.
ghost use Rattle.std.specs.Prelude.{◌≡◌, ◌+◌, ◌*◌, ◌<◌, ◌≤◌, ◌^◌};
ghost use Rattle.etx_undo.specs.Slots.{row_len};

/// How many slots of kind 0 are places in a row.
pub const NAMES: u32 = 1_048_576;

/// How many slots of each other kind are places in a row.
pub const SMALL: u32 = 256;

/// What a value stands under: a number of one kind.
///
/// Kind 0 is for what has many numbers in a row, as the names of control sequences have. Its slots below [`NAMES`], and
/// those below [`SMALL`] of each other kind, are found by an index, and all others by a search.
#[derive(Clone, Copy, Debug, PartialEq, Eq, PartialOrd, Ord)]
pub struct Slot {
    pub kind: u8,
    pub at: u32,
}

/// How many slots of this kind are places in a row.
#[tactic(auto, unfolding(crate::specs::Slots::row_len))]
pub fn row_len(kind: u8) -> u32
    ensures { result ≡ row_len kind }
{
    if kind == 0 { NAMES } else { SMALL }
}

impl Slot {
    /// Its place in the row that all kinds but 0 share.
    pub fn place(self) -> usize
        requires { self.at < 256 }
        ensures place { result ≡ self.kind * 256 + self.at }
        ensures small { result < 2 ^ 32 }
    {
        self.kind as usize * 256 + self.at as usize
    }
}
