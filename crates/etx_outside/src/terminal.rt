// A terminal.
ghost use Rattle.std.specs.Prelude.{◌≡◌, ◌++◌, List, ℕ, ◌≤◌, take, OnOk, OnErr, IsErrOf};
ghost use Rattle.etx_outside.specs.Faults.{Rose};
ghost use Rattle.etx_outside.specs.declared.terminal.TermFault.TheVariants.{OutOfMemory};

use std::alloc::{AllocError, Global};

/// Why a call of a terminal did not say all that was asked.
#[derive(Clone, Copy, Debug, PartialEq, Eq)]
pub enum TermFault {
    /// The terminal failed to write. The count of such faults rose.
    Failed,
    /// Memory was wanted.
    OutOfMemory,
}

impl From<AllocError> for TermFault {
    ghost from_gives = { λ _ e. e ≡ OutOfMemory };

    fn from(_: AllocError) -> Self {
        TermFault::OutOfMemory
    }
}

/// A terminal, on which text is said.
///
/// Whether a terminal tells what was said belongs to its type, so no call changes it. The count of faults is read from
/// each terminal: it never falls and stops at 2^64-1, and it rose in a call where it is greater afterwards or stands
/// at 2^64-1 afterwards.
pub trait Terminal {
    /// Holds for a type of terminals whose text is known.
    ghost tells: { Type 0 };

    /// What was said.
    ghost text: { Self → List ℕ };

    /// How often it failed.
    ghost faults: { Self → ℕ };

    /// Holds for a type of terminals whose count stays where a call answers `Ok`.
    ghost counts_only_faults: { Type 0 };

    /// Says these bytes.
    ///
    /// - `ok`, `err`: all of the bytes are said; after an `Err`, so many of the first.
    /// - `later`: the count of faults does not fall.
    /// - `steady`: where it answers `Ok`, the count stays.
    /// - `cause`: it fails only where the count of faults rose.
    fn say(&mut self, alloc: Global, bytes: &[u8]) -> Result<(), TermFault>
        ensures ok { OnOk result (tells → text self.new ≡ text self.old ++ bytes.now) }
        ensures err { OnErr result (tells → (n : ℕ) × (text self.new ≡ text self.old ++ take n bytes.now)) }
        ensures later { faults self.old ≤ faults self.new }
        ensures steady { OnOk result (counts_only_faults → faults self.new ≡ faults self.old) }
        ensures cause { IsErrOf result TermFault.Failed → Rose (faults self.old) (faults self.new) };
}
