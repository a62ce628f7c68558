ghost use Rattle.std.specs.Prelude.{◌≡◌};
ghost use Rattle.etx_patterns.specs.declared.refused.PatternRefused.TheVariants.{OutOfMemory};

use std::alloc::AllocError;

/// Why a pattern or an exception was not added. The tables are then as before.
#[derive(Clone, Copy, Debug, PartialEq, Eq)]
pub enum PatternRefused {
    /// A letter is 0.
    NonLetter,
    /// The language has a pattern with the same letters and edges, and with a digit above 0.
    Duplicate,
    /// The letters of all patterns would pass 1000000, or the exceptions 10000.
    Full,
    /// Memory is wanting.
    OutOfMemory,
}

impl From<AllocError> for PatternRefused {
    ghost from_gives = { λ error refused. refused ≡ OutOfMemory };

    fn from(_error: AllocError) -> PatternRefused {
        PatternRefused::OutOfMemory
    }
}
