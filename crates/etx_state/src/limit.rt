ghost use Rattle.std.specs.Prelude.{◌≡◌};
ghost use Rattle.etx_state.specs.declared.limit.Capacity.TheVariants.{OutOfMemory};

use etx_matter::Limit;
use std::alloc::AllocError;

/// The most groups that may be open.
pub const MOST_GROUPS: u32 = 10_000;

/// The most conditionals that may be open.
pub const MOST_CONDITIONS: usize = 10_000;

/// The most names of control sequences that a job may have.
pub const MOST_NAMES: u32 = 1_048_576;

/// Why there is no room.
#[derive(Debug, Drop)]
pub enum Capacity {
    /// A limit of the engine would be passed.
    Full(Limit),
    /// There is no memory left.
    OutOfMemory,
}

impl From<AllocError> for Capacity {
    ghost from_gives = { λ _ capacity. capacity ≡ OutOfMemory };

    fn from(_error: AllocError) -> Capacity {
        Capacity::OutOfMemory
    }
}
