ghost use Rattle.std.specs.Prelude.{◌≡◌};
ghost use Rattle.etx_ship.specs.declared.fault.ShipFault.TheVariants.{OutOfMemory};

use std::alloc::AllocError;

/// Why a page was not shipped. The state of the file is then as before.
#[derive(Clone, Copy, Debug, PartialEq, Eq)]
pub enum ShipFault {
    /// The page is so high, deep or wide that TeX ships none like it ("TeX: The Program", section 641).
    Huge,
    /// With this page and its postamble the file would have more than 2147483647 bytes.
    Full,
    /// Memory is wanting.
    OutOfMemory,
}

impl From<AllocError> for ShipFault {
    ghost from_gives = { λ error fault. fault ≡ OutOfMemory };

    fn from(_error: AllocError) -> ShipFault {
        ShipFault::OutOfMemory
    }
}
