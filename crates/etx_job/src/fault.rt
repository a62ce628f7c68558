//! Why a job was cut off.
ghost use Rattle.std.specs.Prelude.{◌≡◌};
ghost use Rattle.etx_job.specs.declared.fault.Fault.TheVariants.{OutOfMemory};
ghost use Rattle.etx_job.specs.Fault.{of_flush};

use etx_settle::FlushFault;
use std::alloc::{AllocError, AllocFailed};

/// Why a job was cut off before its end.
#[derive(Clone, Copy, Debug, PartialEq, Eq)]
pub enum Fault {
    ReadFault,
    WriteFault,
    OutOfMemory,
}

impl From<AllocError> for Fault {
    ghost from_gives = { λ _ e. e ≡ OutOfMemory };

    fn from(_: AllocError) -> Self {
        Fault::OutOfMemory
    }
}

impl From<FlushFault> for Fault {
    ghost from_gives = { λ f e. e ≡ of_flush f };

    fn from(fault: FlushFault) -> Self {
        match fault {
            FlushFault::WriteFault => Fault::WriteFault,
            FlushFault::OutOfMemory => Fault::OutOfMemory,
        }
    }
}
