//! Why a flush stopped.
ghost use Rattle.std.specs.Prelude.{◌≡◌};
ghost use Rattle.etx_settle.specs.declared.fault.FlushFault.TheVariants.{OutOfMemory};
ghost use Rattle.etx_settle.specs.Faults.{of_tree, of_terminal};

use etx_outside::{TermFault, TreeFault};
use std::alloc::{AllocError, AllocFailed};
use thiserror::Error;

/// Why a flush stopped. What was written by then is a front of what was to be written.
#[derive(Clone, Copy, Debug, Drop, PartialEq, Eq, Error)]
pub enum FlushFault {
    /// A file or the terminal could not be written; its count of faults rose.
    #[error("a write failed")]
    WriteFault,
    /// There was no memory left.
    #[error("out of memory")]
    OutOfMemory,
}

impl From<AllocError> for FlushFault {
    ghost from_gives = { λ _ e. e ≡ OutOfMemory };

    fn from(_: AllocError) -> Self {
        FlushFault::OutOfMemory
    }
}

impl<T: Drop> From<AllocFailed<T>> for FlushFault {
    ghost from_gives = { λ _ e. e ≡ OutOfMemory };

    fn from(_: AllocFailed<T>) -> Self {
        FlushFault::OutOfMemory
    }
}

impl From<TreeFault> for FlushFault {
    ghost from_gives = { λ f e. e ≡ of_tree f };

    fn from(fault: TreeFault) -> Self {
        match fault {
            TreeFault::Failed => FlushFault::WriteFault,
            TreeFault::OutOfMemory => FlushFault::OutOfMemory,
        }
    }
}

impl From<TermFault> for FlushFault {
    ghost from_gives = { λ f e. e ≡ of_terminal f };

    fn from(fault: TermFault) -> Self {
        match fault {
            TermFault::Failed => FlushFault::WriteFault,
            TermFault::OutOfMemory => FlushFault::OutOfMemory,
        }
    }
}
