ghost use Rattle.std.specs.Prelude.{◌≡◌};
ghost use Rattle.spec_base.specs.declared.stop.Stop.TheVariants.{OutOfMemory as NoMemory};

use quota_table::OutOfMemory;
use std::alloc::{AllocError, AllocFailed};
use thiserror::Error;

/// Why a call to the outside did not do what it was asked to.
#[derive(Clone, Copy, Debug, Drop, Error, PartialEq, Eq)]
pub enum Stop {
    /// The object failed, and counted it: this answer comes only where the object's count of faults rose in this call.
    #[error("failed")]
    Failed,
    /// Memory was refused. The object's count of faults, and a disk's failures in a row, are as before the call. A write
    /// to a disk that answers this may have torn its range all the same.
    #[error("out of memory")]
    OutOfMemory,
}

impl From<OutOfMemory> for Stop {
    ghost from_gives = { λ _ stop. stop ≡ NoMemory };

    fn from(_: OutOfMemory) -> Stop {
        Stop::OutOfMemory
    }
}

impl From<AllocError> for Stop {
    ghost from_gives = { λ _ stop. stop ≡ NoMemory };

    fn from(_: AllocError) -> Stop {
        Stop::OutOfMemory
    }
}

impl<T: Drop> From<AllocFailed<T>> for Stop {
    ghost from_gives = { λ _ stop. stop ≡ NoMemory };

    fn from(_: AllocFailed<T>) -> Stop {
        Stop::OutOfMemory
    }
}
