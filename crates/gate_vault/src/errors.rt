ghost use Rattle.std.specs.Prelude.{◌≡◌};
ghost use Rattle.gate_vault.specs.declared.errors.VaultError.TheVariants.{OutOfMemory as NoRoom};
ghost use Rattle.gate_vault.specs.inside.Errors.{error_of};

use quota_table::OutOfMemory as NoMemory;
use spec_base::Stop;
use thiserror::Error;

/// Why a call of a vault did not do what it was asked to.
#[derive(Clone, Copy, Debug, Drop, Error, PartialEq, Eq)]
pub enum VaultError {
    /// An earlier append of this vault had a disk fault or no memory: load the file again.
    #[error("broken by an earlier append")]
    Broken,
    /// The entry has `len` bytes, more than 4,096.
    #[error("entry of {len} bytes, at most 4096")]
    TooLong { len: usize },
    /// The disk failed twice, one after the other.
    #[error("disk fault")]
    DiskFault,
    /// The file does not begin with the head: it first differs at `at`, where it has `byte`, or ends.
    #[error("not a vault: byte {at}")]
    NotAVault { at: u64, byte: Option<u8> },
    /// The gate at `at` is open, but the length behind it is above 4,096 or past the end of the file.
    #[error("damaged frame at {at}")]
    Damaged { at: u64 },
    /// Memory was refused.
    #[error("out of memory")]
    OutOfMemory,
}

impl From<Stop> for VaultError {
    ghost from_gives = { λ stop e. e ≡ error_of stop };

    fn from(stop: Stop) -> VaultError {
        match stop {
            Stop::Failed => VaultError::DiskFault,
            Stop::OutOfMemory => VaultError::OutOfMemory,
        }
    }
}

impl From<NoMemory> for VaultError {
    ghost from_gives = { λ _ e. e ≡ NoRoom };

    fn from(_: NoMemory) -> VaultError {
        VaultError::OutOfMemory
    }
}
