ghost use Rattle.std.specs.Prelude.{◌≡◌};
ghost use Rattle.shelf_vaults.specs.declared.errors.ShelfError.TheVariants.{OutOfMemory as NoRoom};

use quota_table::OutOfMemory;
use spec_base::NodeId;
use thiserror::Error;

/// Why a shelf's disk was not to be had or written.
#[derive(Clone, Copy, Debug, Drop, Error, PartialEq, Eq)]
pub enum ShelfError {
    /// A call for the disk of this name, and its repeat, failed.
    #[error("shelf fault")]
    Fault { name: NodeId },
    /// Memory was refused.
    #[error("out of memory")]
    OutOfMemory,
}

impl From<OutOfMemory> for ShelfError {
    ghost from_gives = { λ _ e. e ≡ NoRoom };

    fn from(_: OutOfMemory) -> ShelfError {
        ShelfError::OutOfMemory
    }
}
