ghost use Rattle.std.specs.Prelude.{◌≡◌};
ghost use Rattle.cluster_run.specs.Answers.{error_of, no_memory};

use quota_table::OutOfMemory;
use shelf_vaults::ShelfError;
use spec_base::NodeId;
use thiserror::Error;

/// Why a run has no record.
#[derive(Clone, Copy, Debug, Drop, Error, PartialEq, Eq)]
pub enum RunError {
    /// A call for the disk of this name, or of it, and its repeat, failed: as the vault was made, loaded or appended to. Of several
    /// such names it is the first in the order of nodes.
    #[error("shelf fault")]
    ShelfFault { name: NodeId },
    /// Memory was refused.
    #[error("out of memory")]
    OutOfMemory,
}

impl From<OutOfMemory> for RunError {
    ghost from_gives = { λ _ e. e ≡ no_memory };

    fn from(_: OutOfMemory) -> RunError {
        RunError::OutOfMemory
    }
}

impl From<ShelfError> for RunError {
    ghost from_gives = { λ s e. e ≡ error_of s };

    fn from(error: ShelfError) -> RunError {
        match error {
            ShelfError::Fault { name } => RunError::ShelfFault { name },
            ShelfError::OutOfMemory => RunError::OutOfMemory,
        }
    }
}
