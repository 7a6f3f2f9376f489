ghost use Rattle.std.specs.Prelude.{◌≡◌};
ghost use Rattle.node_actor.specs.Stops.{stop_of};
ghost use Rattle.node_actor.specs.declared.stopped.Stopped.TheVariants.{Memory as NoMemory};

use gate_vault::VaultError;
use quota_table::OutOfMemory;

/// Why a node takes no further step.
#[derive(Clone, Copy, Debug, Drop, PartialEq)]
pub enum Stopped {
    /// Its disk failed twice, one after the other.
    Disk,
    /// It was refused memory, or a step gave an entry that no vault takes.
    Memory,
}

impl From<OutOfMemory> for Stopped {
    ghost from_gives = { λ _ s. s ≡ NoMemory };

    fn from(_: OutOfMemory) -> Stopped {
        Stopped::Memory
    }
}

impl From<VaultError> for Stopped {
    ghost from_gives = { λ e s. s ≡ stop_of e };

    fn from(error: VaultError) -> Stopped {
        match error {
            VaultError::DiskFault => Stopped::Disk,
            _ => Stopped::Memory,
        }
    }
}
