//! Copies that equal what they are copies of.

ghost use Rattle.std.specs.Prelude.{◌≡◌, IfOk};

use msg_wire::{Command, Config};
use quota_table::OutOfMemory;

/// A copy of a cluster.
pub(crate) fn copy_of(cfg: &Config) -> Result<Config, OutOfMemory>
    ensures { IfOk result (λ copy. copy ≡ cfg.now) }
{
    Ok(cfg.clone()?)
}

/// A copy of a command.
pub(crate) fn copy_of_command(command: &Command) -> Result<Command, OutOfMemory>
    ensures { IfOk result (λ copy. copy ≡ command.now) }
{
    Ok(command.clone()?)
}
