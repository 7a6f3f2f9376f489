use quota_table::OutOfMemory;
use thiserror::Error;

/// Why a script isn't played to its end. Places of inputs count from 0.
#[derive(Clone, Copy, Debug, Drop, Error, PartialEq, Eq)]
pub enum PlayError {
    /// A message is to be delivered or given up that was not sent yet.
    #[error("no message {number}, sent {sent}")]
    NoMessage {
        /// The place of the input.
        at: usize,
        /// The message that it names.
        number: u64,
        /// How many messages were sent before it.
        sent: u64,
    },
    /// The input would bring the entries past 200,000.
    #[error("too many entries")]
    TooLong {
        /// The place of the input.
        at: usize,
    },
    /// Memory was refused.
    #[error("out of memory")]
    OutOfMemory,
}

impl From<OutOfMemory> for PlayError {
    ghost use Rattle.std.specs.Prelude.{◌≡◌};
    ghost use Rattle.world.specs.declared.errors.PlayError.TheVariants.{OutOfMemory as no_memory};

    ghost from_gives = { λ _ e. e ≡ no_memory };

    fn from(_: OutOfMemory) -> PlayError {
        PlayError::OutOfMemory
    }
}
