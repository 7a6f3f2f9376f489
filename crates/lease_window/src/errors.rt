use thiserror::Error;

/// Why an entry was not learned.
#[derive(Clone, Copy, Debug, Drop, Error, PartialEq, Eq)]
pub enum LearnError {
    /// The slot is past the next one.
    #[error("a gap: slot {expected} is expected")]
    Gap {
        /// The slot that is next.
        expected: u32,
    },
    /// The entry of the slot is known.
    #[error("old: {count} entries are known")]
    Old {
        /// How many entries are known.
        count: u32,
    },
    /// Memory was refused.
    #[error("out of memory")]
    OutOfMemory,
}
