use thiserror::Error;

/// Why an attempt does not start. The acceptor is as it was.
#[derive(Clone, Copy, Debug, Drop, Error, PartialEq, Eq)]
pub enum StartError {
    /// The ballot would not be below 2^31.
    #[error("no ballot above {highest}")]
    NoBallot {
        /// The ballot that was to be passed, as it was given.
        highest: u32,
    },
    /// Memory was refused.
    #[error("out of memory")]
    OutOfMemory,
}

/// Why journals tell no values.
#[derive(Clone, Copy, Debug, Drop, Error, PartialEq, Eq)]
pub enum RecoverError {
    /// The journals are those of no majority.
    #[error("no majority: have {have}, need {need}")]
    NoMajority {
        /// The number of journals.
        have: u8,
        /// The least number that is a majority.
        need: u8,
    },
    /// Memory was refused.
    #[error("out of memory")]
    OutOfMemory,
}
