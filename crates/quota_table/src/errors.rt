use std::alloc::{AllocError, AllocFailed};
use thiserror::Error;

/// Memory was refused. It is the one answer that no clause ties to a cause.
#[derive(Clone, Copy, Debug, Drop, Error, PartialEq, Eq)]
#[error("out of memory")]
pub struct OutOfMemory;

impl From<AllocError> for OutOfMemory {
    fn from(_: AllocError) -> OutOfMemory {
        OutOfMemory
    }
}

impl<T: Drop> From<AllocFailed<T>> for OutOfMemory {
    fn from(_: AllocFailed<T>) -> OutOfMemory {
        OutOfMemory
    }
}

/// Why a list of rows is no table. The rows are judged in order, and the first fault is the answer.
#[derive(Clone, Copy, Debug, Drop, Error, PartialEq, Eq)]
pub enum TableError {
    /// There is no row.
    #[error("no row")]
    Empty,
    /// There are more than six rows; `n` is their number.
    #[error("{n} rows, at most 6")]
    TooMany { n: usize },
    /// A row's shard is above 5.
    #[error("shard {shard} is above 5")]
    BadShard { shard: u8 },
    /// An earlier row has the same shard.
    #[error("shard {shard} twice")]
    Twice { shard: u8 },
    /// A row's quota is 0 or above 64.
    #[error("quota {quota} of shard {shard} is not 1 to 64")]
    BadQuota { shard: u8, quota: u32 },
}
