use thiserror::Error;

/// More blocks are needed than are free.
#[derive(Clone, Copy, Debug, Drop, Error, PartialEq, Eq)]
#[error("{need} blocks needed, {free} free")]
pub struct NoRoom {
    /// How many blocks are free.
    pub free: u32,
    /// How many blocks the bytes need; above `free`.
    pub need: u64,
}
