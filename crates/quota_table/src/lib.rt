//! The values that every crate of the log stands on: want of memory, bytes, lists, and the tables of quotas.
//!
//! - [`OutOfMemory`], [`Bytes`], [`Listed`], [`Few`]: the one free error, a list of bytes, a list of anything, and one of a few.
//! - [`Row`], [`Table`], [`check`], [`sum`], [`offset`]: the rows of a window, valid by construction.
//! - [`Entry`]: what the sequencers agree on, one for each slot.
#![tactic(auto)]

mod bytes;
mod entry;
mod errors;
mod few;
mod listed;
mod rows;
mod table;
#[cfg(test)]
mod tests;

pub use bytes::Bytes;
pub use entry::Entry;
pub use errors::{OutOfMemory, TableError};
pub use few::Few;
pub use listed::Listed;
pub use rows::{Asked, Row};
pub use table::{Table, check, offset, sum};
