//! The records that were delivered before their turn, by shard and local.
//!
//! [`Buffer::put`] keeps a record within its shard's reach, [`Buffer::at`] gives it,
//! and [`Buffer::raise`] and [`Buffer::close`] drop what is no longer wanted.
#![tactic(auto)]

mod buffer;
mod lane;
mod put;
#[cfg(test)]
mod tests;

pub use buffer::Buffer;
pub use lane::REACH;
pub use put::Put;
