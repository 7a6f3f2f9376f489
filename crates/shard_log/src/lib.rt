//! A shard's log: its records in order of local, and the answers to what is appended.
//!
//! - [`ShardLog`]: a list of records that only grows at its end. Every answer is a function of that list alone.
//! - [`Appended`], [`Grown`]: what became of a client's record, and of a record meant for one local.
//! - [`log_laws`]: what holds of every log, whatever calls made it.
#![tactic(auto)]

mod answers;
mod index;
mod laws;
mod log;
#[cfg(test)]
mod tests;

pub use answers::{Appended, Grown};
pub use laws::log_laws;
pub use log::ShardLog;
