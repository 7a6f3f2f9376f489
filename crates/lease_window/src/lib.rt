//! The agreed entries that a node knows, and the leases that they give.
//!
//! - [`Known`]: the entries from slot 0 on, learned one after another, and what they agree on.
//! - [`Lease`]: the position that the known windows give to a shard's local, before any cut.
//! - [`LearnError`]: why an entry was not learned.
#![tactic(auto)]

mod errors;
mod known;
mod lease;
#[cfg(test)]
mod tests;

pub use errors::LearnError;
pub use known::Known;
pub use lease::Lease;
