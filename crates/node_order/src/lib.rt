//! The nodes of a cluster in their order: sequencers, replicas by shard with the primary first, clients, consumers.
//!
//! - [`nodes_in_order`]: their names.
//! - [`rank_of`]: where a node stands among them.
#![tactic(auto)]

mod order;
#[cfg(test)]
mod tests;

pub use order::{nodes_in_order, rank_of};
