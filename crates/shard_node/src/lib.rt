//! A replica of a shard: its state, its step table, and the node that is proved to make these steps.
//!
//! - [`ShardNode`]: `new`, `restart`, `step` and readers. Each step is the turn that `replica_step` of
//!   `specs/Steps.antt` gives.
//! - [`laws`]: what holds of every life of valid events.
#![tactic(auto)]

pub mod laws;
mod learning;
mod logs;
mod node;
mod promises;
mod puts;
mod restart;
mod rules;
mod state;
mod steps;
#[cfg(test)]
mod tests;
mod worked;

pub use node::{ReadReplica, ShardNode};
pub use state::ReplicaState;
pub use worked::worked_compute;
