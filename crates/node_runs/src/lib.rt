//! What the journals of nodes of any kind make together: a run of the cluster.
//!
//! - [`laws`]: the law of their merge.
#![tactic(auto)]

pub mod laws;
