//! Where the frames of the links between nodes come from, and so what the nodes' journals make together.
//!
//! - [`laws`]: a node's links carry what its steps sent; what is delivered was sent before.
#![tactic(auto)]

pub mod laws;
