//! Every entry that a node of a run knows is chosen: the pass of the safety proof that is about sequencers, one slot after the other.
//!
//! - [`laws`]: the clauses that are shown of every run so far.
#![tactic(auto)]

pub mod laws;
