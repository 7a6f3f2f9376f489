//! What every run's marks tell: with which notices they are shown, and that no position has two records but for noticed removals.
//!
//! - [`laws`]: what is shown of every run so far.
#![tactic(auto)]

pub mod laws;
