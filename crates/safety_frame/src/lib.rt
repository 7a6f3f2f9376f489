//! The frame of the proof that every run is safe: what holds of every run of a valid cluster by its step tables alone, and one induction
//! over a run for each form of clause, of which the passes above are instances.
//!
//! - [`laws`]: what is shown of every run so far.
#![tactic(auto)]

pub mod laws;
