//! What every run's clients hold: each submission has one place, at one home after the other, and what clients are told of it is true.
//!
//! - [`laws`]: what is shown of every run so far.
#![tactic(auto)]

pub mod laws;
