//! Nodes of a run at their seats: what stays of each, what holds of it at each moment, and what follows for all at the end.
//!
//! - [`laws`]: whatever an actor does, it stays at its seat; what seated nodes took was sent, once all their links are settled.
#![tactic(auto)]

pub mod laws;
