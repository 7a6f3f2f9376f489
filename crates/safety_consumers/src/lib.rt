//! What every run's consumers hold: what they apply and confirm are the records of the first positions, in order, and their output is that of what
//! they confirm; and that speculation happens: what is handed in order is applied, and what is durable is promised.
//!
//! - [`laws`]: what is shown of every run so far.
#![tactic(auto)]

pub mod laws;
