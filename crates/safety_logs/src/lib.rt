//! What every run's logs hold: a backup's log begins its primary's, accepted cuts are true, and what is told, covered, durable, delivered or
//! confirmed stands in the log that counts.
//!
//! - [`laws`]: what is shown of every run so far.
#![tactic(auto)]

pub mod laws;
