//! The nodes, readers and submitters of a plan, run as threads.
//!
//! - [`run_cluster`]: runs a plan. [`RunRecord`]: the history of its nodes, what its readers kept, and whether it is quiet; [`RunError`]: why
//!   there is none.
#![tactic(auto)]

mod apart;
mod closing;
mod errors;
mod openings;
mod ready;
mod record;
mod run;
mod running;
mod seating;
mod stopped;
#[cfg(test)]
mod tests;
mod working;

pub use errors::RunError;
pub use record::RunRecord;
pub use run::run_cluster;
