//! The report of a history, and the summary of a run.
//!
//! - [`report`]: what a history shows, line by line, as bytes.
//! - [`summary`]: what a run came to in all, in a few lines.
//! - `specs/Report.antt`: `report_of`, what a report says as a function of a cluster and a history. `specs/Summary.antt`: `summary_of`.
#![tactic(auto)]

mod by_number;
mod clients;
mod consumer_lines;
mod consumers;
mod gathered;
mod positions;
mod reporting;
mod slots;
mod summary_lines;
mod summing;
mod text;

pub use reporting::report;
pub use summing::summary;
pub use worked::worked_compute;

#[cfg(test)]
mod tests;
mod worked;
