//! Lagging rows: which shards of a window are short of a round's end, and whether a round is worth a cut.
//!
//! - [`lagging`]: each row that is short, in order, with the length that it wants: it fills up with no-op records.
//! - [`uncovered`]: whether some row is past the round's begin, so that the round has a record to cover.
#![tactic(auto)]

mod lags;
#[cfg(test)]
mod tests;
mod wanted;

pub use lags::{lagging, uncovered};
pub use wanted::{Lagging, Wanted};
