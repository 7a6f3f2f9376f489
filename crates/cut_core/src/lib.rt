//! The agreed fold: what a list of agreed entries leaves as windows, covered rounds and shards that are gone.
//!
//! - [`Agreed`]: the state after the entries so far. It answers for every covered position from the windows alone.
//! - [`Effect`], [`Reason`]: what an entry did, and why it is void where it did nothing.
//! - `specs/Fold.antt`: the state after a list of entries, with the map of positions to owners.
#![tactic(auto)]

mod agreed;
mod effects;
mod gone;
pub mod laws;
mod past;
#[cfg(test)]
mod tests;

pub use agreed::Agreed;
pub use effects::{Effect, Reason};
