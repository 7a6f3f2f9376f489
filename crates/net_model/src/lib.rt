//! What is said of a run of the cluster, whatever made it.
//!
//! - [`HistoryEntry`], [`History`]: one step of one node as it is seen from outside, and a run as the list of its steps.
//! - [`EntryRef`]: an entry as it is read in a history.
//! - [`NodeModel`]: a node as it is run, by a step table.
//! - [`Viewed`]: a node of which there is a view, if it is a consumer; [`View`]: what it shows.
//! - [`Stamped`], [`Journal`], [`merge`]: what a node wrote of its own steps, and the histories of several nodes in one.
//! - [`laws`]: when a merge follows the step tables.
#![tactic(auto)]

mod columns;
mod entry_ref;
mod history;
mod journal;
pub mod laws;
mod merges;
mod model;
mod steps;
mod viewed;

pub use entry_ref::EntryRef;
pub use history::{History, HistoryEntry};
pub use journal::{Journal, Stamped, nodes_are_distinct};
pub use merges::merge;
pub use model::NodeModel;
pub use viewed::{View, Viewed};

#[cfg(test)]
mod tests;
