//! The users of a cluster that runs in threads: submitters, which put bodies on the clients' desks, and readers, which look at the
//! consumers' views. Both take turns beside the nodes.
//!
//! - [`Environment`]: what all actors of an episode share. [`Gate`]: what an actor passes before each of its turns; [`Actor`] names it.
//! - [`Submitter`]: submits the bodies that it has, in order, one a turn, and keeps those for which the desk has no room.
//! - [`Reader`]: looks once a turn, and keeps the looks that show something new; [`Looks`] is what it kept.
#![tactic(auto)]

mod gate;
mod looks;
mod notes;
mod reader;
mod submitter;
#[cfg(test)]
mod tests;

pub use gate::{Actor, Environment, Gate, Open};
pub use looks::{LookList, Looks};
pub use reader::Reader;
pub use submitter::Submitter;
