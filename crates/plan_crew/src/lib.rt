//! The crew of a plan as a run begins: each node with its desk or its view, the readers and the submitters.
//!
//! - [`begin_crew`]: joins them, in room that is there ([`Room`]).
#![tactic(auto)]

mod begun;
mod members;
mod room;
mod sides;

pub use begun::begin_crew;
pub use room::Room;
