//! A sequencer: its state, its step table, and the node that is proved to make these steps.
//!
//! - [`SeqNode`]: `new`, `restart`, `step` and a reader. Each step is the turn that `sequencer_step` of
//!   `specs/Steps.antt` gives.
//! - [`laws`]: what holds of every life of valid events.
#![tactic(auto)]

mod acceptors;
mod attempts;
mod beginning;
pub mod laws;
mod learning;
mod node;
mod restart;
mod rules;
mod state;
mod steps;
#[cfg(test)]
mod tests;
mod ticks;
mod values;
mod wishes;
mod worked;

pub use acceptors::Acceptors;
pub use node::SeqNode;
pub use state::{SequencerState, SlotAttempt};
pub use wishes::Wishes;
pub use worked::worked_compute;
