//! What records gave and may not be shown yet: one output for each position that is not confirmed.
//!
//! [`OutputGate::release_below`] gives the held outputs in order, [`OutputGate::drop_from`] drops those that were taken back.
//! Only [`OutputGate::with_room`] takes memory.
#![tactic(auto)]

mod gate;
mod kept;
#[cfg(test)]
mod tests;

pub use gate::OutputGate;
pub use kept::{Kept, KeptOut, MOST_KEPT};
