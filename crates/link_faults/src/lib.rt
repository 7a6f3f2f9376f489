//! The faults of a link: what becomes of each message that is sent, by a plan and a word of the link's own.
//!
//! - [`FaultPlan`]: how many of a hundred messages are lost, sent twice, held back or cut. [`Fate`], [`fate_of`]: what a word says.
//! - [`LinkFaults`]: the words of one link and the message that is held. [`LinkFaults::send`] does what the next word says;
//!   [`LinkFaults::release`] queues what is held.
#![tactic(auto)]

mod fate;
mod faults;
mod plan;
#[cfg(test)]
mod tests;

pub use fate::{Fate, fate_of};
pub use faults::LinkFaults;
pub use plan::FaultPlan;
