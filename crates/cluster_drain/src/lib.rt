//! The end of a run: all that nodes sent is taken, on the calling thread.
//!
//! - [`drain`]: all frames, and then so many rounds of ticks and frames, with at most so many inputs. [`Drained`]: what came of it.
//! - [`settle_all`]: all that was queued lies at the receivers' ends.
#![tactic(auto)]

mod drained;
mod draining;
mod links;
mod settling;
#[cfg(test)]
mod tests;

pub use drained::{Drained, Early};
pub use draining::drain;
pub use settling::settle_all;
