//! A client: it keeps what was submitted to it, sends it to its home's primary until it is acknowledged, and moves to
//! another shard once its home is gone.
//!
//! [`ClientNode`] takes the steps of `specs/Steps.antt`, exactly. `specs/Restart.antt` says what a vault's items alone
//! give. The laws of a client's life stand in [`laws`].
#![tactic(auto)]

pub mod laws;
mod node;
mod restart;
mod rules;
mod sends;
mod state;
mod steps;
#[cfg(test)]
mod tests;
mod worked;

pub use node::{ClientNode, ReadClient};
pub use state::ClientOwn;
pub use worked::worked_compute;
