//! A consumer: it holds what is delivered, applies records in the log's order before they are confirmed, takes them back
//! where a removal moves them, and lets output go once a record is confirmed.
//!
//! [`ConsumerNode`] takes the steps of `specs/Steps.antt`, exactly, over any application. `specs/Restart.antt` says what
//! a vault's items alone give. The laws of a consumer's life stand in [`laws`].
#![tactic(auto)]

pub mod laws;
mod node;
mod restart;
mod rules;
mod speculation;
mod state;
mod steps;
#[cfg(test)]
mod tests;
mod worked;

pub use node::{ConsumerNode, ReadConsumer};
pub use state::ConsumerOwn;
pub use worked::worked_compute;
