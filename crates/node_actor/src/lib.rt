//! A node as it takes turns: its core, its vault, its links, its journal.
//!
//! - [`NodeCore`]: a node of any type that is a `NodeModel`, with its vault, its journal and the faults of its links. Each of its
//!   calls is one step: it is stored, then sent, then noted. [`Store`]: where it stores; [`Stopped`]: why it stops.
//! - [`NodeActor`]: a core with the ends of its links, which takes turns; [`is_tick_due`]: which of them are ticks.
#![tactic(auto)]

mod actor;
mod links;
mod node_core;
mod noting;
mod reading;
mod sending;
mod settling;
mod stopped;
mod store;
mod taken;
#[cfg(test)]
mod tests;

pub use actor::{NodeActor, is_tick_due};
pub use node_core::NodeCore;
pub use settling::settle_between;
pub use stopped::Stopped;
pub use store::Store;
pub use taken::Taken;
