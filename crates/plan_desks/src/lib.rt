//! What a plan's run begins with beside its nodes: a desk for each client, and the submitters, each with its bodies.
//!
//! - [`begin`]: makes them; [`Begun`] is what it gives, with the [`Taker`] of each desk.
#![tactic(auto)]

mod begun;
mod bodies;
#[cfg(test)]
mod tests;

pub use begun::{Begun, ROOM, Taker, begin};
