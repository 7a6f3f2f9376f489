//! Positions fixed in advance: a window gives each of its shards a quota of every round.
//!
//! - [`Window`], [`Spot`]: rounds, rows and starts; a window is valid by construction.
//! - [`place`], [`owner`]: the position of a shard's local, and who has a position. They are inverse.
//! - [`first`], [`next`], [`without`]: the first window, the one that follows, and the one that a removal leaves.
#![tactic(auto)]

mod positions;
mod spots;
#[cfg(test)]
mod tests;
mod window;

pub use positions::{owner, place};
pub use spots::{Owner, Spot};
pub use window::{MOST_BASE, MOST_ROUNDS, Window, first, next, without};
