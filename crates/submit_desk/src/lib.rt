//! Desks: where submitters put items for one taker, each from a thread of its own.
//!
//! - [`Desk`]: a queue with room for a fixed number of items, shared by `&`.
//! - [`DeskPass`]: the leave to use a desk. The one that a new desk comes with takes; [`Desk::split`] makes one of it for a
//!   submitter, and [`Desk::join`] gives that back.
//! - [`DeskItem`], [`Full`]: what is submitted, and the answer that gives it back.
//!
//! What passes know, and what is known of them together, stands in `specs/Passes.antt` and `specs/Rule.antt`.
#![tactic(auto)]

mod desk;
mod item;
mod knows;
mod pass;
mod rule;
#[cfg(test)]
mod tests;

pub use desk::Desk;
pub use item::{DeskItem, Full};
pub use knows::{Closed, Knows};
pub use pass::DeskPass;
