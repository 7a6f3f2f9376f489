//! Vaults on the disks of a shelf, one for each of several nodes, named by the nodes.
//!
//! - [`format_all`]: an empty vault for each node, or the first that can't be had.
//! - [`give_back`]: their disks lie on the shelf again.
#![tactic(auto)]

mod errors;
mod shelf;
#[cfg(test)]
mod tests;

pub use errors::ShelfError;
pub use shelf::{format_all, give_back};
