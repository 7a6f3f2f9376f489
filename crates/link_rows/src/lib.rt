//! The links between several nodes: of each ordered pair one.
//!
//! - [`links_between`]: the ends, a row of sending ends and a row of receiving ends for each node.
#![tactic(auto)]

mod rows;
#[cfg(test)]
mod tests;

pub use rows::{CAPACITY, InRow, OutRow, links_between};
