//! The nodes of a run at its begin: each with its vault and its links.
//!
//! - [`blanks`]: the nodes before they have a vault and links. It takes all the memory that their start needs.
//! - [`seat_all`]: each of them with its vault and its links, which can't fail.
//! - [`toys`]: nodes for tests.
#![tactic(auto)]

mod blank;
mod seating;
#[cfg(test)]
mod tests;
pub mod toys;

pub use blank::{Blank, blanks};
pub use seating::seat_all;
