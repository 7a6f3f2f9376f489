//! Failed positions: what the removal of a shard changes, and how far a consumer goes back.
//!
//! - [`first_failed`]: the least position that has another owner after the removal.
//! - [`surviving`]: how much of what was applied stays.
//! - [`remap`]: who had a position, and who has it now.
#![tactic(auto)]

mod moved;
mod removals;
#[cfg(test)]
mod tests;

pub use moved::Moved;
pub use removals::{first_failed, remap, surviving};
