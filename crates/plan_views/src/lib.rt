//! The views that a plan's run begins with: one for each consumer, with the readers that look at it.
//!
//! - [`begin_views`]: makes them; [`BegunViews`] is what it gives, the publishing ends and the readers.
#![tactic(auto)]

mod begun;
mod counts;
#[cfg(test)]
mod tests;

pub use begun::{BegunViews, begin_views};
