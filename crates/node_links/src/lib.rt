//! Links: each carries frames from one thread to one other, in order.
//!
//! - [`Frame`]: a stamp and bytes.
//! - [`pair`]: a link as its two ends. [`LinkOut`] queues frames and pushes what the ring has room for; [`LinkIn`] pulls them.
//!   Each end owns what it needs, so it moves into a thread and comes back by value.
//! - [`settle`]: with both ends in one thread again, brings all that was queued to the receiving end.
#![tactic(auto)]

mod frame;
mod link;
mod link_in;
mod link_out;
#[cfg(test)]
mod tests;

pub use frame::Frame;
pub use link::{pair, settle};
pub use link_in::LinkIn;
pub use link_out::LinkOut;
