//! A consumer's view, which readers look at beside it: one publisher, and readers that wait for nobody.
//!
//! - [`view`]: makes the two kinds of ends, which may go into threads.
//! - [`Publisher`]: publishes looks, whose numbers rise, and tells what it published last.
//! - [`ReaderPass`]: looks, and learns what was told. Its looks never go back.
//! - [`Look`], [`Told`]: what is published, and a note of it.
//! - [`laws`]: what follows of the lists that the ends have seen.
#![tactic(auto)]

mod absorb;
mod cell;
mod history;
pub mod laws;
mod look;
mod opened;
mod pass;
mod published;
mod publisher;
#[cfg(test)]
mod tests;

pub use look::Look;
pub use opened::{ReaderPasses, view};
pub use pass::ReaderPass;
pub use publisher::{Publisher, Told};
