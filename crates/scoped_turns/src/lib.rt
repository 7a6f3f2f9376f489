//! Actors that take turns beside one another, each in a thread of its own, whatever they are.
//!
//! - [`TakesTurns`]: what an actor does in its turns, and what is then so between what went in and what came back.
//! - [`episode`]: three lists of actors take so many turns each, every actor in a thread of one scope, and come back in their order.
//!
//! An actor owns all that it needs; what the actors share is one environment, by reference. None is ever lost: where memory is
//! wanted none has begun, and where a thread is refused the actor takes its turns on the calling thread.
#![tactic(auto)]

mod episodes;
mod room;
mod started;
mod takes_turns;
#[cfg(test)]
mod tests;

pub use episodes::episode;
pub use takes_turns::TakesTurns;
