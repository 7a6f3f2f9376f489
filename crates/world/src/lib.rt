//! A cluster as it is played: the history that a script's inputs make, which is a run.
//!
//! - `specs/Playing.antt`: that history. [`play`] makes it, over nodes of any kind ([`AnyNode`]); [`PlayError`] says why an
//!   input is refused.
//! - [`laws`]: every run of a valid cluster is safe, its cuts are true, and it is eager.
//! - [`first_scripts`]: what is shown of the definition on small scripts.
#![tactic(auto)]

mod any_node;
mod cluster;
mod copies;
mod errors;
pub mod first_scripts;
mod outbox;
mod player;
mod safety;
mod scripts;

pub use any_node::AnyNode;
pub use errors::PlayError;
pub use safety::laws;
pub use scripts::play;

#[cfg(test)]
mod tests;
