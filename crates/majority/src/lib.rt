//! Agreement on one slot by majority: single-decree Paxos.
//!
//! - [`Acceptor`]: what one replica has promised and accepted for the slot; it outlives a restart.
//! - [`Proposer`]: one attempt of one replica to have a value chosen, at one ballot.
//! - [`recover`]: the values that the journals of a majority of replicas tell, slot after slot.
//!
//! Two values that are chosen for the slot are equal, whatever is lost, repeated, delayed or restarted ([`laws`]).
#![tactic(auto)]

mod acceptor;
mod answers;
mod errors;
mod journal;
pub mod laws;
mod proposer;
mod replicas;
mod report;
#[cfg(test)]
mod tests;

pub use acceptor::Acceptor;
pub use answers::{AcceptAnswer, AcceptedAnswer, PrepareAnswer, PromiseAnswer};
pub use errors::{RecoverError, StartError};
pub use journal::{ValueList, VoteJournal, Votes, recover};
pub use proposer::Proposer;
