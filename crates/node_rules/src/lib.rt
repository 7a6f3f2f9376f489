//! What every kind of node shares: what it has, what a step gathers, and the rules of every node.
//!
//! - [`NodeBase`]: the cluster, the node's name, the known entries and what they agree on.
//! - [`Node`]: a base with what the kind of node has of its own; its methods are the rules of `specs/Rules.antt`.
//! - [`Learns`], [`Hears`], [`Kind`]: what a kind of node gives, its step table among it.
//! - [`Living`]: a node of any kind, as it begins, comes back and takes its steps.
//!
//! The crates of the four kinds of node compose their steps of these rules.
#![tactic(auto)]

mod base;
mod hearing;
mod kind;
mod learning;
mod living;
mod node;
mod sends;

pub use base::{MOST_ENTRIES, MOST_TICKS, NodeBase};
pub use hearing::Hears;
pub use kind::Kind;
pub use learning::Learns;
pub use living::Living;
pub use node::{Done, Node};
