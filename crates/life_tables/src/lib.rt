//! Lives of nodes as texts, for the tests of the crates above: what comes to a node, and behind it what its step gives.
//!
//! - [`Cluster`], [`clusters`]: a cluster in short, the clusters of the tests, and the [`msg_wire::Config`] that each is.
//! - [`Life`], [`Lives`], [`lived`]: the life of a node as a text, what lives so, and the text that a node makes of a life.
//! - [`agreed`]: parts that several lives share.
//! - [`event`], [`said`], [`words`]: the event that a line says, what a message says, and how their words are read.
//! - [`tell_step`], [`tell_node`]: what a step gives, and the name of a node.
#![tactic(auto)]

pub mod agreed;
mod cluster;
pub mod clusters;
mod events;
mod lives;
mod messages;
mod telling;
pub mod words;

pub use cluster::Cluster;
pub use events::event;
pub use lives::{Life, Lives, lived};
pub use messages::said;
pub use telling::{tell_node, tell_step};
