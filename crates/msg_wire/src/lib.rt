//! What nodes tell one another, store and take: messages, items, events, and the lists of them.
//!
//! - [`Config`], [`Plan`], [`Input`]: a cluster, a threaded run of it, one input of a script.
//! - [`Message`], [`What`], [`Item`]: what a node sends, and what its vault keeps.
//! - [`Event`], [`Command`], [`Mark`], [`Step`]: what a step takes, and what it gives.
//! - [`is_heeded`], [`is_node_of`], [`number_of`], [`same_node`]: which messages a node takes, and tests of nodes.
//! - [`encode`], [`decode`], [`encode_items`], [`decode_items`]: messages and items as bytes.
#![tactic(auto)]

mod config;
mod errors;
mod event;
mod heeding;
mod input;
mod item;
mod item_reading;
pub mod laws;
mod mark;
mod message;
mod message_reading;
mod numbers;
mod parts;
mod plan;
mod step;
mod writing;

pub use config::{Config, Homes};
pub use errors::WireError;
pub use event::{Command, Event};
pub use heeding::{is_heeded, is_node_of, number_of, same_node};
pub use input::{Input, Inputs};
pub use item::{Item, Items};
pub use item_reading::decode_items;
pub use mark::{Mark, Marks};
pub use message::{Message, Messages, What};
pub use message_reading::decode;
pub use plan::{Plan, PlanLine, PlanLines};
pub use step::Step;
pub use writing::{encode, encode_items};

#[cfg(test)]
mod tests;
