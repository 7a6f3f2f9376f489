//! The applications that a consumer runs over the log.
//!
//! - [`App`]: what each of them offers. Its ghost members are its meaning, over a state and a record.
//! - [`Tally`] adds numbers up, [`Bank`] moves money between accounts, [`Kv`] keeps values under keys.
//! - [`AnyApp`] is one of these, by the kind that a cluster runs.
//!
//! No call takes memory. `fold_of`, `outputs_of` and `shown_after` give the state, the output and the shown text after a log.
#![tactic(auto)]

mod any_app;
mod app;
mod bank;
mod bank_order;
mod decimal;
mod kv;
mod kv_order;
mod tally;
#[cfg(test)]
mod tests;
mod words;

pub use any_app::{AnyApp, AnyUndo};
pub use app::App;
pub use bank::Bank;
pub use kv::{Kv, KvUndo};
pub use tally::Tally;
