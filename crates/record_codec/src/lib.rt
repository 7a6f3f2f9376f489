//! Records: what clients submit, what shards keep and consumers apply.
//!
//! - [`Record`], [`Body`], [`Log`]: a record, its bytes, a list of records.
//! - [`Output`], [`Shown`]: what an application writes for a record, and what it shows of its state.
//! - [`AppKind`]: which application a cluster's consumers run.
#![tactic(auto)]

mod app_kind;
mod body;
mod codec;
pub mod decimal;
mod errors;
pub mod fields;
pub mod laws;
mod record;
mod text;

pub use app_kind::AppKind;
pub use body::{Body, IN_PLACE, MOST_BODY};
pub use codec::{MOST_NUMBER, decode, encode, put_record};
pub use errors::{BodyError, DecodeError};
pub use record::{Log, Record};
pub use text::{MOST_OUTPUT, MOST_SHOWN, Output, ShortText, Shown};

#[cfg(test)]
mod tests;
