//! A vault: a file of entries on a disk. Once an entry is acknowledged, every crash leaves it.
//!
//! - [`Vault`]: made by [`Vault::format`] or [`Vault::load`], which gives its [`Entries`]; [`Vault::append`] adds one;
//!   [`VaultError`]. [`stands_for_one`] and [`never_refused`] hold of every file.
//! - The file is the head BELVAULT, and then frames: a gate of one byte, the length in two bytes, the entry. A gate of
//!   01 is open. Any other byte, and the end of the file, is closed and ends the list.
#![tactic(auto)]

mod errors;
mod frame;
mod frame_start;
mod laws;
mod load;
mod put;
mod start;
#[cfg(test)]
mod tests;
mod twice;
mod vault;

pub use errors::VaultError;
pub use laws::{never_refused, stands_for_one};
pub use load::Entries;
pub use vault::Vault;
