//! What takes applied records back: one undo for each position that may still be cut off.
//!
//! [`UndoPoints::back_to`] brings an application to the state that stood before a position.
//! Only [`UndoPoints::with_room`] takes memory, so going back never stops for want of it.
#![tactic(auto)]

mod points;
#[cfg(test)]
mod tests;

pub use points::UndoPoints;
