//! What submitters and readers do, turn by turn, and beside one another.

mod beside;
mod reading;
mod submitting;
