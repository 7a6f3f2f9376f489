//! A pool of fixed blocks: all its memory is taken once, and its calls take none.
//!
//! - [`RecordPool`]: a map from references to bytes, which lie in chains of blocks, and a chain of free blocks.
//! - [`PoolRef`]: names bytes in the pool that gave it. It can't be copied: giving it back uses it up.
//! - [`NoRoom`]: more blocks are needed than are free.
#![tactic(auto)]

mod chains;
mod no_room;
mod pool;
mod reference;
#[cfg(test)]
mod tests;

pub use chains::BLOCK;
pub use no_room::NoRoom;
pub use pool::RecordPool;
pub use reference::PoolRef;
