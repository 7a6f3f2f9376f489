//! The outside of the log, and the names of its nodes.
//!
//! - [`Source`], [`Sink`]: where bytes come from and where they go, with counts of faults; [`Stop`], what a call
//!   answers in place of Ok. [`MemSource`] and [`MemSink`] are in memory, [`StdSource`] and [`StdSink`] over std.
//! - [`Disk`]: a file read and written at offsets, and what a crash may leave of it; [`Shelf`]: disks by name.
//!   [`MemDisk`], which keeps each [`DiskCall`], and [`MemShelf`], with its [`DiskFail`]s, are in memory.
//! - [`NodeId`], [`Side`]: who takes part. Their order is: sequencers by number, shards by number with the primary
//!   first, clients, consumers.
#![tactic(auto)]

mod copying;
mod disk;
mod disk_call;
mod mem_disk;
mod mem_shelf;
mod mem_sink;
mod mem_source;
mod node;
mod plan;
mod shelf;
mod sink;
mod source;
mod spelling;
mod std_sink;
mod std_source;
mod std_stream;
mod stop;
#[cfg(test)]
mod tests;

pub use disk::Disk;
pub use disk_call::DiskCall;
pub use mem_disk::MemDisk;
pub use mem_shelf::{DiskFail, MemShelf};
pub use mem_sink::MemSink;
pub use mem_source::MemSource;
pub use node::{NodeId, Side};
pub use shelf::Shelf;
pub use sink::Sink;
pub use source::Source;
pub use spelling::{NodeName, spell, unspell};
pub use std_sink::StdSink;
pub use std_source::StdSource;
pub use std_stream::StdStream;
pub use stop::Stop;
