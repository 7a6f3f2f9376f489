/// A position that a shard's local has in a window that is known.
#[derive(Clone, Copy, Debug, PartialEq, Eq)]
pub struct Lease {
    /// The number of the window.
    pub window: u32,
    /// The position, below 2^48.
    pub position: u64,
}
