use quota_table::Bytes;

/// What a disk in memory keeps of a call that changed it.
#[derive(Clone, Debug, Drop, PartialEq)]
pub enum DiskCall {
    /// Bytes were written from an offset on.
    Write {
        /// The offset.
        at: u64,
        /// The bytes.
        bytes: Bytes,
    },
    /// All that was written before is on the disk.
    Sync,
}
