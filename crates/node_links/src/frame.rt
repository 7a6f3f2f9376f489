use quota_table::Bytes;

/// What a link carries.
#[derive(Clone, Debug, Drop, PartialEq)]
pub struct Frame {
    /// The sender's stamp of the turn in which the frame was queued.
    pub stamp: u64,
    /// A message as bytes, whole or cut short.
    pub bytes: Bytes,
}
