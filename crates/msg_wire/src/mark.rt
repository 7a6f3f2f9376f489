use quota_table::{Bytes, Listed};
use record_codec::Record;

/// The marks of one step, in order.
pub type Marks = Listed<Mark>;

/// What a step shows to those who watch the cluster. Positions and numbers are at most 2^48.
#[derive(Clone, Debug, Drop, PartialEq)]
pub enum Mark {
    /// A consumer applied a record.
    Apply {
        /// The record's position in the log.
        position: u64,
        rec: Record,
    },
    /// A consumer went back.
    Undo {
        /// The first position that it no longer has.
        first: u64,
    },
    /// A replica or a consumer knows that a record stands at a position for good.
    Confirm {
        /// The record's position in the log.
        position: u64,
        rec: Record,
    },
    /// A consumer let output go out.
    Out {
        bytes: Bytes,
    },
    /// A node learned that a shard was removed.
    Notice {
        /// The first position whose speculation failed.
        first: u64,
    },
    /// A primary told a record's position before it was agreed.
    Promise {
        /// The record's position in the log.
        position: u64,
        rec: Record,
    },
    /// A client learned that its record is covered.
    Ack {
        /// The number of the client's record.
        number: u64,
        /// The record's position in the log.
        position: u64,
    },
}
