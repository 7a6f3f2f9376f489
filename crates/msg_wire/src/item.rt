use quota_table::{Entry, Listed};
use record_codec::{Body, Output, Record};

/// The items of one vault entry, or of a whole vault, in the order in which they were stored.
pub type Items = Listed<Item>;

/// One fact that a node keeps over a restart. Slots are below 1,000,000 and ballots below 2^31.
#[derive(Clone, Debug, Drop, PartialEq)]
pub enum Item {
    /// A sequencer promised this ballot.
    Promised {
        slot: u32,
        ballot: u32,
    },
    /// A sequencer accepted this entry.
    Accepted {
        slot: u32,
        ballot: u32,
        entry: Entry,
    },
    /// A node learned the entry of the slot that is next.
    Known {
        entry: Entry,
    },
    /// A replica took this record at the local that is next.
    Taken {
        rec: Record,
    },
    /// A replica filled its log up.
    Noops {
        /// How many no-op records were put at the end, 1 to 64.
        count: u8,
    },
    /// A client was given this body.
    Submitted {
        body: Body,
    },
    /// A client's number that is next was acknowledged.
    Acked,
    /// A client left its home.
    Moved {
        /// The new home, 0 to 5.
        shard: u8,
        /// The first number that the client sends there, at most 2^48.
        first: u64,
    },
    /// A consumer confirmed the record of the position that is next.
    Confirmed {
        rec: Record,
        /// What the application wrote for it.
        output: Output,
    },
}
