ghost use Rattle.std.specs.Prelude.{◌≡◌};

use quota_table::{Entry, Listed};
use record_codec::{Body, Record};
use spec_base::NodeId;
use std::alloc::AllocError;

/// Messages in the order in which they were sent.
pub type Messages = Listed<Message>;

/// One message from a node to another.
#[derive(Clone, Debug, Drop, PartialEq)]
pub struct Message {
    pub from: NodeId,
    pub to: NodeId,
    pub what: What,
}

/// What a message says. Slots are below 1,000,000 and ballots below 2^31; locals, numbers, lengths and positions are
/// at most 2^48. Each kind names who sends it to whom.
#[derive(Debug, Drop, PartialEq)]
pub enum What {
    /// A client to its home's primary: take this body.
    Append {
        /// The first number that the client sends to this shard.
        first: u64,
        /// How many bodies the client submitted before this one.
        number: u64,
        body: Body,
    },
    /// A replica to a client: its record is covered.
    Ack {
        /// The number of the client's record.
        number: u64,
        /// The record's position in the log.
        position: u64,
    },
    /// A client to the replicas of a home that is gone: what became of my records?
    AskFate {
        /// The first number that the client sent to this shard.
        first: u64,
        /// The least number that the client has no answer for.
        least: u64,
    },
    /// A replica to a client: this number and all that follow were not covered by this shard.
    Fate {
        /// The client's next number.
        next: u64,
    },
    /// A primary to its backup: keep this record.
    Replicate {
        /// The record's place in the shard's own log.
        local: u64,
        rec: Record,
    },
    /// A backup to its primary: how many records it keeps.
    Replicated {
        /// Length of the backup's log, in records.
        len: u64,
    },
    /// A replica to a sequencer: how many records it keeps.
    Report {
        /// Length of the replica's log, in records.
        len: u64,
    },
    /// A sequencer to a primary that lags: fill your log up.
    Fill {
        /// The length that is wanted, in records.
        wanted: u64,
    },
    /// A replica to a consumer: a record whose position may be known.
    Deliver {
        /// The record's place in the shard's own log.
        local: u64,
        rec: Record,
    },
    /// A consumer to a replica: deliver this record.
    Fetch {
        /// The place in the shard's own log.
        local: u64,
    },
    /// A sequencer to another: promise to accept nothing below this ballot.
    Prepare {
        slot: u32,
        ballot: u32,
    },
    /// The answer to a prepare.
    Promise {
        slot: u32,
        ballot: u32,
        /// The last entry accepted in this slot, after its ballot; None where there is none.
        accepted: Option<(u32, Entry)>,
    },
    /// A sequencer to another: accept this entry.
    Accept {
        slot: u32,
        ballot: u32,
        entry: Entry,
    },
    /// The answer to an accept.
    Accepted {
        slot: u32,
        ballot: u32,
    },
    /// A sequencer to any node: what is agreed in this slot.
    Decided {
        slot: u32,
        /// How many slots the sender knows, 1 to 1,000,000.
        count: u32,
        entry: Entry,
    },
    /// Any node to a sequencer: what is agreed in this slot?
    Learn {
        slot: u32,
    },
}

// Written out so that it can be marked: where a node sends what it has just made, its kind is known, and a clone is then
// a few moves.
impl Clone for What {
    ghost is_clone = { λ a b. b ≡ a };

    #[inline(always)]
    fn clone(&self) -> Result<What, AllocError> {
        Ok(match *self {
            What::Append {
                first,
                number,
                ref body,
            } => What::Append {
                first,
                number,
                body: body.clone()?,
            },
            What::Ack { number, position } => What::Ack { number, position },
            What::AskFate { first, least } => What::AskFate { first, least },
            What::Fate { next } => What::Fate { next },
            What::Replicate { local, ref rec } => What::Replicate {
                local,
                rec: rec.clone()?,
            },
            What::Replicated { len } => What::Replicated { len },
            What::Report { len } => What::Report { len },
            What::Fill { wanted } => What::Fill { wanted },
            What::Deliver { local, ref rec } => What::Deliver {
                local,
                rec: rec.clone()?,
            },
            What::Fetch { local } => What::Fetch { local },
            What::Prepare { slot, ballot } => What::Prepare { slot, ballot },
            What::Promise {
                slot,
                ballot,
                ref accepted,
            } => What::Promise {
                slot,
                ballot,
                accepted: accepted.clone()?,
            },
            What::Accept {
                slot,
                ballot,
                ref entry,
            } => What::Accept {
                slot,
                ballot,
                entry: entry.clone()?,
            },
            What::Accepted { slot, ballot } => What::Accepted { slot, ballot },
            What::Decided {
                slot,
                count,
                ref entry,
            } => What::Decided {
                slot,
                count,
                entry: entry.clone()?,
            },
            What::Learn { slot } => What::Learn { slot },
        })
    }
}
