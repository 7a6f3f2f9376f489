use crate::message::Message;
use quota_table::Table;
use record_codec::Body;

/// What one step of a node takes.
#[derive(Clone, Debug, Drop, PartialEq)]
pub enum Event {
    /// A client is given a body.
    Submit {
        /// The submitter's number, 0 to 7; 0 in a script.
        by: u8,
        body: Body,
    },
    /// A message comes.
    Deliver(Message),
    /// Time passes.
    Tick,
    /// The node comes back with what its vault keeps.
    Restart,
    /// A sequencer is told what to propose.
    Command(Command),
}

/// What a sequencer can be told to propose.
#[derive(Clone, Debug, Drop, PartialEq)]
pub enum Command {
    /// A further window.
    Table {
        /// Rounds, 1 to 1,024.
        rounds: u16,
        rows: Table,
    },
    /// That a shard leaves.
    Remove {
        /// The shard's number, 0 to 5.
        shard: u8,
    },
}
