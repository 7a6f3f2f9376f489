use crate::acceptors::Acceptors;
use crate::wishes::Wishes;
use majority::Proposer;
use node_rules::Node;
use quota_table::Entry;

/// An attempt of a sequencer to have an entry agreed on.
#[derive(Debug, Drop)]
pub struct SlotAttempt {
    /// The slot of the entry: the next one.
    pub slot: u32,
    /// The attempt, at one ballot.
    pub attempt: Proposer<Entry>,
    /// The entry that was made of the first wish, if there was one.
    pub wished: Option<Entry>,
}

/// What a sequencer has, beside what every node has.
#[derive(Debug, Drop)]
pub struct SequencerState {
    /// The acceptors of the slots from 0 on, up to the last that has one.
    pub acceptors: Acceptors,
    /// The greatest length that each shard's primary reported, at most 2^48.
    pub primaries: [u64; 6],
    /// The greatest length that each shard's backup reported, at most 2^48.
    pub backups: [u64; 6],
    /// What it was told to propose, at most 16 commands, the oldest first.
    pub wishes: Wishes,
    /// The attempt that stands, at most one.
    pub attempt: Option<SlotAttempt>,
    /// Ticks since something happened, at most 255.
    pub idle: u8,
}

/// A sequencer: a node with the state of its kind.
pub(crate) type Sequencer = Node<SequencerState>;
