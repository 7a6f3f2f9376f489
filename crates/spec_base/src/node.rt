/// One of the two replicas of a shard.
#[derive(Clone, Copy, Debug, PartialEq, Eq, PartialOrd, Ord, Hash)]
pub enum Side {
    /// Takes a client's records, and tells their positions.
    Primary,
    /// Keeps a copy of the primary's log.
    Backup,
}

/// A node of the cluster. The derived order is that in which sends to several nodes go, and in which nodes tick.
#[derive(Clone, Copy, Debug, PartialEq, Eq, PartialOrd, Ord, Hash)]
pub enum NodeId {
    /// A sequencer, 0 to 4.
    Seq(u8),
    /// A replica of a shard, 0 to 5.
    Shard(u8, Side),
    /// A client, 0 to 5.
    Client(u8),
    /// A consumer, 0 to 3.
    Consumer(u8),
}
