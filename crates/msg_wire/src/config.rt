use quota_table::{Listed, Table};
use record_codec::AppKind;

/// Numbers of nodes of one kind: the home of each client, or whom each reader or submitter of a run is tied to.
pub type Homes = Listed<u8>;

/// A cluster, as the head of a script spells it.
#[derive(Clone, Debug, Drop, PartialEq)]
pub struct Config {
    /// How many sequencers there are: 1, 3 or 5.
    pub seqs: u8,
    /// How many shards have nodes, 1 to 6; they are numbered from 0.
    pub shards: u8,
    /// Rounds of the first window, 1 to 1,024.
    pub rounds: u16,
    /// The rows of the first window; each one's shard is below `shards`.
    pub table: Table,
    /// One home for each client, 1 to 6 of them; each is the shard of a row.
    pub homes: Homes,
    /// How many consumers there are, 1 to 4.
    pub consumers: u8,
    /// What every consumer runs.
    pub app: AppKind,
}
