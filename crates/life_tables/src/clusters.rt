//! The clusters of the tests.

use crate::cluster::Cluster;
use record_codec::AppKind;

/// One sequencer, one shard, one client and one consumer; a window of 2 rounds of one place.
pub const SINGLE: Cluster = Cluster {
    seqs: 1,
    rounds: 2,
    rows: "0:1",
    homes: &[0],
    consumers: 1,
    app: AppKind::Tally,
};

/// Three sequencers, and a window of 8 rounds.
pub const EIGHT_ROUNDS: Cluster = Cluster {
    seqs: 3,
    rounds: 8,
    ..SINGLE
};

/// Two shards, a client at each; a window of 4 rounds of one place each.
pub const PAIR: Cluster = Cluster {
    rounds: 4,
    rows: "0:1 1:1",
    homes: &[0, 1],
    ..SINGLE
};

/// Two shards, and a client at the first alone.
pub const ONE_AT_TWO: Cluster = Cluster {
    homes: &[0],
    ..PAIR
};

/// The same with three sequencers.
pub const THREE_AT_TWO: Cluster = Cluster {
    seqs: 3,
    ..ONE_AT_TWO
};

/// Three sequencers, three shards, five clients and one consumer; a window of 4 rounds of one place each.
pub const TRIO: Cluster = Cluster {
    seqs: 3,
    rounds: 4,
    rows: "1:1 2:1 0:1",
    homes: &[2, 2, 1, 0, 1],
    consumers: 1,
    app: AppKind::Kv,
};

/// Five sequencers, six shards, four clients and four consumers; a window of one round.
pub const SIX_SHARDS: Cluster = Cluster {
    seqs: 5,
    rounds: 1,
    rows: "0:6 5:7 2:1 3:2 4:3 1:8",
    homes: &[5, 1, 4, 3],
    consumers: 4,
    app: AppKind::Tally,
};
