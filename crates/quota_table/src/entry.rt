use crate::table::Table;

/// What the sequencers agree on: one entry for each slot.
///
/// An entry that does not fit the state in which it is applied is void, and changes nothing.
#[derive(Clone, Debug, Drop, PartialEq)]
pub enum Entry {
    /// Nothing happens.
    Nothing,
    /// The next round of the current window is covered.
    Cut {
        /// The number of the current window.
        window: u32,
        /// The round that is covered, from 0.
        round: u16,
    },
    /// A further window is granted, to follow the current one.
    Table {
        /// The number of the current window.
        after: u32,
        /// Rounds of the granted window, 1 to 1,024.
        rounds: u16,
        /// Its rows.
        rows: Table,
    },
    /// A shard leaves the current window for good.
    Remove {
        /// The number of the current window.
        window: u32,
        /// The shard that leaves.
        shard: u8,
    },
}
