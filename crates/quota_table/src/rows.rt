/// A row as it was asked for, before any test.
#[derive(Clone, Copy, Debug, PartialEq, Eq)]
pub struct Asked {
    /// Any number; a table's is at most 5.
    pub shard: u8,
    /// Any number; a table's is 1 to 64.
    pub quota: u32,
}

/// A row of a table: how many positions of each round a shard has.
#[derive(Clone, Copy, Debug, Default, PartialEq, Eq)]
pub struct Row {
    /// The shard's number, 0 to 5.
    pub shard: u8,
    /// Positions in each round, 1 to 64.
    pub quota: u8,
}
