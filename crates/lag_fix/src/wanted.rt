use quota_table::Few;

/// A row that is short, and how long its shard's log is to become.
#[derive(Clone, Copy, Debug, Default, PartialEq, Eq)]
pub struct Wanted {
    /// The shard's number, 0 to 5.
    pub shard: u8,
    /// The length that ends the round: one past the round's last local of the shard.
    pub len: u64,
}

/// The rows that are short, in the order of the window's rows.
pub type Lagging = Few<Wanted, 6>;
