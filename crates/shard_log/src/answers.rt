/// What became of a client's record that was offered to a log.
#[derive(Clone, Copy, Debug, PartialEq, Eq)]
pub enum Appended {
    /// Its number was the one that the log expected of the client, and it stands at `local` now.
    Taken { local: u64 },
    /// The log has the client's number already, first at `local`, and is as before.
    Duplicate { local: u64 },
    /// The log expects the client's number `expected`, and is as before.
    Gap { expected: u64 },
}

/// What became of a record that was meant for one local.
#[derive(Clone, Copy, Debug, PartialEq, Eq)]
pub enum Grown {
    /// The local was the log's length. The log has the record there now, and `len` records.
    Grown { len: u64 },
    /// The local was not the log's length, which is `len`, and the log is as before.
    Stays { len: u64 },
}
