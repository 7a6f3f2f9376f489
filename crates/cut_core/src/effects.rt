/// What an entry did.
#[derive(Clone, Copy, Debug, PartialEq, Eq)]
pub enum Effect {
    /// Nothing was to be done.
    Still,
    /// A round of the current window is covered.
    Covered {
        /// The covered rounds of the window now.
        rounds: u16,
    },
    /// The last round of a window is covered, and the granted window is the current one.
    Opened {
        /// The number of the opened window.
        window: u32,
    },
    /// A window is granted, to follow the current one.
    Granted {
        /// The number of the granted window.
        window: u32,
    },
    /// A shard is gone, and the current window is laid out anew.
    Removed {
        /// The shard that is gone.
        shard: u8,
        /// The least position that has another owner now.
        first: u64,
    },
    /// The entry did not fit, and changed nothing.
    Void {
        /// Why it did not fit.
        reason: Reason,
    },
}

/// Why an entry did not fit. Where several reasons hold, the first in the order of the entry's kind is the answer.
#[derive(Clone, Copy, Debug, PartialEq, Eq)]
pub enum Reason {
    /// The entry names another window than the current one.
    WrongWindow {
        /// The number of the current window.
        current: u32,
    },
    /// A cut names another round than the next.
    WrongRound {
        /// The covered rounds of the current window.
        covered: u16,
    },
    /// A cut of the last round comes while no window is granted.
    NoGrant,
    /// A table comes while a window is granted.
    AlreadyGranted {
        /// The number of the granted window.
        window: u32,
    },
    /// A table names a shard that is gone; this is the first of them.
    GoneShard {
        /// The shard that is gone.
        shard: u8,
    },
    /// A removal names a shard that is no row of the current window.
    NotARow {
        /// The shard that is no row.
        shard: u8,
    },
    /// A removal names the only row of the current window.
    LastShard,
}
