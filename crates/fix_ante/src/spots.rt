ghost use Rattle.std.specs.Prelude.{◌≡◌, ◌≤◌, ◌^◌};
ghost use Rattle.fix_ante.specs.Windows.{round_begin};

/// A row of a window.
#[derive(Clone, Copy, Debug, Default, PartialEq, Eq)]
pub struct Spot {
    /// The shard's number, 0 to 5.
    pub shard: u8,
    /// Positions in each round, 1 to 64.
    pub quota: u8,
    /// The shard's first local in the window, at most the window's base.
    pub start: u64,
}

impl Spot {
    /// The shard's first local of a round; that of the next round is one past the round's last.
    pub fn begin(&self, round: u16) -> u64
        requires { self.now.start ≤ 2 ^ 48 }
        ensures { result ≡ round_begin self.now round }
    {
        self.start + u64::from(round) * u64::from(self.quota)
    }
}

/// Who has a position: a record of a shard.
#[derive(Clone, Copy, Debug, Default, PartialEq, Eq)]
pub struct Owner {
    /// The shard's number, 0 to 5.
    pub shard: u8,
    /// The record's place in the shard's log, from 0.
    pub local: u64,
}
