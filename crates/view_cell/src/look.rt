ghost use Rattle.std.specs.Prelude.{◌≡◌};

use record_codec::Shown;

/// What a reader sees of a consumer: its view after its first `ops` marks.
#[derive(Debug, Clone, Drop, PartialEq)]
pub struct Look {
    /// How many marks the consumer had made. It is the look's number.
    pub ops: u64,
    /// How many of them were of a cluster that changed.
    pub epoch: u64,
    /// How many positions were applied.
    pub applied: u64,
    /// How many of those were confirmed.
    pub confirmed: u64,
    /// What the application shows of its state.
    pub shown: Shown,
}

impl Look {
    /// A copy, which takes no memory.
    pub fn copy(&self) -> Look
        ensures { result ≡ self.now }
    {
        Look {
            ops: self.ops,
            epoch: self.epoch,
            applied: self.applied,
            confirmed: self.confirmed,
            shown: self.shown.copy(),
        }
    }
}
