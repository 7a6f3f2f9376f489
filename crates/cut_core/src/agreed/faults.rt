ghost use Rattle.std.specs.Prelude.{◌≡◌, ◌+◌, ◌<◌, false};
ghost use Rattle.cut_core.specs.Agreements.{is_gone, gone_row, is_last_round};
ghost use Rattle.cut_core.specs.Reasons.{fault_of, cut_fault, grant_reason, remove_fault};

use crate::agreed::Agreed;
use crate::effects::Reason;
use quota_table::{Entry, Table};

impl Agreed {
    /// Why the entry does not fit: the first reason in the order of its kind. None where it fits.
    pub(super) fn fault(&self, entry: &Entry) -> Option<Reason>
        ensures { result ≡ fault_of self.now entry.now }
    {
        match entry {
            Entry::Nothing => None,
            Entry::Cut { window, round } => self.cut_fault(*window, *round),
            Entry::Table { after, rows, .. } => self.grant_reason(*after, rows),
            Entry::Remove { window, shard } => self.remove_fault(*window, *shard),
        }
    }

    fn cut_fault(&self, window: u32, round: u16) -> Option<Reason>
        ensures { result ≡ cut_fault self.now window round }
    {
        let current = self.current.number();
        if window != current {
            return Some(Reason::WrongWindow { current });
        }
        if round != self.rounds {
            return Some(Reason::WrongRound {
                covered: self.rounds,
            });
        }
        if self.is_last_round() && self.granted.is_none() {
            return Some(Reason::NoGrant);
        }
        None
    }

    fn grant_reason(&self, after: u32, rows: &Table) -> Option<Reason>
        ensures { result ≡ grant_reason self.now after rows.now }
    {
        let current = self.current.number();
        if after != current {
            return Some(Reason::WrongWindow { current });
        }
        if let Some(granted) = &self.granted {
            return Some(Reason::AlreadyGranted {
                window: granted.number(),
            });
        }
        let shard = self.gone_row(rows)?;
        Some(Reason::GoneShard { shard })
    }

    fn remove_fault(&self, window: u32, shard: u8) -> Option<Reason>
        ensures { result ≡ remove_fault self.now window shard }
    {
        let current = self.current.number();
        if window != current {
            return Some(Reason::WrongWindow { current });
        }
        if !self.current.is_row(shard) {
            return Some(Reason::NotARow { shard });
        }
        if self.current.spots().len() > 1 {
            return None;
        }
        Some(Reason::LastShard)
    }

    /// Whether one round of the current window is left.
    pub(super) fn is_last_round(&self) -> bool
        ensures last { result ≡ is_last_round self.now }
        ensures more { result ≡ false → self.now.rounds + 1 < self.now.current.rounds }
    {
        self.rounds + 1 == self.current.rounds()
    }

    /// The first row whose shard is gone.
    fn gone_row(&self, rows: &Table) -> Option<u8>
        ensures { result ≡ gone_row self.now rows.now }
    {
        for row in rows.rows() {
            if self.is_gone(row.shard) {
                return Some(row.shard);
            }
        }
        None
    }

    fn is_gone(&self, shard: u8) -> bool
        ensures { result ≡ is_gone self.now shard }
    {
        self.gone.iter().any(|left| left.shard == shard)
    }
}
