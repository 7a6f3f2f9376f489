ghost use Rattle.std.specs.Prelude.{◌≡◌, ◌+◌, ◌≤◌, ◌^◌, if◌then◌else◌};
ghost use Rattle.std.specs.Str.Parse.{digits_value};
ghost use Rattle.app_law.specs.Tallies.{is_added, added_to};

use crate::app::App;
use crate::decimal::write_decimal;
use record_codec::decimal::number;
use record_codec::{AppKind, Output, Record, Shown};
use std::marker::Model;

/// The greatest sum.
const MOST_TOTAL: u64 = 1_000_000_000_000_000_000;

/// The most digits of a number that is added.
const MOST_DIGITS: usize = 9;

/// Adds numbers up: a body of 1 to 9 digits is added, where the sum stays at most 10^18.
#[derive(Debug, Drop)]
pub struct Tally {
    total: u64,
    added: u64,
}

impl Model for Tally {
    ghost use Rattle.std.specs.Prelude.{◌≤◌, ◌^◌};
    ghost use Rattle.app_law.specs.Tallies.{TallyState};

    ghost Value = { TallyState };

    ghost view = { λ t. record { total = t.total; added = t.added } };

    ghost invariant = { λ t. t.total ≤ 10 ^ 18 };
}

impl App for Tally {
    /// The tally that stood before.
    type Undo = Tally;

    ghost use Rattle.std.specs.Prelude.{refl};
    ghost use Rattle.app_law.specs.Tallies.{tally_next, tally_output, tally_shown};

    ghost fresh_state = { λ _. record { total = 0; added = 0 } };

    ghost next_state = { tally_next };

    ghost output_of = { tally_output };

    ghost shown_of = { tally_shown };

    ghost restored = { λ undo _. undo };

    ghost noop_leaves = { λ _. refl };

    ghost noop_gives = { λ _. refl };

    fn fresh(_: AppKind) -> Tally {
        Tally { total: 0, added: 0 }
    }

    fn apply(&mut self, rec: &Record) -> (Tally, Output) {
        let before = Tally {
            total: self.total,
            added: self.added,
        };
        let mut output = Output::new();
        if let Record::Data { body, .. } = rec {
            match self.add(body.as_slice()) {
                Some(total) => write_decimal(total, &mut output),
                None => output.extend_from_slice(b"?"),
            }
            output.extend_from_slice(b"\n");
        }
        (before, output)
    }

    fn revert(&mut self, undo: Tally) {
        *self = undo;
    }

    fn show(&self) -> Shown {
        let mut shown = Shown::new();
        shown.extend_from_slice(b"sum ");
        write_decimal(self.total, &mut shown);
        shown.extend_from_slice(b" count ");
        write_decimal(self.added, &mut shown);
        shown
    }
}

impl Tally {
    /// Adds the number that a body spells, and gives the new sum; None, and nothing changes, where it is not added.
    fn add(&mut self, body: &[u8]) -> Option<u64>
        ensures sum { result ≡ (if is_added self.old body.now then Some (self.old.total + digits_value 10 body.now) else None) }
        ensures state { self.new ≡ added_to self.old body.now }
    {
        let total = self.total + number(MOST_DIGITS, body)?;
        if total > MOST_TOTAL {
            return None;
        }
        self.total = total;
        self.added = self.added.saturating_add(1);
        Some(total)
    }
}

#[cfg(test)]
impl Tally {
    /// A tally that stands at this sum and count.
    pub fn at(total: u64, added: u64) -> Tally
        requires { total ≤ 10 ^ 18 }
    {
        Tally { total, added }
    }
}
