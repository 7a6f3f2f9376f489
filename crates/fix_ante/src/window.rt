ghost use Rattle.std.specs.Prelude.{◌≡◌, ◌<◌, ◌≤◌, ◌^◌, ℕ, IsTrue, length, slice_index};
ghost use Rattle.std.specs.Cmp.Rules.{comparing};
ghost use Rattle.std.specs.List.{All};
ghost use Rattle.quota_table.specs.Tables.{quotas_of};
ghost use Rattle.fix_ante.specs.Windows.{IsWindow, IsSpot, rows_of, has_row, width_of, end_of, end_after, first_of, window_after, window_eq, without_of, start_after};

use crate::spots::Spot;
use arrayvec::ArrayVec;
use quota_table::{Row, Table};
use std::alloc::AllocError;
use std::marker::Model;

/// The greatest base of a window.
pub const MOST_BASE: u64 = 1 << 48;

/// The greatest number of rounds of a window.
pub const MOST_ROUNDS: u16 = 1024;

/// A window of the log: in each of its rounds, from its base on, each of its rows has as many positions as its quota.
/// Contracts see it as that record of number, base, rounds and rows (`IsWindow`).
#[derive(Debug, Drop)]
pub struct Window {
    number: u32,
    base: u64,
    rounds: u16,
    /// Positions in a round: the sum of the rows' quotas, 1 to 384.
    width: u16,
    spots: ArrayVec<Spot, 6>,
}

impl Model for Window {
    ghost use Rattle.std.specs.Prelude.{◌≡◌};
    ghost use Rattle.fix_ante.specs.Windows.{Window, IsWindow, width_of};

    ghost Value = { Window };

    ghost view = { λ w. record { number = w.number; base = w.base; rounds = w.rounds; spots = w.spots.items } };

    ghost invariant = { λ w. record {
      valid : IsWindow (record { number = w.number; base = w.base; rounds = w.rounds; spots = w.spots.items });
      width : w.width ≡ width_of (record { number = w.number; base = w.base; rounds = w.rounds; spots = w.spots.items });
    } };
}

impl Clone for Window {
    ghost is_clone = { λ a b. b ≡ a };

    fn clone(&self) -> Result<Window, AllocError> {
        Ok(self.copy())
    }
}

impl PartialEq for Window {
    ghost eq = { window_eq };

    ghost laws = { Prim.search comparing depth 12 };

    fn eq(&self, other: &Window) -> bool {
        self.number == other.number
            && self.base == other.base
            && self.rounds == other.rounds
            && self.spots == other.spots
    }
}

impl Window {
    /// The slot of the entry that made the window, plus one; 0 for the first window.
    pub fn number(&self) -> u32
        ensures number { result ≡ self.now.number }
        ensures valid { IsWindow self.now }
    {
        self.number
    }

    /// The window's first position, at most 2^48.
    pub fn base(&self) -> u64
        ensures base { result ≡ self.now.base }
        ensures valid { IsWindow self.now }
    {
        self.base
    }

    /// The number of rounds, 1 to 1,024.
    pub fn rounds(&self) -> u16
        ensures rounds { result ≡ self.now.rounds }
        ensures valid { IsWindow self.now }
    {
        self.rounds
    }

    /// The rows, in order.
    pub fn spots(&self) -> &[Spot]
        ensures spots { result.now ≡ self.now.spots }
        ensures each { All (IsSpot self.now.base) self.now.spots }
        ensures valid { IsWindow self.now }
    {
        self.spots.as_slice()
    }

    /// The rows without their starts: the table that the window was laid out from. It takes no memory.
    pub fn table(&self) -> Table
        ensures { result ≡ rows_of self.now.spots }
    {
        let mut rows = ArrayVec::new();
        for spot in self.spots() {
            rows.push(Row {
                shard: spot.shard,
                quota: spot.quota,
            });
        }
        Table::of(rows)
    }

    /// Whether one of the rows is this shard's.
    pub fn is_row(&self, shard: u8) -> bool
        ensures { result ≡ has_row shard self.now.spots }
    {
        self.spots.iter().any(|spot| spot.shard == shard)
    }

    /// Positions in a round: the sum of the quotas, 1 to 384.
    pub fn width(&self) -> u32
        ensures width { result ≡ width_of self.now }
        ensures some { 1 ≤ result }
        ensures most { result ≤ 384 }
    {
        u32::from(self.width)
    }

    /// One past the window's last position.
    pub fn end(&self) -> u64
        ensures { result ≡ end_of self.now }
    {
        self.end_after(self.rounds)
    }

    /// One past the last position of the first rounds.
    pub fn end_after(&self, rounds: u16) -> u64
        ensures end { result ≡ end_after self.now rounds }
        ensures most { result ≤ 2 ^ 49 }
        ensures valid { IsWindow self.now }
    {
        self.base + u64::from(rounds) * u64::from(self.width())
    }

    /// Where the shard's locals go on after the first rounds: 0 where it is no row.
    pub fn start_after(&self, rounds: u16, shard: u8) -> u64
        ensures { result ≡ start_after self.now.spots rounds shard }
    {
        for spot in self.spots() {
            if spot.shard == shard {
                return spot.begin(rounds);
            }
        }
        0
    }

    /// A copy, which takes no memory.
    pub fn copy(&self) -> Window
        ensures { result ≡ self.now }
    {
        let Ok(spots) = ArrayVec::try_from(self.spots.as_slice()) else {
            unreachable!()
        };
        Window {
            number: self.number,
            base: self.base,
            rounds: self.rounds,
            width: self.width,
            spots,
        }
    }
}

/// The window of these parts, which are known to be one's. It takes no memory.
fn laid_out(number: u32, base: u64, rounds: u16, spots: ArrayVec<Spot, 6>) -> Window
    requires { IsWindow (record { number = number; base = base; rounds = rounds; spots = spots.items }) }
    ensures window { result ≡ record { number = number; base = base; rounds = rounds; spots = spots.items } }
    ensures valid { IsWindow result }
{
    Window {
        number,
        base,
        rounds,
        width: width_among(spots.as_slice()),
        spots,
    }
}

/// Positions in a round of these rows.
fn width_among(spots: &[Spot]) -> u16
    requires { length spots.now ≤ 6 }
    ensures { result ≡ quotas_of (rows_of spots.now) }
{
    let mut total = 0;
    for spot in spots {
        total += u16::from(spot.quota);
    }
    total
}

/// The first window: number, base and starts are 0. It takes no memory.
pub fn first(rounds: u16, table: &Table) -> Window
    requires some { 1 ≤ rounds }
    requires most { rounds ≤ 1024 }
    ensures first { result ≡ first_of rounds table.now }
    ensures valid { IsWindow result }
{
    let mut spots = ArrayVec::new();
    for row in table.rows() {
        spots.push(Spot {
            shard: row.shard,
            quota: row.quota,
            start: 0,
        });
    }
    laid_out(0, 0, rounds, spots)
}

/// The window of a table that follows all rounds of this one. A shard goes on with its next local; one that is new
/// begins with local 0. It takes no memory.
pub fn next(window: &Window, number: u32, rounds: u16, table: &Table) -> Window
    requires some { 1 ≤ rounds }
    requires most { rounds ≤ 1024 }
    requires end { end_of window.now ≤ 2 ^ 48 }
    ensures next { result ≡ window_after window.now number rounds table.now }
    ensures valid { IsWindow result }
{
    let covered = window.rounds();
    let mut spots = ArrayVec::new();
    for row in table.rows() {
        spots.push(Spot {
            shard: row.shard,
            quota: row.quota,
            start: window.start_after(covered, row.shard),
        });
    }
    laid_out(number, window.end(), rounds, spots)
}

/// The window that a removal leaves: after the covered rounds of this one the other rows go on, for as many rounds.
/// It takes no memory.
pub fn without(window: &Window, number: u32, covered: u16, shard: u8) -> Window
    requires row { IsTrue (has_row shard window.now.spots) }
    requires another { 2 ≤ length window.now.spots }
    requires covered { covered < window.now.rounds }
    requires end { end_of window.now ≤ 2 ^ 48 }
    ensures without { result ≡ without_of window.now number covered shard }
    ensures valid { IsWindow result }
{
    let mut spots = ArrayVec::new();
    for spot in window.spots() {
        if spot.shard != shard {
            spots.push(Spot {
                start: spot.begin(covered),
                ..*spot
            });
        }
    }
    laid_out(number, window.end_after(covered), window.rounds(), spots)
}
