ghost use Rattle.std.specs.Prelude.{◌≡◌, ◌+◌, ◌*◌, ◌^◌, ◌<◌, ◌≤◌, min, length, IsTrue};
ghost use Rattle.fix_ante.specs.Windows.{has_row, rows_of, width_of, end_of};
ghost use Rattle.fix_ante.specs.Layout.{owner_of};
ghost use Rattle.fix_ante.specs.Moves.{IsFirstFailed, first_failed_of};
ghost use Rattle.quota_table.specs.Tables.{quotas_before};

use crate::moved::Moved;
use fix_ante::{Window, owner};
use quota_table::offset;

/// The least position that has another owner once the shard is removed, where this many rounds are covered: the
/// position of the shard's first uncovered local.
pub fn first_failed(window: &Window, covered: u16, shard: u8) -> u64
    requires row { IsTrue (has_row shard window.now.spots) }
    requires another { 2 ≤ length window.now.spots }
    requires covered { covered < window.now.rounds }
    requires end { end_of window.now ≤ 2 ^ 48 }
    ensures first { IsFirstFailed window.now covered shard result }
    ensures position { result ≡ first_failed_of window.now covered shard }
    ensures uncovered { window.now.base + covered * width_of window.now ≤ result }
{
    window.end_after(covered) + before(window, shard)
}

/// Positions of a round before the shard's.
fn before(window: &Window, shard: u8) -> u64
    requires row { IsTrue (has_row shard window.now.spots) }
    ensures before { result ≡ quotas_before (rows_of window.now.spots) shard }
    ensures most { result < 2 ^ 32 }
{
    let Some(before) = offset(&window.table(), shard) else {
        unreachable!()
    };
    u64::from(before)
}

/// How many of the applied records stay: the lesser of the two.
pub fn surviving(applied: u64, first: u64) -> u64
    ensures { result ≡ min applied first }
{
    applied.min(first)
}

/// Who has a position in the window before, and who has it in the window after. Each is None exactly outside of its
/// window.
pub fn remap(before: &Window, after: &Window, position: u64) -> Moved
    ensures was { result.was ≡ owner_of before.now position }
    ensures now { result.now ≡ owner_of after.now position }
{
    Moved {
        was: owner(before, position),
        now: owner(after, position),
    }
}
