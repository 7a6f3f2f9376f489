ghost use Rattle.std.specs.Prelude.{◌≡◌, ◌<◌};
ghost use Rattle.lag_fix.specs.Lags.{lagging_of, is_uncovered};

use crate::wanted::{Lagging, Wanted};
use fix_ante::Window;

/// The rows whose length is less than the round's end, in the order of the window's rows, each with the length that
/// ends the round. `lengths` has the length of each shard's log at the shard's number. It takes no memory.
pub fn lagging(window: &Window, round: u16, lengths: &[u64; 6]) -> Lagging
    requires { round < window.now.rounds }
    ensures { result ≡ lagging_of window.now.spots round lengths.now }
{
    let mut rows = Lagging::new();
    for spot in window.spots() {
        let len = spot.begin(round + 1);
        if lengths[usize::from(spot.shard)] < len {
            rows.push(Wanted {
                shard: spot.shard,
                len,
            });
        }
    }
    rows
}

/// Whether some row's length is more than the round's begin. `lengths` is as for [`lagging`].
pub fn uncovered(window: &Window, round: u16, lengths: &[u64; 6]) -> bool
    requires { round < window.now.rounds }
    ensures { result ≡ is_uncovered window.now.spots round lengths.now }
{
    for spot in window.spots() {
        if spot.begin(round) < lengths[usize::from(spot.shard)] {
            return true;
        }
    }
    false
}
