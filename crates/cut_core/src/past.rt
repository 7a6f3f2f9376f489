ghost use Rattle.std.specs.Prelude.{◌≡◌, ℕ, ◌<◌, ◌≤◌, nat_le, true, false, length, slice_index};
ghost use Rattle.std.specs.List.Sorted.{IsNonDecreasingBy, IsPartitionPoint};
ghost use Rattle.cut_core.specs.declared.past.Past.{Past as PastOf};
ghost use Rattle.cut_core.specs.inside.Kept.{local_end, window_from};

use crate::gone::{Gone, end_among};
use fix_ante::Window;

/// A window that is over, with what is covered up to its end.
#[derive(Debug, Drop)]
pub struct Past {
    pub window: Window,
    /// Its covered rounds, at most all of them.
    pub rounds: u16,
    /// One past its last covered position.
    pub end: u64,
    /// One past the last covered local of each shard.
    pub ends: [u64; 6],
}

/// How many of the windows, which stand in order, end at or before the position.
pub fn count_to_position(past: &[Past], position: u64) -> usize
    requires { IsNonDecreasingBy (λ (p : PastOf). p.end) past.now }
    ensures bound { result ≤ length past.now }
    ensures point { IsPartitionPoint (λ (p : PastOf). nat_le p.end position ≡ true) (λ (p : PastOf). nat_le p.end position ≡ false) past.now result }
{
    past.partition_point(|over| over.end <= position)
}

/// How many of the windows, which stand in order, end at or before the shard's local.
pub fn count_to_local(past: &[Past], shard: u8, local: u64) -> usize
    requires shard { shard < 6 }
    requires rising { IsNonDecreasingBy (λ (p : PastOf). slice_index p.ends shard) past.now }
    ensures bound { result ≤ length past.now }
    ensures point { IsPartitionPoint (λ (p : PastOf). nat_le (slice_index p.ends shard) local ≡ true) (λ (p : PastOf). nat_le (slice_index p.ends shard) local ≡ false) past.now result }
{
    past.partition_point(|over| over.ends[usize::from(shard)] <= local)
}

/// The window at this place among those that are over, or the current one past them.
pub fn window_from<'a>(past: &'a [Past], at: usize, current: &'a Window) -> &'a Window
    ensures { result.now ≡ window_from past.now at current.now }
{
    match past.get(at) {
        Some(over) => &over.window,
        None => current,
    }
}

/// The covered locals of each shard after the first rounds of the window.
pub fn ends_after(window: &Window, rounds: u16, gone: &[Gone]) -> [u64; 6]
    requires { rounds ≤ 1024 }
    ensures { (shard : ℕ) → shard < 6 → slice_index result shard ≡ local_end window.now.spots rounds gone.now shard }
{
    let mut ends = [0; 6];
    for shard in 0..6 {
        ends[usize::from(shard)] = local_end(window, rounds, gone, shard);
    }
    ends
}

/// The covered locals of the shard after the first rounds of the window: its final end where it is gone.
pub fn local_end(window: &Window, rounds: u16, gone: &[Gone], shard: u8) -> u64
    requires { rounds ≤ 1024 }
    ensures { result ≡ local_end window.now.spots rounds gone.now shard }
{
    match end_among(gone, shard) {
        Some(end) => end,
        None => window.start_after(rounds, shard),
    }
}
