ghost use Rattle.std.specs.Prelude.{◌≡◌, ◌<◌, ◌≤◌, ◌↔◌, ◌^◌, Some, IfSome, IsSome};
ghost use Rattle.fix_ante.specs.Windows.{end_of};
ghost use Rattle.fix_ante.specs.Layout.{place_of, owner_of};
ghost use Rattle.fix_ante.specs.Positions.{index_in, index_among, owner_among};

use crate::spots::{Owner, Spot};
use crate::window::Window;

/// The position of a shard's local in the window.
/// None exactly where the shard is not a row, or the local is before the row's start or after its last round.
pub fn place(window: &Window, shard: u8, local: u64) -> Option<u64>
    // The index in the window laid out.
    ensures place { result ≡ place_of window.now shard local }
    ensures within { IfSome result (λ p. (window.now.base ≤ p) × (p < end_of window.now)) }
    ensures owner { IfSome result (λ p. owner_of window.now p ≡ Some (record { shard = shard; local = local })) }
{
    let (base, rounds, width) = (
        window.base(),
        u64::from(window.rounds()),
        u64::from(window.width()),
    );
    let index = index_of(window, rounds, width, shard, local)?;
    Some(base + index)
}

/// Who has a position. None exactly outside the window.
pub fn owner(window: &Window, position: u64) -> Option<Owner>
    ensures owner { result ≡ owner_of window.now position }
    ensures within { IsSome result ↔ ((window.now.base ≤ position) × (position < end_of window.now)) }
    ensures place { IfSome result (λ o. place_of window.now o.shard o.local ≡ Some position) }
    ensures limits { IfSome result (λ o. (o.shard < 6) × (o.local ≤ position)) }
{
    let ahead = position.checked_sub(window.base())?;
    let width = u64::from(window.width());
    let round = ahead / width;
    if round >= u64::from(window.rounds()) {
        return None;
    }
    owner_in(window, round, ahead % width)
}

/// Who has a place of a round.
fn owner_in(window: &Window, round: u64, at: u64) -> Option<Owner>
    requires { round ≤ 1024 }
    ensures { result ≡ owner_among window.now.spots round at }
{
    let mut left = at;
    for spot in window.spots() {
        let quota = u64::from(spot.quota);
        if left < quota {
            return Some(Owner {
                shard: spot.shard,
                local: spot.start + round * quota + left,
            });
        }
        left -= quota;
    }
    None
}

/// The index of a shard's local in the layout of so many rounds of this width.
fn index_of(window: &Window, rounds: u64, width: u64, shard: u8, local: u64) -> Option<u64>
    requires rounds { rounds ≤ 1024 }
    requires width { width ≤ 384 }
    ensures index { result ≡ index_among (record { rounds = rounds; width = width; before = 0 }) window.now.spots (record { shard = shard; local = local }) }
    ensures most { IfSome result (λ i. i ≤ 2 ^ 20) }
{
    let mut before = 0;
    for spot in window.spots() {
        if spot.shard == shard {
            return index_in(rounds, width, before, spot, local);
        }
        before += u64::from(spot.quota);
    }
    None
}

/// The index of a row's local in the window's layout. None where the local is before the row's start or after its
/// last round.
fn index_in(rounds: u64, width: u64, before: u64, spot: &Spot, local: u64) -> Option<u64>
    requires rounds { rounds ≤ 1024 }
    requires width { width ≤ 384 }
    requires before { before ≤ 2048 }
    ensures index { result ≡ index_in (record { rounds = rounds; width = width; before = before }) spot.now local }
    ensures most { IfSome result (λ i. i ≤ 2 ^ 20) }
{
    let quota = u64::from(spot.quota);
    let ahead = local.checked_sub(spot.start)?;
    if ahead >= rounds * quota {
        return None;
    }
    Some(ahead / quota * width + before + ahead % quota)
}
