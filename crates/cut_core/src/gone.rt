ghost use Rattle.std.specs.Prelude.{◌≡◌, ◌+◌, ◌≤◌, ◌++◌, ◌∷◌, [], length, map, slice_index, not};
ghost use Rattle.std.specs.List.{filter};
ghost use Rattle.fix_ante.specs.Windows.{has_row};
ghost use Rattle.fix_ante.specs.declared.spots.Spot.{Spot as SpotOf};
ghost use Rattle.cut_core.specs.Map.{end_among};

use arrayvec::ArrayVec;
use fix_ante::Window;

/// A shard that is gone.
#[derive(Clone, Copy, Debug, Default)]
pub struct Gone {
    /// The shard's number, 0 to 5.
    pub shard: u8,
    /// One past its last local.
    pub end: u64,
}

/// The final end of the shard's locals. None where it is not gone.
pub fn end_among(gone: &[Gone], shard: u8) -> Option<u64>
    ensures { result ≡ end_among gone.now shard }
{
    for left in gone {
        if left.shard == shard {
            return Some(left.end);
        }
    }
    None
}

/// The gone shards with one more, whose end is that of its covered locals.
pub fn with_gone(gone: &ArrayVec<Gone, 6>, shard: u8, end: u64) -> ArrayVec<Gone, 6>
    requires { length gone.now.items + 1 ≤ 6 }
    ensures { result.items ≡ gone.now.items ++ record { shard = shard; end = end } ∷ [] }
{
    let mut more = copied(gone);
    more.push(Gone { shard, end });
    more
}

/// The gone shards, with those of the window's rows that are no rows of the next.
pub fn with_dropped(
    gone: &ArrayVec<Gone, 6>,
    window: &Window,
    next: &Window,
    ends: &[u64; 6],
) -> ArrayVec<Gone, 6>
    requires { length gone.now.items + length window.now.spots ≤ 6 }
    ensures { result.items ≡ gone.now.items
        ++ map (λ (s : SpotOf). record { shard = s.shard; end = slice_index ends.now s.shard })
        (filter (λ (s : SpotOf). not (has_row s.shard next.now.spots)) window.now.spots) }
{
    let mut more = copied(gone);
    for spot in window.spots() {
        if !next.is_row(spot.shard) {
            more.push(Gone {
                shard: spot.shard,
                end: ends[usize::from(spot.shard)],
            });
        }
    }
    more
}

fn copied(gone: &ArrayVec<Gone, 6>) -> ArrayVec<Gone, 6>
    ensures { result.items ≡ gone.now.items }
{
    let Ok(copy) = ArrayVec::try_from(gone.as_slice()) else {
        unreachable!()
    };
    copy
}
