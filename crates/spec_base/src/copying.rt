ghost use Rattle.std.specs.Prelude.{◌≡◌, length, min, take, drop};

/// Copies the front of `from` to the front of `into`: as much as both have, and at most `most`. What lies behind it stays.
pub fn copy_front(from: &[u8], most: usize, into: &mut [u8]) -> usize
    ensures count { result ≡ min most (min (length from.now) (length into.old)) }
    ensures copied { take result into.new ≡ take result from.now }
    ensures behind { drop result into.new ≡ drop result into.old }
{
    let count = most.min(from.len().min(into.len()));
    into[..count].copy_from_slice(&from[..count]);
    count
}
