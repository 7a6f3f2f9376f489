//! Numbers as bytes, the high ones first: read at a place, and put at the end of a head.

ghost use Rattle.std.specs.Prelude.{◌≡◌, ◌≤◌, ◌+◌, ◌-◌, ◌++◌, ◌∷◌, [], length, take, drop, nat_lt, true, false, IfSome, MatchOption};
ghost use Rattle.record_codec.specs.Fields.{two, four, eight};
ghost use Rattle.record_codec.specs.Reading.{byte_at, two_at, four_at, eight_at};

use crate::text::ShortText;

/// Fields before a body: at most 40 bytes, which take no memory.
pub type Head = ShortText<40>;

/// The byte at a place, and the place after it. None at the end of the bytes.
#[tactic(auto, unfolding(crate::specs::Reading::byte_at))]
pub fn byte_at(bytes: &[u8], at: usize) -> Option<(u8, usize)>
    ensures number { result ≡ byte_at bytes.now at }
    ensures within { IfSome result (λ x. x.1 ≤ length bytes.now) }
{
    if bytes.len().saturating_sub(at) < 1 {
        return None;
    }
    Some((bytes[at], at + 1))
}

/// The number in two bytes at a place, and the place after it. None where the bytes end before that.
#[tactic(auto, unfolding(crate::specs::Reading::two_at))]
pub fn two_at(bytes: &[u8], at: usize) -> Option<(u16, usize)>
    ensures number { result ≡ two_at bytes.now at }
    ensures within { IfSome result (λ x. x.1 ≤ length bytes.now) }
{
    if bytes.len().saturating_sub(at) < 2 {
        return None;
    }
    let (field, _) = bytes[at..].split_at(2);
    Some((u16::from_be_bytes([field[0], field[1]]), at + 2))
}

/// The number in four bytes at a place, and the place after it. None where the bytes end before that.
#[tactic(auto, unfolding(crate::specs::Reading::four_at))]
pub fn four_at(bytes: &[u8], at: usize) -> Option<(u32, usize)>
    ensures number { result ≡ four_at bytes.now at }
    ensures within { IfSome result (λ x. x.1 ≤ length bytes.now) }
{
    if bytes.len().saturating_sub(at) < 4 {
        return None;
    }
    let (field, _) = bytes[at..].split_at(4);
    let number = u32::from_be_bytes([field[0], field[1], field[2], field[3]]);
    Some((number, at + 4))
}

/// The number in eight bytes at a place, and the place after it. None where the bytes end before that.
#[tactic(auto, unfolding(crate::specs::Reading::eight_at))]
pub fn eight_at(bytes: &[u8], at: usize) -> Option<(u64, usize)>
    ensures number { result ≡ eight_at bytes.now at }
    ensures within { IfSome result (λ x. x.1 ≤ length bytes.now) }
{
    if bytes.len().saturating_sub(at) < 8 {
        return None;
    }
    let (field, _) = bytes[at..].split_at(8);
    let number = u64::from_be_bytes([
        field[0], field[1], field[2], field[3], field[4], field[5], field[6], field[7],
    ]);
    Some((number, at + 8))
}

/// So many bytes at a place, and the place after them. None where the bytes end before that.
pub fn piece_at(bytes: &[u8], at: usize, len: usize) -> Option<(&[u8], usize)>
    requires { at ≤ length bytes.now }
    ensures there { MatchOption result (nat_lt (length bytes.now - at) len ≡ true) (λ _. nat_lt (length bytes.now - at) len ≡ false) }
    ensures piece { IfSome result (λ x. x.0.now ≡ take len (drop at bytes.now)) }
    ensures after { IfSome result (λ x. x.1 ≡ at + len) }
    ensures within { IfSome result (λ x. x.1 ≤ length bytes.now) }
{
    if bytes.len() - at < len {
        return None;
    }
    let (piece, _) = bytes[at..].split_at(len);
    Some((piece, at + len))
}

/// Puts a byte at the end of a head.
pub fn put_byte(head: &mut Head, byte: u8)
    requires { length head.old + 1 ≤ 40 }
    ensures bytes { head.new ≡ head.old ++ byte ∷ [] }
    ensures len { length head.new ≡ length head.old + 1 }
{
    head.extend_from_slice(&[byte]);
}

/// Puts a number in two bytes at the end of a head.
#[tactic(auto, unfolding(crate::specs::Fields::two))]
pub fn put_two(head: &mut Head, number: u16)
    requires { length head.old + 2 ≤ 40 }
    ensures bytes { head.new ≡ head.old ++ two number }
    ensures len { length head.new ≡ length head.old + 2 }
{
    head.extend_from_slice(&number.to_be_bytes());
}

/// Puts a number in four bytes at the end of a head.
#[tactic(auto, unfolding(crate::specs::Fields::four))]
pub fn put_four(head: &mut Head, number: u32)
    requires { length head.old + 4 ≤ 40 }
    ensures bytes { head.new ≡ head.old ++ four number }
    ensures len { length head.new ≡ length head.old + 4 }
{
    head.extend_from_slice(&number.to_be_bytes());
}

/// Puts a number in eight bytes at the end of a head.
#[tactic(auto, unfolding(crate::specs::Fields::eight))]
pub fn put_eight(head: &mut Head, number: u64)
    requires { length head.old + 8 ≤ 40 }
    ensures bytes { head.new ≡ head.old ++ eight number }
    ensures len { length head.new ≡ length head.old + 8 }
{
    head.extend_from_slice(&number.to_be_bytes());
}
