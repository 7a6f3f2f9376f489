//! Numbers in their ranges, read at a place.

ghost use Rattle.std.specs.Prelude.{◌≡◌, ◌≤◌, ◌^◌, length, if◌then◌else◌, IfOk, Ok, Err};
ghost use Rattle.record_codec.specs.Reading.{byte_at, field};
ghost use Rattle.msg_wire.specs.declared.errors.WireError.TheVariants.{Short};
ghost use Rattle.msg_wire.specs.Decoding.{Gives, byte_in, two_in, four_in, eight_in, kind_in};

use crate::errors::{Read, WireError};
use record_codec::MOST_NUMBER;
use record_codec::fields::{byte_at, eight_at, four_at, two_at};

/// A number in one byte.
#[tactic(auto, unfolding(crate::specs::Decoding::byte_in))]
pub(crate) fn byte_in(bytes: &[u8], at: usize, least: u8, most: u8) -> Read<u8>
    ensures exact { Gives result (byte_in least most bytes.now at) }
    ensures range { IfOk result (λ x. (least ≤ x.0) × (x.0 ≤ most)) }
    ensures within { IfOk result (λ x. x.1 ≤ length bytes.now) }
{
    byte_or(bytes, at, least, most, WireError::BadField { at })
}

/// A version, a kind or a tag, in one byte.
#[tactic(auto, unfolding(crate::specs::Decoding::kind_in))]
pub(crate) fn kind_in(bytes: &[u8], at: usize, least: u8, most: u8) -> Read<u8>
    ensures exact { Gives result (kind_in least most bytes.now at) }
    ensures range { IfOk result (λ x. (least ≤ x.0) × (x.0 ≤ most)) }
{
    byte_or(bytes, at, least, most, WireError::BadKind { at })
}

/// A number in one byte, or the fault where it is out of its range.
fn byte_or(bytes: &[u8], at: usize, least: u8, most: u8, fault: WireError) -> Read<u8>
    ensures exact { Gives result (field Short (λ _. fault) least most (byte_at bytes.now at)) }
    ensures range { IfOk result (λ x. (least ≤ x.0) × (x.0 ≤ most)) }
    ensures within { IfOk result (λ x. x.1 ≤ length bytes.now) }
{
    let read = byte_at(bytes, at).ok_or(WireError::Short)?;
    let is_in = least <= read.0 && read.0 <= most;
    allowed(is_in, read, fault)
}

/// A number in two bytes.
#[tactic(auto, unfolding(crate::specs::Decoding::two_in))]
pub(crate) fn two_in(bytes: &[u8], at: usize, least: u16, most: u16) -> Read<u16>
    ensures exact { Gives result (two_in least most bytes.now at) }
    ensures range { IfOk result (λ x. (least ≤ x.0) × (x.0 ≤ most)) }
    ensures within { IfOk result (λ x. x.1 ≤ length bytes.now) }
{
    let read = two_at(bytes, at).ok_or(WireError::Short)?;
    let is_in = least <= read.0 && read.0 <= most;
    allowed(is_in, read, WireError::BadField { at })
}

/// A number in four bytes.
#[tactic(auto, unfolding(crate::specs::Decoding::four_in))]
pub(crate) fn four_in(bytes: &[u8], at: usize, least: u32, most: u32) -> Read<u32>
    ensures { Gives result (four_in least most bytes.now at) }
{
    let read = four_at(bytes, at).ok_or(WireError::Short)?;
    let is_in = least <= read.0 && read.0 <= most;
    allowed(is_in, read, WireError::BadField { at })
}

/// A local, a client's number, a length or a position, in eight bytes.
#[tactic(auto, unfolding(crate::specs::Decoding::eight_in))]
pub(crate) fn place_at(bytes: &[u8], at: usize) -> Read<u64>
    ensures { Gives result (eight_in 0 (2 ^ 48) bytes.now at) }
{
    let read = eight_at(bytes, at).ok_or(WireError::Short)?;
    let is_in = read.0 <= MOST_NUMBER;
    allowed(is_in, read, WireError::BadField { at })
}

/// The place of an entry in the agreed list.
pub(crate) fn slot_at(bytes: &[u8], at: usize) -> Read<u32>
    ensures { Gives result (four_in 0 999999 bytes.now at) }
{
    four_in(bytes, at, 0, 999_999)
}

/// The number of an attempt.
pub(crate) fn ballot_at(bytes: &[u8], at: usize) -> Read<u32>
    ensures { Gives result (four_in 0 2147483647 bytes.now at) }
{
    four_in(bytes, at, 0, 0x7fff_ffff)
}

/// What was read, where it is allowed, and else the fault.
fn allowed<T: Copy>(is_allowed: bool, read: (T, usize), fault: WireError) -> Read<T>
    ensures { result ≡ (if is_allowed then Ok read else Err fault) }
{
    if is_allowed { Ok(read) } else { Err(fault) }
}
