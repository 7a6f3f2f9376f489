//! Records and entries inside a message or an item, read at a place.

ghost use Rattle.std.specs.Prelude.{◌≡◌, ◌≤◌, []};
ghost use Rattle.quota_table.specs.Rows.{has_shard};
ghost use Rattle.msg_wire.specs.Decoding.{Gives, body_at, record_of, record_at, fresh_at, row_at, rows_at, table_at, entry_of, entry_at, vote_at};

use crate::errors::{Read, WireError};
use crate::numbers::{ballot_at, byte_in, four_in, place_at, two_in};
use arrayvec::ArrayVec;
use quota_table::{Entry, Row, Table};
use record_codec::fields::piece_at;
use record_codec::{Body, Record};
use std::alloc::Global;

/// A body behind its length.
#[tactic(auto, unfolding(crate::specs::Decoding::body_at))]
pub(crate) fn body_at(alloc: Global, bytes: &[u8], at: usize) -> Read<Body>
    ensures { Gives result (body_at bytes.now at) }
{
    let (len, at) = two_in(bytes, at, 0, 1024)?;
    let (body, at) = piece_at(bytes, at, usize::from(len)).ok_or(WireError::Short)?;
    let body = Body::of(alloc, body).map_err(|_| WireError::OutOfMemory)?;
    Ok((body, at))
}

#[tactic(auto, unfolding(crate::specs::Decoding::record_at))]
pub(crate) fn record_at(alloc: Global, bytes: &[u8], at: usize) -> Read<Record>
    ensures { Gives result (record_at bytes.now at) }
{
    let (tag, at) = byte_in(bytes, at, 0, 1)?;
    record_of(alloc, tag, bytes, at)
}

#[tactic(auto, unfolding(crate::specs::Decoding::record_of))]
fn record_of(alloc: Global, tag: u8, bytes: &[u8], at: usize) -> Read<Record>
    ensures { Gives result (record_of tag bytes.now at) }
{
    if tag == 0 {
        return Ok((Record::Noop, at));
    }
    let (client, at) = four_in(bytes, at, 0, 5)?;
    let (number, at) = place_at(bytes, at)?;
    let (body, at) = body_at(alloc, bytes, at)?;
    Ok((Record::data(client, number, body), at))
}

#[tactic(auto, unfolding(crate::specs::Decoding::entry_at))]
pub(crate) fn entry_at(bytes: &[u8], at: usize) -> Read<Entry>
    ensures { Gives result (entry_at bytes.now at) }
{
    let (tag, at) = byte_in(bytes, at, 0, 3)?;
    entry_of(tag, bytes, at)
}

#[tactic(auto, unfolding(crate::specs::Decoding::entry_of))]
fn entry_of(tag: u8, bytes: &[u8], at: usize) -> Read<Entry>
    ensures { Gives result (entry_of tag bytes.now at) }
{
    if tag == 0 {
        return Ok((Entry::Nothing, at));
    }
    let (window, at) = four_in(bytes, at, 0, 1_000_000)?;
    match tag {
        1 => {
            let (round, at) = two_in(bytes, at, 0, 1023)?;
            Ok((Entry::Cut { window, round }, at))
        }
        2 => {
            let after = window;
            let (rounds, at) = two_in(bytes, at, 1, 1024)?;
            let (rows, at) = table_at(bytes, at)?;
            Ok((
                Entry::Table {
                    after,
                    rounds,
                    rows,
                },
                at,
            ))
        }
        _ => {
            let (shard, at) = byte_in(bytes, at, 0, 5)?;
            Ok((Entry::Remove { window, shard }, at))
        }
    }
}

#[tactic(auto, unfolding(crate::specs::Decoding::table_at))]
fn table_at(bytes: &[u8], at: usize) -> Read<Table>
    ensures { Gives result (table_at bytes.now at) }
{
    let (count, at) = byte_in(bytes, at, 1, 6)?;
    rows_at(count, bytes, at)
}

fn rows_at(count: u8, bytes: &[u8], start: usize) -> Read<Table>
    requires some { 1 ≤ count }
    requires few { count ≤ 6 }
    ensures { Gives result (rows_at count [] bytes.now start) }
{
    let mut rows = ArrayVec::new();
    let mut at = start;
    for _ in 0..count {
        let (row, after) = row_at(&rows, bytes, at)?;
        rows.push(row);
        at = after;
    }
    Ok((Table::of(rows), at))
}

#[tactic(auto, unfolding(crate::specs::Decoding::row_at))]
fn row_at(earlier: &ArrayVec<Row, 6>, bytes: &[u8], at: usize) -> Read<Row>
    ensures { Gives result (row_at earlier.now.items bytes.now at) }
{
    let (shard, at) = fresh_at(earlier.as_slice(), bytes, at)?;
    let (quota, at) = byte_in(bytes, at, 1, 64)?;
    Ok((Row { shard, quota }, at))
}

/// A shard that no earlier row has.
#[tactic(auto, unfolding(crate::specs::Decoding::fresh_at))]
fn fresh_at(earlier: &[Row], bytes: &[u8], at: usize) -> Read<u8>
    ensures { Gives result (fresh_at earlier.now bytes.now at) }
{
    let (shard, after) = byte_in(bytes, at, 0, 5)?;
    if is_taken(earlier, shard) {
        return Err(WireError::BadField { at });
    }
    Ok((shard, after))
}

fn is_taken(rows: &[Row], shard: u8) -> bool
    ensures { result ≡ has_shard shard rows.now }
{
    rows.iter().any(|row| row.shard == shard)
}

/// A ballot, and the entry that was voted at it.
#[tactic(auto, unfolding(crate::specs::Decoding::vote_at))]
pub(crate) fn vote_at(bytes: &[u8], at: usize) -> Read<(u32, Entry)>
    ensures { Gives result (vote_at bytes.now at) }
{
    let (ballot, at) = ballot_at(bytes, at)?;
    let (entry, at) = entry_at(bytes, at)?;
    Ok(((ballot, entry), at))
}
