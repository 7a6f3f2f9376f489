ghost use Rattle.std.specs.Prelude.{◌≡◌, ◌≤◌, ◌+◌, ◌++◌, ℕ, List, length, take, IfOk, OnOk, OnErr};
ghost use Rattle.record_codec.specs.declared.record.Record.{Record};
ghost use Rattle.record_codec.specs.Records.{IsValidRecord, record_spelling};
ghost use Rattle.record_codec.specs.Reading.{three_of};
ghost use Rattle.record_codec.specs.Decoding.{Gives, client_at, count_at, body_at, record_at};

use crate::body::{Body, MOST_BODY};
use crate::errors::DecodeError;
use crate::fields::{
    Head, byte_at, eight_at, four_at, piece_at, put_byte, put_eight, put_four, put_two, two_at,
};
use crate::record::Record;
use quota_table::{Bytes, OutOfMemory};
use std::alloc::Global;

/// The greatest number of a record.
pub const MOST_NUMBER: u64 = 1 << 48;

/// Puts the spelling of a record at the end. At an error the bytes are as before.
#[tactic(auto, using(std::proofs::Common::append_assoc))]
pub fn encode(rec: &Record, into: &mut Bytes) -> Result<(), OutOfMemory>
    requires { IsValidRecord rec.now }
    ensures ok { OnOk result (into.new ≡ into.old ++ record_spelling rec.now) }
    ensures err { OnErr result (into.new ≡ into.old) }
{
    let mut head = Head::new();
    let body = put_record(&mut head, rec);
    into.extend_from_parts(head.as_slice(), body, &[])
}

/// Puts the fields of a record before its body at the end of a head, and gives the body.
#[tactic(auto, using(std::proofs::Common::append_assoc))]
pub fn put_record<'a>(head: &mut Head, rec: &'a Record) -> &'a [u8]
    requires { length head.old + 15 ≤ 40 }
    ensures bytes { head.new ++ result.now ≡ head.old ++ record_spelling rec.now }
    ensures len { length head.new ≤ length head.old + 15 }
{
    match rec {
        Record::Noop => {
            put_byte(head, 0);
            &[]
        }
        Record::Data {
            client,
            number,
            body,
        } => {
            put_byte(head, 1);
            put_four(head, *client);
            put_eight(head, *number);
            put_two(head, body.len() as u16);
            body.as_slice()
        }
    }
}

/// Reads the record at the front, and tells its length. Bytes may follow it. At an error other than `OutOfMemory` no
/// record stands there, and the error is the first fault from the left.
pub fn decode(alloc: Global, bytes: &[u8]) -> Result<(Record, usize), DecodeError>
    // What is read is a record, spelled at the front.
    ensures found { IfOk result (λ r. IsValidRecord r.0 × (take r.1 bytes.now ≡ record_spelling r.0)) }
    // A record whose spelling stands at the front is read, unless memory runs out.
    ensures only { (r : Record) (rest : List ℕ) → IsValidRecord r → bytes.now ≡ record_spelling r ++ rest → Gives result (Ok (r, length (record_spelling r))) }
    // Which fault it is.
    ensures exact { Gives result (record_at bytes.now 0) }
{
    record_at(alloc, bytes)
}

#[tactic(auto, unfolding(crate::specs::Decoding::record_at))]
fn record_at(alloc: Global, bytes: &[u8]) -> Result<(Record, usize), DecodeError>
    ensures { Gives result (record_at bytes.now 0) }
{
    let (tag, at) = byte_at(bytes, 0).ok_or(DecodeError::Short)?;
    match tag {
        0 => Ok((Record::Noop, at)),
        1 => data_at(alloc, bytes, at),
        tag => Err(DecodeError::BadTag { tag }),
    }
}

fn data_at(alloc: Global, bytes: &[u8], at: usize) -> Result<(Record, usize), DecodeError>
    ensures { Gives result (three_of client_at count_at body_at Record.Data bytes.now at) }
{
    let (client, at) = client_at(bytes, at)?;
    let (number, at) = count_at(bytes, at)?;
    let (body, at) = body_at(alloc, bytes, at)?;
    Ok((Record::data(client, number, body), at))
}

#[tactic(auto, unfolding(crate::specs::Decoding::client_at))]
fn client_at(bytes: &[u8], at: usize) -> Result<(u32, usize), DecodeError>
    ensures { Gives result (client_at bytes.now at) }
{
    let (client, after) = four_at(bytes, at).ok_or(DecodeError::Short)?;
    if client > 5 {
        return Err(DecodeError::BadField { at });
    }
    Ok((client, after))
}

#[tactic(auto, unfolding(crate::specs::Decoding::count_at))]
fn count_at(bytes: &[u8], at: usize) -> Result<(u64, usize), DecodeError>
    ensures { Gives result (count_at bytes.now at) }
{
    let (number, after) = eight_at(bytes, at).ok_or(DecodeError::Short)?;
    if number > MOST_NUMBER {
        return Err(DecodeError::BadField { at });
    }
    Ok((number, after))
}

#[tactic(auto, unfolding(crate::specs::Decoding::body_at, crate::specs::Decoding::len_at))]
fn body_at(alloc: Global, bytes: &[u8], at: usize) -> Result<(Body, usize), DecodeError>
    ensures { Gives result (body_at bytes.now at) }
{
    let (len, at) = two_at(bytes, at).ok_or(DecodeError::Short)?;
    if usize::from(len) > MOST_BODY {
        return Err(DecodeError::BodyTooLong { len });
    }
    let (body, at) = piece_at(bytes, at, usize::from(len)).ok_or(DecodeError::Short)?;
    let body = Body::of(alloc, body).map_err(|_| DecodeError::OutOfMemory)?;
    Ok((body, at))
}
