ghost use Rattle.std.specs.Prelude.{◌≡◌, ℕ, ◌+◌, ◌<◌, ◌≤◌, ◌^◌, ◌++◌, ◌∷◌, [], length, take, slice_get, IfOk, OnOk, OnErr, IfSome, All, slice_index_or};
ghost use Rattle.std.specs.Option.{option_copied, option_to_list};
ghost use Rattle.record_codec.specs.declared.record.Record.TheVariants.{Data};
ghost use Rattle.shard_log.specs.declared.index.Place.{Place as PlaceOf};
ghost use Rattle.record_codec.specs.Records.{IsValidRecord};
ghost use Rattle.shard_log.specs.inside.Places.{places_of, place_by};
ghost use Rattle.shard_log.specs.ShardLog.{last_of, next_of, local_of, append_from_answer, append_from_log, append_noop_log, append_at_answer, append_at_log};

use crate::answers::{Appended, Grown};
use crate::index::{ClientIndex, Place};
use quota_table::OutOfMemory;
use record_codec::{Body, Record};
use std::alloc::Global;
use std::marker::Model;

/// A shard's log: a list of records, each at its local, that only grows at its end.
/// Contracts see it as that list.
///
/// Every record is valid: its client is at most 5, its number at most 2^48.
/// Each call costs O(log n) in the log's length.
#[derive(Debug, Drop)]
pub struct ShardLog {
    records: Vec<Record>,
    /// The places of each client's records, by client.
    clients: [ClientIndex; 6],
}

impl Model for ShardLog {
    ghost use Rattle.std.specs.Prelude.{List};
    ghost use Rattle.record_codec.specs.declared.record.Record.{Record};

    ghost Value = { List Record };

    ghost use Rattle.shard_log.specs.inside.Kept.{IsIndexed};

    ghost view = { λ l. l.records.items };

    ghost invariant = { λ l. IsIndexed l.records.items l.clients };
}

impl ShardLog {
    /// The empty log. It takes no memory.
    pub fn new(alloc: Global) -> ShardLog
        ensures { result ≡ [] }
    {
        ShardLog {
            records: Vec::new(alloc),
            clients: [
                ClientIndex::new(alloc),
                ClientIndex::new(alloc),
                ClientIndex::new(alloc),
                ClientIndex::new(alloc),
                ClientIndex::new(alloc),
                ClientIndex::new(alloc),
            ],
        }
    }

    /// How many records the log has: the local of the next one.
    pub fn len(&self) -> u64
        ensures len { result ≡ length self.now }
        ensures valid { All IsValidRecord self.now }
    {
        self.records.len() as u64
    }

    /// The record at `local`. None at or past the end.
    pub fn get(&self, local: u64) -> Option<&Record>
        ensures record { option_copied result ≡ slice_get self.now local }
        ensures valid { IfSome result (λ rec. IsValidRecord rec.now) }
    {
        self.records.get(local as usize)
    }

    /// One more than the client's last number among the locals below `end`. None exactly where it has none there.
    pub fn next_of(&self, client: u32, end: u64) -> Option<u64>
        requires { client ≤ 5 }
        ensures { result ≡ next_of client (take end self.now) }
    {
        Some(self.last_of(client, end)? + 1)
    }

    /// The least local at which the client's number stands.
    pub fn local_of(&self, client: u32, number: u64) -> Option<u64>
        requires { client ≤ 5 }
        ensures { result ≡ local_of client number self.now }
    {
        self.index_of(client).local_of(number)
    }

    /// Takes a client's record at the end where its number is the client's next one, or `first` where the client
    /// has no record. At every other answer, an error too, the log is as before.
    pub fn append_from(
        &mut self,
        client: u32,
        first: u64,
        number: u64,
        body: Body,
    ) -> Result<Appended, OutOfMemory>
        requires client { client ≤ 5 }
        requires number { number < 2 ^ 48 }
        requires room { length self.old < 2 ^ 48 }
        ensures answer { IfOk result (λ answer. answer ≡ append_from_answer client first number self.old) }
        ensures ok { OnOk result (self.new ≡ append_from_log client first number body self.old) }
        ensures err { OnErr result (self.new ≡ self.old) }
    {
        let expected = self.next_of(client, self.len()).unwrap_or(first);
        if number == expected {
            let local = self.push(data(client, number, body))?;
            return Ok(Appended::Taken { local });
        }
        Ok(match self.local_of(client, number) {
            Some(local) => Appended::Duplicate { local },
            None => Appended::Gap { expected },
        })
    }

    /// Puts a record that fills a place at the end, and tells its local. At an error the log is as before.
    pub fn append_noop(&mut self) -> Result<u64, OutOfMemory>
        ensures local { IfOk result (λ local. local ≡ length self.old) }
        ensures ok { OnOk result (self.new ≡ append_noop_log self.old) }
        ensures err { OnErr result (self.new ≡ self.old) }
    {
        self.push(Record::Noop)
    }

    /// Puts a record at the end where `local` is the log's length. At every other answer, an error too, the log
    /// is as before.
    pub fn append_at(&mut self, local: u64, rec: Record) -> Result<Grown, OutOfMemory>
        requires { IsValidRecord rec }
        ensures answer { IfOk result (λ answer. answer ≡ append_at_answer local self.old) }
        ensures ok { OnOk result (self.new ≡ append_at_log local rec self.old) }
        ensures err { OnErr result (self.new ≡ self.old) }
    {
        if local != self.len() {
            return Ok(Grown::Stays { len: self.len() });
        }
        self.push(rec)?;
        Ok(Grown::Grown { len: self.len() })
    }

    /// Puts a record at the end, and tells its local.
    fn push(&mut self, rec: Record) -> Result<u64, OutOfMemory>
        requires { IsValidRecord rec }
        ensures local { IfOk result (λ local. local ≡ length self.old) }
        ensures ok { OnOk result (self.new ≡ self.old ++ rec ∷ []) }
        ensures err { OnErr result (self.new ≡ self.old) }
    {
        self.records.reserve(1)?;
        let local = self.records.len() as u64;
        note_place(&mut self.clients, local, &rec)?;
        let Ok(()) = self.records.push(rec) else {
            unreachable!()
        };
        Ok(local)
    }

    /// The client's last number among the locals below `end`.
    fn last_of(&self, client: u32, end: u64) -> Option<u64>
        requires { client ≤ 5 }
        ensures last { result ≡ last_of client (take end self.now) }
        ensures small { IfSome result (λ number. number ≤ 2 ^ 48) }
    {
        self.index_of(client).last_below(end)
    }

    /// The places of the client's records.
    fn index_of(&self, client: u32) -> &ClientIndex
        requires { client ≤ 5 }
        ensures places { result.now ≡ places_of client self.now }
        ensures valid { All IsValidRecord self.now }
    {
        &self.clients[client as usize]
    }
}

/// A client's record. Its body is within the limit, as every body is.
pub fn data(client: u32, number: u64, body: Body) -> Record
    requires client { client ≤ 5 }
    requires number { number ≤ 2 ^ 48 }
    ensures record { result ≡ Data client number body }
    ensures valid { IsValidRecord result }
{
    let _len = body.len();
    Record::Data {
        client,
        number,
        body,
    }
}

/// Notes where a record stands, in its client's list. At an error nothing changes.
fn note_place(clients: &mut [ClientIndex; 6], local: u64, rec: &Record) -> Result<(), OutOfMemory>
    requires valid { IsValidRecord rec.now }
    requires above { (client : ℕ) → client < 6 → All (λ (p : PlaceOf). p.local ≤ local) (slice_index_or clients.old client []) }
    ensures ok { OnOk result ((client : ℕ) → client < 6 → slice_index_or clients.new client [] ≡ slice_index_or clients.old client [] ++ option_to_list (place_by client local rec.now)) }
    ensures err { OnErr result (clients.new ≡ clients.old) }
{
    let Record::Data { client, number, .. } = rec else {
        return Ok(());
    };
    let index = &mut clients[*client as usize];
    index.push(Place {
        local,
        number: *number,
    })
}
