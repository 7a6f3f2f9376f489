ghost use Rattle.std.specs.Prelude.{◌≡◌, ◌≤◌, ◌<◌, ◌^◌, length, IsSome, IfOk, OnOk, OnErr};
ghost use Rattle.std.specs.Option.{option_copied};
ghost use Rattle.spec_delivery.specs.Lanes.{IsInReach, HoldsInReach, is_kept};
ghost use Rattle.spec_delivery.specs.Buffers.{fresh_buffer, lane_of, record_at, answer_to, with_record, with_floor, with_end, without_records};

use crate::lane::Lane;
use crate::put::Put;
use quota_table::OutOfMemory;
use record_codec::Record;
use std::alloc::Global;
use std::marker::Model;

/// The records of six shards that were delivered before their turn.
#[derive(Debug, Drop)]
pub struct Buffer {
    lanes: [Lane; 6],
}

impl Model for Buffer {
    ghost use Rattle.std.specs.Prelude.{List};
    ghost use Rattle.spec_delivery.specs.Lanes.{LaneState};

    ghost Value = { List LaneState };

    ghost view = { λ b. b.lanes };
}

impl Buffer {
    /// A buffer of six shards, of which nothing is confirmed or held.
    ///
    /// The answer has an error for a buffer that takes all its memory here, so that callers stay as they are with one. This one
    /// takes its memory in [`Buffer::put`], and none here.
    pub fn new(alloc: Global) -> Result<Buffer, OutOfMemory>
        ensures { IfOk result (λ buffer. buffer ≡ fresh_buffer) }
    {
        Ok(Buffer {
            lanes: [
                Lane::new(alloc),
                Lane::new(alloc),
                Lane::new(alloc),
                Lane::new(alloc),
                Lane::new(alloc),
                Lane::new(alloc),
            ],
        })
    }

    /// Holds a copy of a record, and says what became of it. At an error all is as before.
    pub fn put(&mut self, shard: u8, local: u64, rec: &Record) -> Result<Put, OutOfMemory>
        requires { shard ≤ 5 }
        ensures answer { IfOk result (λ put. put ≡ answer_to self.old shard local) }
        ensures buffer { OnOk result (self.new ≡ with_record self.old shard local rec.now) }
        ensures err { OnErr result (self.new ≡ self.old) }
    {
        self.lanes[usize::from(shard)].put(local, rec)
    }

    /// The record that is held of a shard at a local; None exactly where none is.
    pub fn at(&self, shard: u8, local: u64) -> Option<&Record>
        requires { shard ≤ 5 }
        ensures value { option_copied result ≡ record_at self.now shard local }
        ensures reach { IsSome (record_at self.now shard local) → IsInReach (lane_of self.now shard) local }
    {
        self.lanes[usize::from(shard)].at(local)
    }

    /// Whether a record of a shard that is put at a local would be kept: the local is in reach and before the shard's end, and none
    /// is held there.
    pub fn wants(&self, shard: u8, local: u64) -> bool
        requires { shard ≤ 5 }
        ensures { result ≡ is_kept (answer_to self.now shard local) }
    {
        self.lanes[usize::from(shard)].wants(local)
    }

    /// A shard's floor: how many of its locals are confirmed, at most 2^48. What is held of the shard is in reach, and so at most
    /// 640 records.
    pub fn floor(&self, shard: u8) -> u64
        requires { shard ≤ 5 }
        ensures floor { result ≡ (lane_of self.now shard).floor }
        ensures within { result ≤ 2 ^ 48 }
        ensures reach { HoldsInReach (lane_of self.now shard) }
        ensures few { length (lane_of self.now shard).held ≤ 640 }
    {
        self.lanes[usize::from(shard)].floor()
    }

    /// A shard's final local end; None until [`Buffer::close`] sets it.
    pub fn end(&self, shard: u8) -> Option<u64>
        requires { shard ≤ 5 }
        ensures { result ≡ (lane_of self.now shard).end }
    {
        self.lanes[usize::from(shard)].end()
    }

    /// Adds one to a shard's floor, and drops what is below it.
    pub fn raise(&mut self, shard: u8)
        requires shard { shard ≤ 5 }
        requires floor { (lane_of self.old shard).floor < 2 ^ 48 }
        ensures { self.new ≡ with_floor self.old shard }
    {
        self.lanes[usize::from(shard)].raise();
    }

    /// Sets a shard's end, and drops what is at or past it.
    pub fn close(&mut self, shard: u8, end: u64)
        requires { shard ≤ 5 }
        ensures { self.new ≡ with_end self.old shard end }
    {
        self.lanes[usize::from(shard)].close(end);
    }

    /// Drops all that is held; floors and ends stay.
    pub fn clear(&mut self)
        ensures { self.new ≡ without_records self.old }
    {
        clear_all(&mut self.lanes);
    }
}

fn clear_all(lanes: &mut [Lane])
    ensures { lanes.new ≡ without_records lanes.old }
{
    for lane in lanes.iter_mut() {
        lane.clear();
    }
}
