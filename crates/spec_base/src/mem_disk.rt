ghost use Rattle.std.specs.Prelude.{◌≡◌, ◌↔◌, ◌≤◌, ◌+◌, ◌-◌, ◌++◌, ◌∷◌, [], Some, Ok, Err, min, length, take, drop, replicate, vec_len, vec_capacity, if◌then◌else◌, IsTrue, MatchBool, OnOk, OnErr, IfOk, IsErrOf};
ghost use Rattle.spec_base.specs.Faults.{CountsFault, StaysSound, RoseByOne};
ghost use Rattle.spec_base.specs.Plan.{fresh_plan, fails_next, after_call, is_sound};
ghost use Rattle.spec_base.specs.Disk.{GivesPart, Written, Torn, CountsRow};
ghost use Rattle.spec_base.specs.Crash.{Only, SameOutcomes, NoneNew, Follows, Elapses};
ghost use Rattle.spec_base.specs.declared.stop.Stop.TheVariants.{Failed};
ghost use Rattle.spec_base.specs.MemDisk.{failures_in_a_row, overwritten, content_of, IsLeft, WasLeft};
ghost use Rattle.spec_base.specs.declared.disk_call.DiskCall.TheVariants.{Write, Sync};
ghost use Rattle.spec_base.specs.inside.MemDiskLaws.{content_is_left, now_was_left, only_last, at_most_two};

use crate::copying::copy_front;
use crate::disk::Disk;
use crate::disk_call::DiskCall;
use crate::plan::FailPlan;
use crate::stop::Stop;
use quota_table::{Bytes, OutOfMemory};
use std::alloc::{AllocError, Global};
use std::marker::Model;

/// A disk in memory, which tells its bytes, and fails at the calls that it was told to.
///
/// It keeps each write and each sync that it did, so that what a crash might have left can be told: every torn image
/// of the writes since the last sync.
#[derive(Debug, Drop)]
pub struct MemDisk {
    alloc: Global,
    content: Vec<u8>,
    /// The oldest first.
    calls: Vec<DiskCall>,
    plan: FailPlan,
    /// Failures in a row, 0 to 2.
    row: u8,
}

impl Model for MemDisk {
    ghost use Rattle.std.specs.Prelude.{◌≡◌, ◌≤◌, reverse};
    ghost use Rattle.spec_base.specs.MemDisk.{DiskMemory, content_of};

    ghost Value = { DiskMemory };

    ghost view = { λ d. record { calls = reverse d.calls.items; plan = d.plan; row = d.row } };

    ghost invariant = { λ d. (d.content.items ≡ content_of (reverse d.calls.items)) × (d.row ≤ 2) };
}

impl MemDisk {
    /// An empty disk. The calls whose numbers, from 0, are in `fails` answer Failed and change nothing but the count
    /// and the failures in a row; with an empty list none ever does.
    pub fn new(alloc: Global, fails: &[u64]) -> Result<MemDisk, OutOfMemory>
        ensures { IfOk result (λ disk. disk ≡ record { calls = []; plan = fresh_plan fails.now; row = 0 }) }
    {
        Ok(MemDisk {
            alloc,
            content: Vec::new(alloc),
            calls: Vec::new(alloc),
            plan: FailPlan::new(alloc, fails)?,
            row: 0,
        })
    }

    /// How often it has failed.
    pub fn fault_count(&self) -> u64
        ensures { result ≡ self.now.plan.faults }
    {
        self.plan.faults()
    }

    /// How many of its last calls failed one after the other, 0 to 2.
    pub fn failures_in_a_row(&self) -> u8
        ensures row { result ≡ self.now.row }
        ensures most { result ≤ 2 }
    {
        self.row
    }

    /// The bytes that a read gives.
    pub fn content(&self) -> &[u8]
        ensures { result.now ≡ content_of self.now.calls }
    {
        self.content.as_slice()
    }

    /// Counts one call, and a failure where the plan has it fail; says whether it fails.
    fn next_fails(&mut self) -> bool
        ensures fails { result ≡ fails_next self.old.plan }
        ensures next { self.new ≡ record {
          calls = self.old.calls;
          plan = after_call self.old.plan;
          row = if fails_next self.old.plan then min (self.old.row + 1) 2 else self.old.row;
        } }
        ensures count { MatchBool result (RoseByOne self.old.plan.faults self.new.plan.faults) (self.new.plan.faults ≡ self.old.plan.faults) }
    {
        let fails = self.plan.next_fails();
        if fails {
            self.row = one_more(self.row);
        }
        fails
    }
}

impl Disk for MemDisk {
    ghost seen = { λ d. Some (content_of d.calls) };

    ghost may_leave = { λ d. IsLeft d.calls };

    ghost moment = { λ d. length d.calls };

    ghost left_since = { λ d. WasLeft d.calls };

    ghost faults = { λ d. d.plan.faults };

    ghost in_a_row = { failures_in_a_row };

    ghost never_fails = { λ d. is_sound d.plan };

    ghost seen_is_left = { λ d. content_is_left d.calls };

    ghost counts_now = { λ d t c le left. now_was_left d.calls t c left };

    ghost only_now = { λ d. only_last d.calls };

    ghost two_in_a_row = { λ d. at_most_two d.row };

    /// It takes no memory, so it answers as the plan says.
    fn read(&mut self, at: u64, into: &mut [u8]) -> Result<usize, Stop>
        ensures answer { result ≡ (if fails_next self.old.plan then Err Failed
            else Ok (min (length (drop at (content_of self.old.calls))) (length into.old))) }
        ensures planned { self.new.plan ≡ after_call self.old.plan }
        ensures calls { self.new.calls ≡ self.old.calls }
        ensures count { CountsFault self.old.plan.faults self.new.plan.faults result }
        ensures row { CountsRow self.old.row self.new.row result }
        ensures sound { StaysSound (is_sound self.old.plan) (is_sound self.new.plan) self.old.plan.faults self.new.plan.faults }
        ensures time { Elapses (length self.old.calls) (length self.new.calls) (WasLeft self.old.calls) (WasLeft self.new.calls) (IsLeft self.new.calls) }
        ensures untouched { OnErr result (into.new ≡ into.old) }
        ensures behind { IfOk result (λ n. drop n into.new ≡ drop n into.old) }
        ensures fits { IfOk result (λ n. n ≤ length into.new) }
        ensures given { IfOk result (λ n. GivesPart at n into.new (content_of self.old.calls)) }
        ensures seen { Some (content_of self.new.calls) ≡ Some (content_of self.old.calls) }
        ensures crash { SameOutcomes (IsLeft self.old.calls) (IsLeft self.new.calls) }
    {
        if self.next_fails() {
            return Err(Stop::Failed);
        }
        self.row = 0;
        let start = self.content.len().min(at as usize);
        let (_, rest) = self.content.as_slice().split_at(start);
        Ok(copy_front(rest, usize::MAX, into))
    }

    /// It answers as the plan says, or for want of memory; at an error nothing is written.
    fn write_at(&mut self, at: u64, bytes: &[u8]) -> Result<(), Stop>
        ensures failed { IsErrOf result Failed ↔ IsTrue (fails_next self.old.plan) }
        ensures planned { self.new.plan ≡ after_call self.old.plan }
        ensures called { OnOk result (self.new.calls ≡ Write at bytes.now ∷ self.old.calls) }
        ensures err { OnErr result (self.new.calls ≡ self.old.calls) }
        ensures count { CountsFault self.old.plan.faults self.new.plan.faults result }
        ensures row { CountsRow self.old.row self.new.row result }
        ensures sound { StaysSound (is_sound self.old.plan) (is_sound self.new.plan) self.old.plan.faults self.new.plan.faults }
        ensures time { Elapses (length self.old.calls) (length self.new.calls) (WasLeft self.old.calls) (WasLeft self.new.calls) (IsLeft self.new.calls) }
        ensures written { OnOk result (Written at bytes.now (content_of self.old.calls) (content_of self.new.calls)) }
        ensures torn { OnErr result (Torn at (length bytes.now) (content_of self.old.calls) (content_of self.new.calls)) }
        ensures crash { Follows (Torn at (length bytes.now)) (IsLeft self.old.calls) (IsLeft self.new.calls) }
    {
        if self.next_fails() {
            // Nothing of it is written.
            return Err(Stop::Failed);
        }
        write_down(self.alloc, &mut self.content, &mut self.calls, at, bytes)?;
        self.row = 0;
        Ok(())
    }

    /// It answers as the plan says, or for want of memory.
    fn sync(&mut self) -> Result<(), Stop>
        ensures failed { IsErrOf result Failed ↔ IsTrue (fails_next self.old.plan) }
        ensures planned { self.new.plan ≡ after_call self.old.plan }
        ensures called { OnOk result (self.new.calls ≡ Sync ∷ self.old.calls) }
        ensures err { OnErr result (self.new.calls ≡ self.old.calls) }
        ensures count { CountsFault self.old.plan.faults self.new.plan.faults result }
        ensures row { CountsRow self.old.row self.new.row result }
        ensures sound { StaysSound (is_sound self.old.plan) (is_sound self.new.plan) self.old.plan.faults self.new.plan.faults }
        ensures time { Elapses (length self.old.calls) (length self.new.calls) (WasLeft self.old.calls) (WasLeft self.new.calls) (IsLeft self.new.calls) }
        ensures durable { OnOk result (Only (content_of self.old.calls) (IsLeft self.new.calls)) }
        ensures seen { Some (content_of self.new.calls) ≡ Some (content_of self.old.calls) }
        ensures none_new { NoneNew (IsLeft self.old.calls) (IsLeft self.new.calls) }
        ensures crash { OnErr result (SameOutcomes (IsLeft self.old.calls) (IsLeft self.new.calls)) }
    {
        if self.next_fails() {
            return Err(Stop::Failed);
        }
        self.calls.push(DiskCall::Sync)?;
        self.row = 0;
        Ok(())
    }
}

/// Failures in a row, after one more.
fn one_more(row: u8) -> u8
    ensures { result ≡ min (row + 1) 2 }
{
    if row < 2 { row + 1 } else { 2 }
}

/// Writes the bytes, and keeps the call. At an error nothing changes.
fn write_down(
    alloc: Global,
    content: &mut Vec<u8>,
    calls: &mut Vec<DiskCall>,
    at: u64,
    bytes: &[u8],
) -> Result<(), OutOfMemory>
    ensures content { OnOk result (content.new.items ≡ overwritten at bytes.now content.old.items) }
    ensures calls { OnOk result (calls.new.items ≡ calls.old.items ++ Write at bytes.now ∷ []) }
    ensures err_content { OnErr result (content.new.items ≡ content.old.items) }
    ensures err_calls { OnErr result (calls.new.items ≡ calls.old.items) }
{
    let call = DiskCall::Write {
        at,
        bytes: Bytes::from_slice(alloc, bytes)?,
    };
    calls.reserve(1)?;
    overwrite(content, at as usize, bytes)?;
    keep(calls, call);
    Ok(())
}

/// Puts a call at the end of the list, which has room for it.
fn keep(calls: &mut Vec<DiskCall>, call: DiskCall)
    requires { vec_len calls.old + 1 ≤ vec_capacity calls.old }
    ensures { calls.new.items ≡ calls.old.items ++ call ∷ [] }
{
    let Ok(()) = calls.push(call) else {
        unreachable!()
    };
}

#[tactic(auto, using(crate::proofs::MemDiskLemmas::put_over))]
/// Puts the bytes at an offset over what is there, after zeros where it is past the end. At an error nothing changes.
fn overwrite(content: &mut Vec<u8>, at: usize, bytes: &[u8]) -> Result<(), AllocError>
    ensures ok { OnOk result (content.new.items ≡ overwritten at bytes.now content.old.items) }
    ensures err { OnErr result (content.new.items ≡ content.old.items) }
{
    let end = at.checked_add(bytes.len()).ok_or(AllocError)?;
    lengthen(content, end)?;
    put(content, at, bytes);
    Ok(())
}

/// Puts zeros at the end, up to this length. At an error nothing changes.
fn lengthen(content: &mut Vec<u8>, len: usize) -> Result<(), AllocError>
    ensures ok { OnOk result (content.new.items ≡ content.old.items ++ replicate (len - length content.old.items) 0) }
    ensures err { OnErr result (content.new.items ≡ content.old.items) }
{
    if content.len() < len {
        content.resize(len, 0)?;
    }
    Ok(())
}

/// Puts the bytes at an offset over what is there.
fn put(content: &mut Vec<u8>, at: usize, bytes: &[u8])
    requires { at + length bytes.now ≤ length content.old.items }
    ensures { content.new.items ≡ take at content.old.items ++ bytes.now ++ drop (at + length bytes.now) content.old.items }
{
    content[at..at + bytes.len()].copy_from_slice(bytes);
}
