// Reading a vault file: the head, and then frame by frame up to a closed gate.
ghost use Rattle.std.specs.Prelude.{◌≡◌, ◌≤◌, ◌<◌, ◌+◌, ◌-◌, ◌^◌, ◌++◌, ◌∷◌, [], List, ℕ, Some, None, length, take, drop, slice_get, MatchOption, OnOk, IfSome, IfOk, IfErr, IsErrOf};
ghost use Rattle.spec_base.specs.Crash.{Only, NoneNew, Elapses};
ghost use Rattle.spec_base.specs.Faults.{StaysSound};
ghost use Rattle.gate_vault.specs.declared.errors.VaultError.TheVariants.{DiskFault};
ghost use Rattle.gate_vault.specs.Put.{FailedTwice};
ghost use Rattle.gate_vault.specs.Stops.{IsStop, IsLoadError};
ghost use Rattle.gate_vault.specs.inside.Stops.{IsStopOr, IsDamage, IsNoVault, WhereRead};
ghost use Rattle.gate_vault.specs.File.{head};
ghost use Rattle.gate_vault.specs.inside.Frames.{FrameRead, DiffersFirst, HeadRead, FileRead};

use crate::errors::VaultError;
use crate::frame_start::frame_start;
use crate::start::FrameStart;
use crate::twice::{read_twice, sync_twice};
use crate::vault::MOST_BYTES;
use quota_table::{Bytes, Listed};
use spec_base::Disk;
use std::alloc::Global;

/// The entries of a vault, in their order.
pub type Entries = Listed<Bytes>;

/// The file's first eight bytes.
const HEAD: [u8; 8] = [b'B', b'E', b'L', b'V', b'A', b'U', b'L', b'T'];

/// No file is so long that a gate stands here.
const MOST_GATE: u64 = 1 << 62;

#[tactic(auto, using(crate::proofs::Again::quiet_then))]
/// Reads `len` bytes from an offset on, or as many as there are.
pub fn read_bytes<D: Disk>(
    alloc: Global,
    disk: &mut D,
    at: u64,
    len: usize,
) -> Result<Bytes, VaultError>
    requires { at + len < 2 ^ 64 }
    ensures fault { IsErrOf result DiskFault → FailedTwice (D.faults disk.old) (D.faults disk.new) (D.in_a_row disk.new) }
    ensures no_fall { D.faults disk.old ≤ D.faults disk.new }
    ensures sound { StaysSound (D.never_fails disk.old) (D.never_fails disk.new) (D.faults disk.old) (D.faults disk.new) }
    ensures bytes { (file : List ℕ) → D.seen disk.old ≡ Some file → IfOk result (λ bytes. bytes ≡ take len (drop at file)) }
    ensures few { IfOk result (λ bytes. length bytes ≤ len) }
    ensures stopped { IfErr result IsStop }
    ensures seen { D.seen disk.new ≡ D.seen disk.old }
    ensures none_new { NoneNew (D.may_leave disk.old) (D.may_leave disk.new) }
    ensures time { Elapses (D.moment disk.old) (D.moment disk.new) (D.left_since disk.old) (D.left_since disk.new) (D.may_leave disk.old) }
{
    let mut bytes = Bytes::new(alloc);
    let mut piece = [0; 256];
    while bytes.len() < len {
        let count = read_twice(disk, at + bytes.len() as u64, &mut piece)?;
        if count == 0 {
            break;
        }
        bytes.extend_from_slice(&piece[..count.min(len - bytes.len())])?;
    }
    Ok(bytes)
}

#[tactic(auto, using(crate::proofs::Again::quiet_then))]
/// Reads one frame: None where no frame stands at the offset, but a closed gate or the end of the file.
pub fn read_frame<D: Disk>(
    alloc: Global,
    disk: &mut D,
    at: u64,
) -> Result<Option<Bytes>, VaultError>
    requires { at < 2 ^ 63 }
    ensures fault { IsErrOf result DiskFault → FailedTwice (D.faults disk.old) (D.faults disk.new) (D.in_a_row disk.new) }
    ensures no_fall { D.faults disk.old ≤ D.faults disk.new }
    ensures sound { StaysSound (D.never_fails disk.old) (D.never_fails disk.new) (D.faults disk.old) (D.faults disk.new) }
    ensures frame { (file : List ℕ) → D.seen disk.old ≡ Some file → FrameRead at file result }
    ensures short { IfOk result (λ frame. IfSome frame (λ entry. length entry ≤ 4096)) }
    ensures named { IsStopOr IsDamage result }
    ensures seen { D.seen disk.new ≡ D.seen disk.old }
    ensures none_new { NoneNew (D.may_leave disk.old) (D.may_leave disk.new) }
    ensures time { Elapses (D.moment disk.old) (D.moment disk.new) (D.left_since disk.old) (D.left_since disk.new) (D.may_leave disk.old) }
{
    let start = read_bytes(alloc, disk, at, 3)?;
    let len = match frame_start(start.as_slice()) {
        FrameStart::Closed => return Ok(None),
        FrameStart::Cut => return Err(VaultError::Damaged { at }),
        FrameStart::Payload(len) => len,
    };
    if len > MOST_BYTES {
        return Err(VaultError::Damaged { at });
    }
    let entry = read_bytes(alloc, disk, at + 3, len)?;
    if entry.len() < len {
        return Err(VaultError::Damaged { at });
    }
    Ok(Some(entry))
}

#[tactic(auto, using(crate::proofs::Again::quiet_then))]
/// Reads the frames behind the head, up to a closed gate, and answers their entries and where that gate stands. The disk
/// was synced before, so what is read stands.
pub fn read_entries<D: Disk>(alloc: Global, disk: &mut D) -> Result<(Entries, u64), VaultError>
    requires synced { (file : List ℕ) → D.seen disk.old ≡ Some file → Only file (D.may_leave disk.old) }
    ensures fault { IsErrOf result DiskFault → FailedTwice (D.faults disk.old) (D.faults disk.new) (D.in_a_row disk.new) }
    ensures no_fall { D.faults disk.old ≤ D.faults disk.new }
    ensures sound { StaysSound (D.never_fails disk.old) (D.never_fails disk.new) (D.faults disk.old) (D.faults disk.new) }
    ensures entries { (file : List ℕ) → D.seen disk.old ≡ Some file → take 8 file ≡ head → FileRead file result }
    ensures named { IsStopOr IsDamage result }
    ensures seen { D.seen disk.new ≡ D.seen disk.old }
    ensures none_new { NoneNew (D.may_leave disk.old) (D.may_leave disk.new) }
    ensures time { Elapses (D.moment disk.old) (D.moment disk.new) (D.left_since disk.old) (D.left_since disk.new) (D.may_leave disk.old) }
{
    let mut entries = Listed::new(alloc);
    let mut gate = 8;
    while gate < MOST_GATE {
        let Some(entry) = read_frame(alloc, disk, gate)? else {
            return Ok((entries, gate));
        };
        gate += 3 + entry.len() as u64;
        entries.push(entry)?;
    }
    Err(VaultError::OutOfMemory)
}

/// Where the first bytes of a file first differ from the head; None where they are the head.
fn head_fault(bytes: &[u8]) -> Option<usize>
    requires { length bytes.now ≤ 8 }
    ensures { MatchOption result (bytes.now ≡ head) (DiffersFirst bytes.now) }
{
    for i in 0..8 {
        match bytes.get(i) {
            Some(byte) if *byte == HEAD[i] => {}
            _ => return Some(i),
        }
    }
    None
}

/// Reads the first bytes of a file, which are to be the head.
fn check_head<D: Disk>(alloc: Global, disk: &mut D) -> Result<(), VaultError>
    requires synced { (file : List ℕ) → D.seen disk.old ≡ Some file → Only file (D.may_leave disk.old) }
    ensures fault { IsErrOf result DiskFault → FailedTwice (D.faults disk.old) (D.faults disk.new) (D.in_a_row disk.new) }
    ensures no_fall { D.faults disk.old ≤ D.faults disk.new }
    ensures sound { StaysSound (D.never_fails disk.old) (D.never_fails disk.new) (D.faults disk.old) (D.faults disk.new) }
    ensures head { (file : List ℕ) → D.seen disk.old ≡ Some file → HeadRead file result }
    ensures named { IsStopOr IsNoVault result }
    ensures seen { D.seen disk.new ≡ D.seen disk.old }
    ensures none_new { NoneNew (D.may_leave disk.old) (D.may_leave disk.new) }
    ensures time { Elapses (D.moment disk.old) (D.moment disk.new) (D.left_since disk.old) (D.left_since disk.new) (D.may_leave disk.old) }
{
    let start = read_bytes(alloc, disk, 0, 8)?;
    match head_fault(start.as_slice()) {
        None => Ok(()),
        Some(at) => Err(VaultError::NotAVault {
            at: at as u64,
            byte: start.as_slice().get(at).copied(),
        }),
    }
}

#[tactic(auto, using(crate::proofs::Again::quiet_then))]
/// Syncs, and reads the whole file.
pub fn read_file<D: Disk>(alloc: Global, disk: &mut D) -> Result<(Entries, u64), VaultError>
    ensures fault { IsErrOf result DiskFault → FailedTwice (D.faults disk.old) (D.faults disk.new) (D.in_a_row disk.new) }
    ensures no_fall { D.faults disk.old ≤ D.faults disk.new }
    ensures sound { StaysSound (D.never_fails disk.old) (D.never_fails disk.new) (D.faults disk.old) (D.faults disk.new) }
    ensures file { (file : List ℕ) → D.seen disk.old ≡ Some file → FileRead file result }
    ensures durable { (file : List ℕ) → D.seen disk.old ≡ Some file → WhereRead result (Only file (D.may_leave disk.new)) }
    ensures named { IfErr result IsLoadError }
    ensures seen { D.seen disk.new ≡ D.seen disk.old }
    ensures none_new { NoneNew (D.may_leave disk.old) (D.may_leave disk.new) }
    ensures time { Elapses (D.moment disk.old) (D.moment disk.new) (D.left_since disk.old) (D.left_since disk.new) (D.may_leave disk.old) }
{
    sync_twice(disk)?;
    check_head(alloc, disk)?;
    read_entries(alloc, disk)
}
