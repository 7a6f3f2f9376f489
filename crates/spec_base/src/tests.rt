ghost use Rattle.std.specs.Prelude.{ℕ, List, false, ◌≡◌, ◌≤◌, ◌<◌, ◌+◌, length, take, drop, OnOk, OnErr, IfOk, IsErrOf, IsTrue};
ghost use Rattle.std.specs.Io.KnownBytes.{prepend_known, append_known, IsAtEnd};
ghost use Rattle.spec_base.specs.Faults.{Rose};
ghost use Rattle.spec_base.specs.MemShelf.{is_out_of};
ghost use Rattle.spec_base.specs.declared.stop.Stop.TheVariants.{Failed};

use crate::{
    Disk, DiskFail, MemDisk, MemShelf, MemSink, MemSource, Shelf, Sink, Source, StdSink, StdSource,
    Stop,
};
use quota_table::Bytes;
use std::alloc::Global;
use std::io::{self, ErrorKind, Read, Write};
use std::test::Fail;

/// Reads a source to its end, or until `limit` bytes were read.
#[tactic(auto, using(crate::proofs::KnownBytes::given_more))]
fn read_all<S: Source>(alloc: Global, source: &mut S, limit: usize) -> Result<Bytes, Stop>
    ensures given { IfOk result (λ bytes. S.left source.old ≡ prepend_known bytes (S.left source.new)) }
    ensures end { IfOk result (λ bytes. length bytes < limit → IsAtEnd (S.left source.new)) }
    ensures no_fall { S.faults source.old ≤ S.faults source.new }
    ensures failed { IsErrOf result Failed → Rose (S.faults source.old) (S.faults source.new) }
    ensures sound { IsTrue (S.never_fails source.old) → S.faults source.new ≡ S.faults source.old }
{
    let mut bytes = Bytes::new(alloc);
    let mut piece = [0; 4];
    while bytes.len() < limit {
        let count = source.read(&mut piece)?;
        if count == 0 {
            break;
        }
        bytes.extend_from_slice(&piece[..count])?;
    }
    Ok(bytes)
}

/// Writes a text to its end.
#[tactic(auto, using(crate::proofs::KnownBytes::taken_more))]
fn write_all<S: Sink>(sink: &mut S, text: &[u8]) -> Result<(), Stop>
    ensures taken { OnOk result (S.taken sink.new ≡ append_known (S.taken sink.old) text.now) }
    ensures part { (n : _) × (n ≤ length text.now) × (S.taken sink.new ≡ append_known (S.taken sink.old) (take n text.now)) }
    ensures no_fall { S.faults sink.old ≤ S.faults sink.new }
    ensures failed { IsErrOf result Failed → Rose (S.faults sink.old) (S.faults sink.new) }
    ensures sound { IsTrue (S.never_fails sink.old) → S.faults sink.new ≡ S.faults sink.old }
{
    let mut done = 0;
    while done < text.len() {
        let (_, rest) = text.split_at(done);
        done += sink.write(rest)?;
    }
    Ok(())
}

/// Whether reading to the end gives these bytes, or a failure where none are given.
fn reads<S: Source>(alloc: Global, source: &mut S, limit: usize, want: Option<&[u8]>) -> bool {
    match read_all(alloc, source, limit) {
        Ok(bytes) => Some(bytes.as_slice()) == want,
        Err(stop) => stop == Stop::Failed && want.is_none(),
    }
}

/// Pieces of a source that has `belfast`, its calls that fail, a limit, and what two readings to the end give.
type Reading<'a> = (usize, &'a [u64], usize, Option<&'a [u8]>, Option<&'a [u8]>);

const READINGS: [Reading; 5] = [
    (3, &[], 100, Some(b"belfast"), Some(b"")),
    (3, &[], 5, Some(b"belfas"), Some(b"t")),
    (3, &[1], 100, None, Some(b"fast")),
    (3, &[1, 4], 100, None, None),
    (9, &[1], 100, None, Some(b"ast")),
];

#[test]
fn sources_in_memory(rt: HostRuntime) -> Result<(), Fail> {
    for (most, fails, limit, first, second) in READINGS {
        let mut source = MemSource::new(rt.alloc(), b"belfast", most, fails)?;
        let is_first = reads(rt.alloc(), &mut source, limit, first);
        let is_second = reads(rt.alloc(), &mut source, limit, second);
        assert!(rt;
            is_first && is_second,
            "pieces of {most}, failures at {fails:?}"
        );
    }
    Ok(())
}

/// A sink by pieces of 4, of which these calls fail: what it has taken of a text, and that it takes the rest.
fn takes(alloc: Global, fails: &[u64], taken: &[u8], rest: &[u8]) -> Result<bool, Fail> {
    let mut sink = MemSink::new(alloc, 4, fails)?;
    let is_whole = write_all(&mut sink, b"belfast") == Ok(());
    let has_taken = sink.taken() == taken;
    let takes_rest = write_all(&mut sink, rest) == Ok(());
    let has_all = sink.taken() == b"belfast".as_slice();
    Ok(is_whole == fails.is_empty() && has_taken && takes_rest && has_all)
}

#[test]
fn sinks_in_memory(rt: HostRuntime) -> Result<(), Fail> {
    assert!(rt; takes(rt.alloc(), &[], b"belfast", b"")?);
    assert!(rt; takes(rt.alloc(), &[1], b"belf", b"ast")?);
    Ok(())
}

/// A reader and a writer of std: two bytes, and then errors.
#[derive(Drop)]
struct Broken(u8);

impl Read for Broken {
    fn read(&mut self, into: &mut [u8]) -> io::Result<usize> {
        match into {
            [first, ..] if self.0 > 0 => {
                *first = self.0;
                self.0 -= 1;
                Ok(1)
            }
            _ => Err(ErrorKind::Other.into()),
        }
    }
}

impl Write for Broken {
    fn write(&mut self, piece: &[u8]) -> io::Result<usize> {
        if self.0 == 0 || piece.is_empty() {
            return Ok(0);
        }
        self.0 -= 1;
        Ok(1)
    }

    fn flush(&mut self) -> io::Result<()> {
        Ok(())
    }
}

#[test]
fn sources_over_std(rt: HostRuntime) {
    let alloc = rt.alloc();
    let mut whole = StdSource::new(b"belfast".as_slice());
    assert!(rt; reads(alloc, &mut whole, 100, Some(b"belfast")));
    assert!(rt; reads(alloc, &mut StdSource::new(Broken(2)), 100, None));
    assert!(rt; reads(alloc, &mut StdSource::new(Broken(2)), 2, Some(&[2, 1])));
}

#[test]
fn sinks_over_std(rt: HostRuntime) {
    assert_eq!(rt; write_all(&mut StdSink::new(Broken(2)), b"ab"), Ok(()));
    assert_eq!(rt;
        write_all(&mut StdSink::new(Broken(2)), b"abc"),
        Err(Stop::Failed)
    );
    assert_eq!(rt; StdSink::new(Broken(2)).write(b""), Ok(0));
}

/// A call of a disk.
#[derive(Clone, Copy)]
enum Call {
    /// Of at most 8 bytes from this place on.
    Read(u64),
    Write(u64, &'static [u8]),
    Sync,
}

/// Whether the call gives these bytes, none where it reads none, or fails where none are given.
fn answers(disk: &mut MemDisk, call: Call, want: Option<&[u8]>) -> bool {
    let mut piece = [0; 8];
    let found = match call {
        Call::Read(at) => disk.read(at, &mut piece),
        Call::Write(at, bytes) => disk.write_at(at, bytes).map(|_written| 0),
        Call::Sync => disk.sync().map(|_synced| 0),
    };
    match found {
        Ok(count) => want == Some(&piece[..count.min(8)]),
        Err(stop) => stop == Stop::Failed && want.is_none(),
    }
}

/// Writes over what is there and past the end; the third call fails.
const CALLS: [(Call, Option<&[u8]>); 6] = [
    (Call::Write(0, b"belfast"), Some(b"")),
    (Call::Write(2, b"LL"), Some(b"")),
    (Call::Write(2, b"xx"), None),
    (Call::Sync, Some(b"")),
    (Call::Read(1), Some(b"eLLast")),
    (Call::Read(7), Some(b"")),
];

#[test]
fn disks_in_memory(rt: HostRuntime) -> Result<(), Fail> {
    let mut disk = MemDisk::new(rt.alloc(), &[2])?;
    for (call, want) in CALLS {
        assert!(rt; answers(&mut disk, call, want));
    }
    assert_eq!(rt; disk.fault_count(), 1);
    Ok(())
}

/// A shelf whose disk `q0` fails at its second call.
fn shelf(alloc: Global) -> Result<MemShelf, Fail>
    ensures { IfOk result (λ shelf. (name : List ℕ) → is_out_of shelf name ≡ false) }
{
    let name = Bytes::from_slice(alloc, b"q0")?;
    Ok(MemShelf::new(alloc, &[DiskFail { name, call: 1 }])?)
}

/// A disk that comes back is given again, and its failing calls count over both times.
#[test]
fn shelves_in_memory(rt: HostRuntime) -> Result<(), Fail> {
    let mut shelf = shelf(rt.alloc())?;
    let mut first = shelf.disk("q0")?;
    assert!(rt; answers(&mut first, Call::Write(0, b"ab"), Some(b"")));
    shelf.back("q0", first);
    let mut again = shelf.disk("q0")?;
    for want in [None, Some(b"ab".as_slice())] {
        assert!(rt; answers(&mut again, Call::Read(0), want));
    }
    shelf.back("q0", again);
    Ok(())
}

#[test]
fn other_disks_of_a_shelf(rt: HostRuntime) -> Result<(), Fail> {
    let mut shelf = shelf(rt.alloc())?;
    let mut other = shelf.disk("s0p")?;
    for call in [Call::Sync, Call::Sync, Call::Read(0)] {
        assert!(rt; answers(&mut other, call, Some(b"")));
    }
    Ok(())
}
