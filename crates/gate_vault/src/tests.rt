use crate::{Entries, Vault, VaultError};
use quota_table::{Bytes, OutOfMemory};
use spec_base::{Disk, MemDisk};
use std::alloc::Global;
use std::process::Abort;
use std::test::Fail;

/// A vault on a disk that fails at these calls: 0 and 1 are those of the format.
fn formatted(alloc: Global, fails: &[u64]) -> Result<Vault<MemDisk>, VaultError> {
    let disk = MemDisk::new(alloc, fails)?;
    Vault::format(alloc, disk).map_err(|refused| refused.1)
}

/// A disk with these bytes, written by its call 0.
fn disk_of(alloc: Global, file: &[u8], fails: &[u64]) -> Result<MemDisk, VaultError> {
    let mut disk = MemDisk::new(alloc, fails)?;
    disk.write_at(0, file)?;
    Ok(disk)
}

/// The entries one after the other, a semicolon behind each.
fn text_of(alloc: Global, entries: &Entries) -> Result<Bytes, OutOfMemory> {
    let mut text = Bytes::new(alloc);
    for entry in entries.iter() {
        text.extend_from_slice(entry.as_slice())?;
        text.push(b';')?;
    }
    Ok(text)
}

/// The vault of a disk, and the text of its entries.
fn load(alloc: Global, disk: MemDisk) -> Result<(Vault<MemDisk>, Bytes), VaultError> {
    let (vault, entries) = Vault::load(alloc, disk).map_err(|refused| refused.1)?;
    let text = text_of(alloc, &entries)?;
    Ok((vault, text))
}

/// So many bytes of 07.
fn sevens(alloc: Global, count: usize) -> Result<Bytes, OutOfMemory> {
    let mut bytes = Bytes::new(alloc);
    for _ in 0..count {
        bytes.push(7)?;
    }
    Ok(bytes)
}

#[test]
fn files_byte_by_byte(rt: HostRuntime) -> Result<(), Fail> {
    let alloc = rt.alloc();
    let mut vault = formatted(alloc, &[])?;
    vault.append(b"ab")?;
    let disk = vault.into_disk();
    assert_eq!(rt; disk.content(), b"BELVAULT\x01\x00\x02ab\x00".as_slice());
    let disk = formatted(alloc, &[])?.into_disk();
    assert_eq!(rt; disk.content(), b"BELVAULT\x00".as_slice());
    Ok(())
}

/// What stood there before is written over, up to the gate.
#[test]
fn formats_over_a_file(rt: HostRuntime) -> Result<(), Fail> {
    let alloc = rt.alloc();
    let old = disk_of(alloc, b"BELVAULT\x01\x00\x02ab\x00", &[])?;
    let vault = Vault::format(alloc, old).map_err(|refused| refused.1)?;
    let disk = vault.into_disk();
    assert_eq!(rt; disk.content(), b"BELVAULT\x00\x00\x02ab\x00".as_slice());
    Ok(())
}

/// A vault whose append of `ab` is stopped by two failures in a row is broken. Its disk comes back.
fn stopped(rt: &impl Abort, alloc: Global, fails: &[u64]) -> Result<MemDisk, VaultError> {
    let mut vault = formatted(alloc, fails)?;
    assert_eq!(rt; vault.append(b"ab"), Err(VaultError::DiskFault));
    assert_eq!(rt; vault.append(b"ab"), Err(VaultError::Broken));
    let disk = vault.into_disk();
    assert_eq!(rt; disk.fault_count(), 2);
    Ok(disk)
}

/// An append of `c` to the vault of this disk.
fn continued(alloc: Global, disk: MemDisk) -> Result<MemDisk, VaultError> {
    let (mut vault, _) = load(alloc, disk)?;
    vault.append(b"c")?;
    Ok(vault.into_disk())
}

/// One of the four device calls of an append fails, and its repeat too: a load tells whether the entry is kept, and a
/// further append goes over what follows the last kept frame.
#[test]
fn stopped_appends(rt: HostRuntime) -> Result<(), Fail> {
    let alloc = rt.alloc();
    let cases = [
        (
            [2, 3],
            b"c;".as_slice(),
            b"BELVAULT\x01\x00\x01c\x00".as_slice(),
        ),
        (
            [3, 4],
            b"c;".as_slice(),
            b"BELVAULT\x01\x00\x01c\x00\x00".as_slice(),
        ),
        (
            [4, 5],
            b"c;".as_slice(),
            b"BELVAULT\x01\x00\x01c\x00\x00".as_slice(),
        ),
        (
            [5, 6],
            b"ab;c;".as_slice(),
            b"BELVAULT\x01\x00\x02ab\x01\x00\x01c\x00".as_slice(),
        ),
    ];
    for (fails, entries, file) in cases {
        let disk = continued(alloc, stopped(&rt, alloc, &fails)?)?;
        assert_eq!(rt; disk.content(), file);
        let (_, text) = load(alloc, disk)?;
        assert_eq!(rt; text.as_slice(), entries);
    }
    Ok(())
}

/// Two appends with a load between them, on a disk that fails at one call.
fn survived(rt: &impl Abort, alloc: Global, call: u64) -> Result<MemDisk, VaultError> {
    let mut vault = formatted(alloc, &[call])?;
    vault.append(b"ab")?;
    let (mut vault, text) = load(alloc, vault.into_disk())?;
    assert_eq!(rt; text.as_slice(), b"ab;".as_slice(), "at {call}");
    vault.append(b"")?;
    Ok(vault.into_disk())
}

/// A call that fails once is made again: each of a format (2), an append (4), a load (6) and a further append (4).
#[test]
fn single_failures_are_survived(rt: HostRuntime) -> Result<(), Fail> {
    let alloc = rt.alloc();
    for call in 0..16 {
        let disk = survived(&rt, alloc, call)?;
        assert_eq!(rt; disk.fault_count(), 1, "at {call}");
        assert_eq!(rt;
            disk.content(),
            b"BELVAULT\x01\x00\x02ab\x01\x00\x00\x00".as_slice(),
            "at {call}"
        );
    }
    Ok(())
}

/// A format makes two device calls and an append four, so the one after these does not fail.
#[test]
fn four_calls_an_append(rt: HostRuntime) -> Result<(), Fail> {
    let alloc = rt.alloc();
    for (call, faults) in [(1, 1), (2, 1), (5, 1), (6, 0)] {
        let mut vault = formatted(alloc, &[call])?;
        vault.append(b"ab")?;
        let disk = vault.into_disk();
        assert_eq!(rt; disk.fault_count(), faults, "at {call}");
    }
    Ok(())
}

/// Two failures in a row, of a format and of a load, are a disk fault. A load has the sync, the read of the head, two
/// reads of the frame, and two of the end.
#[test]
fn disk_faults(rt: HostRuntime) -> Result<(), Fail> {
    let alloc = rt.alloc();
    for call in 0..2 {
        let refused = formatted(alloc, &[call, call + 1]).err();
        assert_eq!(rt; refused, Some(VaultError::DiskFault), "format at {call}");
    }
    for call in 1..7 {
        let disk = disk_of(alloc, b"BELVAULT\x01\x00\x02ab\x00", &[call, call + 1])?;
        let refused = load(alloc, disk).err();
        assert_eq!(rt; refused, Some(VaultError::DiskFault), "load at {call}");
    }
    Ok(())
}

#[test]
fn files_that_are_read(rt: HostRuntime) -> Result<(), Fail> {
    let alloc = rt.alloc();
    let cases = [
        (b"BELVAULT".as_slice(), b"".as_slice()),
        (b"BELVAULT\x00".as_slice(), b"".as_slice()),
        (b"BELVAULT\x02\x00\x01a".as_slice(), b"".as_slice()),
        (
            b"BELVAULT\x01\x00\x00\x01\x00\x01a".as_slice(),
            b";a;".as_slice(),
        ),
        (
            b"BELVAULT\x01\x00\x00\x01\x00\x01a\xff\x01".as_slice(),
            b";a;".as_slice(),
        ),
        (
            b"BELVAULT\x01\x00\x02ab\x01\x00\x00\x01\x00\x03\x01\x02\x03\x00junk".as_slice(),
            b"ab;;\x01\x02\x03;".as_slice(),
        ),
    ];
    for (file, entries) in cases {
        let (vault, text) = load(alloc, disk_of(alloc, file, &[])?)?;
        assert_eq!(rt; text.as_slice(), entries);
        assert_eq!(rt; vault.into_disk().content(), file);
    }
    Ok(())
}

/// Why a load refuses this file.
fn refusal(alloc: Global, file: &[u8]) -> Result<Option<VaultError>, VaultError> {
    let disk = disk_of(alloc, file, &[])?;
    Ok(load(alloc, disk).err())
}

#[test]
fn files_that_are_no_vaults(rt: HostRuntime) -> Result<(), Fail> {
    let alloc = rt.alloc();
    let cases = [
        (b"".as_slice(), 0, None),
        (b"BEL".as_slice(), 3, None),
        (b"BELVAUL?".as_slice(), 7, Some(0x3f)),
        (b"belvault\x00".as_slice(), 0, Some(0x62)),
    ];
    for (file, at, byte) in cases {
        let refused = refusal(alloc, file)?;
        assert_eq!(rt; refused, Some(VaultError::NotAVault { at, byte }));
    }
    Ok(())
}

#[test]
fn files_that_are_damaged(rt: HostRuntime) -> Result<(), Fail> {
    let alloc = rt.alloc();
    let cases = [
        (b"BELVAULT\x01".as_slice(), 8),
        (b"BELVAULT\x01\x00".as_slice(), 8),
        (b"BELVAULT\x01\x00\x03ab".as_slice(), 8),
        (b"BELVAULT\x01\x00\x02ab\x01\x00\x01".as_slice(), 13),
        (b"BELVAULT\x01\x00\x00\x01\xff\xff\x00".as_slice(), 11),
    ];
    for (file, at) in cases {
        let refused = refusal(alloc, file)?;
        assert_eq!(rt; refused, Some(VaultError::Damaged { at }));
    }
    Ok(())
}

/// An entry of 4,096 bytes is kept and given back; one of 4,097 is too long.
#[test]
fn longest_entries(rt: HostRuntime) -> Result<(), Fail> {
    let alloc = rt.alloc();
    let long = sevens(alloc, 4097)?;
    let mut vault = formatted(alloc, &[])?;
    let refused = vault.append(long.as_slice());
    assert_eq!(rt; refused, Err(VaultError::TooLong { len: 4097 }));
    let mut want = sevens(alloc, 4096)?;
    vault.append(want.as_slice())?;
    let (mut vault, _) = load(alloc, vault.into_disk())?;
    vault.append(b"a")?;
    let (_, text) = load(alloc, vault.into_disk())?;
    want.extend_from_slice(b";a;")?;
    assert_eq!(rt; text, want);
    Ok(())
}

/// A length of 4,097 is too great, though its bytes are there.
#[test]
fn too_long_a_length(rt: HostRuntime) -> Result<(), Fail> {
    let alloc = rt.alloc();
    let mut file = Bytes::from_slice(alloc, b"BELVAULT\x01\x10\x01")?;
    file.extend_from_slice(sevens(alloc, 4097)?.as_slice())?;
    let refused = refusal(alloc, file.as_slice())?;
    assert_eq!(rt; refused, Some(VaultError::Damaged { at: 8 }));
    Ok(())
}
