//! The words of a line. A word that isn't what is looked for, or is out of range, is an error.

ghost use Rattle.std.specs.Prelude.{◌<◌, ◌≤◌, ◌^◌, IfOk};
ghost use Rattle.quota_table.specs.Rows.{IsTable};
ghost use Rattle.quota_table.specs.Entries.{AreRounds};
ghost use Rattle.msg_wire.specs.Valid.{IsBody, IsPlace};

use quota_table::{Asked, Table, check};
use record_codec::Body;
use std::alloc::Global;
use std::test::Fail;

/// The first word, and what follows the space behind it.
pub fn first(line: &str) -> (&str, &str) {
    line.split_once(' ').unwrap_or((line, ""))
}

/// A local, a number, a length or a position.
pub fn place(word: &str) -> Result<u64, Fail>
    ensures { IfOk result (λ place. IsPlace place) }
{
    let place = word.parse::<u32>().ok().ok_or("no place")?;
    Ok(u64::from(place))
}

/// Two such numbers, and what follows.
pub fn two_places(line: &str) -> Result<(u64, u64, &str), Fail>
    ensures { IfOk result (λ found. IsPlace found.0 × IsPlace found.1) }
{
    let (one, rest) = first(line);
    let (other, rest) = first(rest);
    Ok((place(one)?, place(other)?, rest))
}

/// A slot, a ballot or a window.
pub fn small(word: &str) -> Result<u32, Fail>
    ensures { IfOk result (λ number. number < 2 ^ 16) }
{
    let number = word.parse::<u16>().ok().ok_or("no number")?;
    Ok(u32::from(number))
}

/// Two such numbers, and what follows.
pub fn two_small(line: &str) -> Result<(u32, u32, &str), Fail>
    ensures { IfOk result (λ found. (found.0 < 2 ^ 16) × (found.1 < 2 ^ 16)) }
{
    let (one, rest) = first(line);
    let (other, rest) = first(rest);
    Ok((small(one)?, small(other)?, rest))
}

/// A shard's or a client's number.
pub fn shard(word: &str) -> Result<u8, Fail>
    ensures { IfOk result (λ shard. shard ≤ 5) }
{
    let shard = word.parse::<u8>().ok().ok_or("no shard")?;
    if shard > 5 {
        return Err("no shard".into());
    }
    Ok(shard)
}

/// The round of a cut.
pub fn round(word: &str) -> Result<u16, Fail>
    ensures { IfOk result (λ round. round < 1024) }
{
    let round = word.parse::<u16>().ok().ok_or("no round")?;
    if round >= 1024 {
        return Err("no round".into());
    }
    Ok(round)
}

/// The body of a text.
pub fn body(alloc: Global, text: &str) -> Result<Body, Fail>
    ensures { IfOk result (λ body. IsBody body) }
{
    Ok(Body::new(alloc, text.as_bytes())?)
}

/// The rounds of a window and its rows, each `SHARD:QUOTA`.
pub fn window(alloc: Global, line: &str) -> Result<(u16, Table), Fail>
    ensures { IfOk result (λ found. AreRounds found.0 × IsTable found.1) }
{
    let (rounds, rest) = first(line);
    let rounds = rounds.parse::<u16>().ok().ok_or("no rounds")?;
    if rounds == 0 || rounds > 1024 {
        return Err("no rounds".into());
    }
    let rows = rows(alloc, rest)?;
    let table = check(rows.as_slice())?;
    let _valid = table.rows();
    Ok((rounds, table))
}

/// Rows, each as `SHARD:QUOTA`.
pub fn rows(alloc: Global, line: &str) -> Result<Vec<Asked>, Fail> {
    let mut rows = Vec::new(alloc);
    for word in line.split(' ') {
        rows.push(row(word)?)?;
    }
    Ok(rows)
}

fn row(word: &str) -> Result<Asked, Fail> {
    let (shard, quota) = word.split_once(':').ok_or("no row")?;
    let shard = shard.parse::<u8>().ok().ok_or("no shard")?;
    let quota = quota.parse::<u32>().ok().ok_or("no quota")?;
    Ok(Asked { shard, quota })
}
