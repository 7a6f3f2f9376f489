//! The lines of the head of a cluster, which scripts and plans begin with.

ghost use Rattle.std.specs.Prelude.{◌≡◌, length};
ghost use Rattle.script_text.specs.Words.{words_of};
ghost use Rattle.script_text.specs.Judged.{each, number_where, is_majority_size, version_of, version_in, seqs_in, shards_in, window_in, homes_of, clients_in, app_in, consumers_in};
ghost use Rattle.script_text.specs.Answers.{Tells, Says};
ghost use Rattle.quota_table.specs.Rows.{has_shard, IsTable};

use crate::decimal::{decimal, number_within};
use crate::errors::LineError;
use crate::kind::ScriptKind;
use crate::rows::window;
use crate::words::{after_due, both_words, first_word, next_word, only_word};
use msg_wire::Homes;
use quota_table::{Listed, Table};
use record_codec::AppKind;
use std::alloc::Global;

/// The first line, as `belfast 1`: the due word, and the version.
#[tactic(auto, unfolding(crate::specs::Judged::version_in))]
pub(crate) fn version_line(line: &[u8], due: &[u8]) -> Result<u8, LineError>
    ensures { Says result (version_in due.now line.now) }
{
    let rest = after_due(line, due)?;
    Ok(version(rest)?)
}

/// The version's number, 1, and no further word.
#[tactic(auto, unfolding(crate::specs::Judged::version_of))]
fn version(rest: &[u8]) -> Result<u8, ScriptKind>
    ensures { result ≡ version_of (words_of rest.now) }
{
    let Some((word, after)) = next_word(rest) else {
        return Err(ScriptKind::Header);
    };
    if decimal(word) != Some(1) {
        return Err(ScriptKind::Header);
    }
    match next_word(after) {
        None => Ok(1),
        Some(_) => Err(ScriptKind::Word),
    }
}

/// `seqs N`: 1, 3 or 5.
#[tactic(auto, unfolding(crate::specs::Judged::seqs_in))]
pub(crate) fn seqs_line(line: &[u8]) -> Result<u8, LineError>
    ensures { Says result (seqs_in line.now) }
{
    let rest = after_due(line, b"seqs")?;
    let word = only_word(rest)?;
    Ok(majority_size(word)?)
}

#[tactic(auto, unfolding(crate::specs::Judged::number_where))]
fn majority_size(word: &[u8]) -> Result<u8, ScriptKind>
    ensures { result ≡ number_where is_majority_size word.now }
{
    match decimal(word) {
        Some(1) => Ok(1),
        Some(3) => Ok(3),
        Some(5) => Ok(5),
        Some(_) => Err(ScriptKind::Range),
        None => Err(ScriptKind::Number),
    }
}

/// `shards S`: 1 to 6.
#[tactic(auto, unfolding(crate::specs::Judged::shards_in))]
pub(crate) fn shards_line(line: &[u8]) -> Result<u8, LineError>
    ensures { Says result (shards_in line.now) }
{
    let rest = after_due(line, b"shards")?;
    let word = only_word(rest)?;
    Ok(number_within(word, 1, 6)? as u8)
}

/// `window K s:q ..`: the rounds and the rows of the first window.
#[tactic(auto, unfolding(crate::specs::Judged::window_in))]
pub(crate) fn window_line(alloc: Global, line: &[u8], shards: u8) -> Result<(u16, Table), LineError>
    ensures { Says result (window_in shards line.now) }
{
    let rest = after_due(line, b"window")?;
    let (word, rest) = first_word(rest)?;
    window(alloc, word, rest, shards)
}

/// `clients h ..`: 1 to 6 homes, each the shard of a row.
#[tactic(auto, unfolding(crate::specs::Judged::clients_in))]
pub(crate) fn clients_line(alloc: Global, line: &[u8], table: &Table) -> Result<Homes, LineError>
    ensures { Says result (clients_in table.now line.now) }
{
    let rest = after_due(line, b"clients")?;
    homes(alloc, rest, table)
}

#[tactic(auto, unfolding(crate::specs::Judged::homes_of))]
fn homes(alloc: Global, rest: &[u8], table: &Table) -> Result<Homes, LineError>
    ensures { Says result (homes_of table.now (words_of rest.now)) }
{
    match count_words(rest) {
        1..=6 => each_home(alloc, rest, table),
        _ => Err(LineError::Refused(ScriptKind::Word)),
    }
}

pub(crate) fn count_words(line: &[u8]) -> usize
    ensures { result ≡ length (words_of line.now) }
{
    let mut count = 0;
    let mut left = line;
    while let Some((_word, rest)) = next_word(left) {
        count += 1;
        left = rest;
    }
    count
}

fn each_home(alloc: Global, line: &[u8], table: &Table) -> Result<Homes, LineError>
    ensures { Says result (each (number_where (λ home. has_shard home table.now)) (words_of line.now)) }
{
    let mut homes = Listed::new(alloc);
    let mut left = line;
    while let Some((word, rest)) = next_word(left) {
        homes.push(home(word, table)?)?;
        left = rest;
    }
    Ok(homes)
}

/// The shard of a row.
#[tactic(auto, unfolding(crate::specs::Judged::number_where))]
fn home(word: &[u8], table: &Table) -> Result<u8, ScriptKind>
    ensures { result ≡ number_where (λ home. has_shard home table.now) word.now }
{
    match decimal(word) {
        Some(shard) if is_row(shard, table) => Ok(shard as u8),
        Some(_) => Err(ScriptKind::Range),
        None => Err(ScriptKind::Number),
    }
}

fn is_row(shard: u64, table: &Table) -> bool
    ensures row { result ≡ has_shard shard table.now }
    ensures valid { IsTable table.now }
{
    table.rows().iter().any(|row| u64::from(row.shard) == shard)
}

/// `consumers N APP`: 1 to 4 of them, and what each runs.
#[tactic(auto, unfolding(crate::specs::Judged::consumers_in))]
pub(crate) fn consumers_line(line: &[u8]) -> Result<(u8, AppKind), LineError>
    ensures { Says result (consumers_in line.now) }
{
    let rest = after_due(line, b"consumers")?;
    let (count, name) = both_words(rest)?;
    let app = app(name)?;
    let count = number_within(count, 1, 4)?;
    Ok((count as u8, app))
}

#[tactic(auto, unfolding(crate::specs::Judged::app_in))]
fn app(name: &[u8]) -> Result<AppKind, ScriptKind>
    ensures { result ≡ app_in name.now }
{
    if name == b"tally".as_slice() {
        return Ok(AppKind::Tally);
    }
    if name == b"bank".as_slice() {
        return Ok(AppKind::Bank);
    }
    if name == b"kv".as_slice() {
        return Ok(AppKind::Kv);
    }
    Err(ScriptKind::Word)
}
