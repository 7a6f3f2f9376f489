//! Rows of a window.

ghost use Rattle.std.specs.Prelude.{◌≡◌, ◌==◌, [], ◌∷◌, position};
ghost use Rattle.script_text.specs.Words.{words_of};
ghost use Rattle.script_text.specs.Judged.{asked_of, asked_in, rows_in, window_of, each};
ghost use Rattle.script_text.specs.Answers.{Says};

use crate::decimal::{decimal, number_within};
use crate::errors::LineError;
use crate::kind::ScriptKind;
use crate::words::next_word;
use quota_table::{Asked, Listed, Table, check};
use std::alloc::Global;

/// The greatest quota that can be asked for.
const MOST_QUOTA: u64 = 4_294_967_295;

/// Rounds and rows, of a cluster with so many shards.
#[tactic(auto, unfolding(crate::specs::Judged::window_of))]
pub(crate) fn window(
    alloc: Global,
    word: &[u8],
    rest: &[u8],
    shards: u8,
) -> Result<(u16, Table), LineError>
    ensures { Says result (window_of shards word.now (words_of rest.now)) }
{
    let rounds = number_within(word, 1, 1024)?;
    let table = table(alloc, rest, shards)?;
    Ok((rounds as u16, table))
}

/// The table of the rows that are left of a line.
#[tactic(auto, unfolding(crate::specs::Judged::rows_in))]
fn table(alloc: Global, rest: &[u8], shards: u8) -> Result<Table, LineError>
    ensures { Says result (rows_in shards (words_of rest.now)) }
{
    let asked = asked_rows(alloc, rest, shards)?;
    match check(asked.as_slice()) {
        Ok(table) => Ok(table),
        Err(error) => Err(LineError::Refused(ScriptKind::Rows { error })),
    }
}

fn asked_rows(alloc: Global, line: &[u8], shards: u8) -> Result<Listed<Asked>, LineError>
    ensures { Says result (each (asked_in shards) (words_of line.now)) }
{
    let mut asked = Listed::new(alloc);
    let mut left = line;
    while let Some((word, rest)) = next_word(left) {
        asked.push(asked_row(word, shards)?)?;
        left = rest;
    }
    Ok(asked)
}

/// A row `s:q`.
fn asked_row(word: &[u8], shards: u8) -> Result<Asked, ScriptKind>
    ensures { result ≡ asked_in shards word.now }
{
    let Some(colon) = first_colon(word) else {
        return Err(ScriptKind::Number);
    };
    asked(&word[..colon], &word[colon + 1..], shards)
}

fn first_colon(word: &[u8]) -> Option<usize>
    ensures { result ≡ position (λ b. b == 58) word.now }
{
    word.iter().position(|byte| *byte == b':')
}

/// A row's two numbers.
fn asked(shard: &[u8], quota: &[u8], shards: u8) -> Result<Asked, ScriptKind>
    ensures { result ≡ asked_of shards (shard.now ∷ quota.now ∷ []) }
{
    let (Some(shard), Some(quota)) = (decimal(shard), decimal(quota)) else {
        return Err(ScriptKind::Number);
    };
    if shard < u64::from(shards) && quota <= MOST_QUOTA {
        Ok(Asked {
            shard: shard as u8,
            quota: quota as u32,
        })
    } else {
        Err(ScriptKind::Range)
    }
}
