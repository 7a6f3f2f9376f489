//! A cluster in short.

ghost use Rattle.std.specs.Prelude.{◌≡◌, ◌⊎◌, ◌≤◌, length, IsTrue, IfOk};
ghost use Rattle.std.specs.List.{AllByRecursion};
ghost use Rattle.quota_table.specs.Rows.{has_shard};
ghost use Rattle.quota_table.specs.Entries.{AreRounds};
ghost use Rattle.msg_wire.specs.Valid.{IsTableOf, IsValidConfig};

use crate::words::rows;
use msg_wire::{Config, Homes};
use quota_table::{OutOfMemory, Table, check};
use record_codec::AppKind;
use std::alloc::Global;
use std::test::Fail;

/// A cluster in short: as many shards as its first window has rows, and what else its [`Config`] says.
#[derive(Clone, Copy)]
pub struct Cluster<'a> {
    pub seqs: u8,
    pub rounds: u16,
    /// Each row of the first window as `SHARD:QUOTA`.
    pub rows: &'a str,
    pub homes: &'a [u8],
    pub consumers: u8,
    pub app: AppKind,
}

impl Cluster<'_> {
    /// The cluster, which is valid. Error: there is no such cluster.
    pub fn config(&self, alloc: Global) -> Result<Config, Fail>
        ensures valid { IfOk result IsValidConfig }
        ensures seqs { IfOk result (λ cfg. cfg.seqs ≡ self.now.seqs) }
        ensures homes { IfOk result (λ cfg. cfg.homes ≡ self.now.homes.now) }
        ensures consumers { IfOk result (λ cfg. cfg.consumers ≡ self.now.consumers) }
    {
        let rows = rows(alloc, self.rows)?;
        let cfg = Config {
            seqs: self.seqs,
            shards: u8::try_from(rows.len())?,
            rounds: self.rounds,
            table: check(rows.as_slice())?,
            homes: listed(alloc, self.homes)?,
            consumers: self.consumers,
            app: self.app,
        };
        if has_numbers(&cfg) && has_shards(&cfg) {
            return Ok(cfg);
        }
        Err("no such cluster".into())
    }
}

fn listed(alloc: Global, homes: &[u8]) -> Result<Homes, OutOfMemory>
    ensures { IfOk result (λ list. list ≡ homes.now) }
{
    let mut list = Homes::new(alloc);
    for home in homes {
        list.push(*home)?;
    }
    Ok(list)
}

/// Whether each number of it is within its limits.
fn has_numbers(cfg: &Config) -> bool
    ensures seqs { IsTrue result → (cfg.now.seqs ≡ 1) ⊎ (cfg.now.seqs ≡ 3) ⊎ (cfg.now.seqs ≡ 5) }
    ensures shards { IsTrue result → (1 ≤ cfg.now.shards) × (cfg.now.shards ≤ 6) }
    ensures rounds { IsTrue result → AreRounds cfg.now.rounds }
    ensures clients { IsTrue result → (1 ≤ length cfg.now.homes) × (length cfg.now.homes ≤ 6) }
    ensures consumers { IsTrue result → (1 ≤ cfg.now.consumers) × (cfg.now.consumers ≤ 4) }
{
    let clients = cfg.homes.len();
    (cfg.seqs == 1 || cfg.seqs == 3 || cfg.seqs == 5)
        && 1 <= cfg.shards
        && cfg.shards <= 6
        && 1 <= cfg.rounds
        && cfg.rounds <= 1024
        && 1 <= clients
        && clients <= 6
        && 1 <= cfg.consumers
        && cfg.consumers <= 4
}

/// Whether each row has a shard with nodes, and each client a shard with a row.
fn has_shards(cfg: &Config) -> bool
    ensures rows { IsTrue result → IsTableOf cfg.now.shards cfg.now.table }
    ensures homes { IsTrue result → AllByRecursion (λ home. IsTrue (has_shard home cfg.now.table)) cfg.now.homes }
{
    let (shards, table) = (cfg.shards, &cfg.table);
    table.rows().iter().all(|row| row.shard < shards) && are_rows(cfg.homes.as_slice(), table)
}

fn are_rows(homes: &[u8], table: &Table) -> bool
    ensures { IsTrue result → AllByRecursion (λ home. IsTrue (has_shard home table.now)) homes.now }
{
    for home in homes {
        if !is_row(*home, table) {
            return false;
        }
    }
    true
}

fn is_row(shard: u8, table: &Table) -> bool
    ensures { result ≡ has_shard shard table.now }
{
    table.rows().iter().any(|row| row.shard == shard)
}
