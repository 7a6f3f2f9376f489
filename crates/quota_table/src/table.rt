ghost use Rattle.std.specs.Prelude.{◌≡◌, ◌≤◌, ◌==◌, IfOk, map, IsTrue};
ghost use Rattle.std.specs.List.{list_any};
ghost use Rattle.std.specs.Result.{result_err};
ghost use Rattle.quota_table.specs.Rows.{IsTable};
ghost use Rattle.quota_table.specs.Tables.{table_fault, row_fault, asked_row, quotas_of, offset_of};

use crate::errors::TableError;
use crate::rows::{Asked, Row};
use arrayvec::ArrayVec;
use std::alloc::AllocError;
use std::marker::Model;

/// The greatest number of rows of a table.
pub const MOST_ROWS: usize = 6;

/// The rows of a window: 1 to 6 of them, for distinct shards 0 to 5, with quotas 1 to 64.
/// Contracts see it as that list (`IsTable`).
#[derive(Debug, Drop)]
pub struct Table {
    /// The rows, and then places that no contract sees.
    places: [Row; MOST_ROWS],
    /// How many rows there are.
    len: u8,
}

impl Model for Table {
    ghost use Rattle.std.specs.Prelude.{List};
    ghost use Rattle.quota_table.specs.declared.rows.Row.{Row};

    ghost Value = { List Row };

    ghost use Rattle.std.specs.Prelude.{◌≤◌, take};
    ghost use Rattle.quota_table.specs.Rows.{IsTable};

    ghost view = { λ t. take t.len t.places };

    ghost invariant = { λ t. (t.len ≤ 6) × IsTable (take t.len t.places) };
}

impl Clone for Table {
    ghost is_clone = { λ a b. b ≡ a };

    fn clone(&self) -> Result<Table, AllocError> {
        Ok(self.copy())
    }
}

impl PartialEq for Table {
    ghost use Rattle.quota_table.specs.Rows.{rows_eq};
    ghost use Rattle.std.specs.Cmp.Rules.{comparing};

    ghost eq = { rows_eq };

    ghost laws = { Prim.search comparing };

    fn eq(&self, other: &Table) -> bool {
        self.rows() == other.rows()
    }
}

impl Table {
    /// The table of rows that are known to be one. It takes no memory.
    pub fn of(rows: ArrayVec<Row, 6>) -> Table
        requires { IsTable rows.items }
        ensures { result ≡ rows.items }
    {
        Table::of_rows(rows.as_slice())
    }

    /// The table of a list of rows that is known to be one.
    fn of_rows(rows: &[Row]) -> Table
        requires { IsTable rows.now }
        ensures { result ≡ rows.now }
    {
        let mut places = [Row { shard: 0, quota: 0 }; MOST_ROWS];
        places[..rows.len()].copy_from_slice(rows);
        Table {
            places,
            len: rows.len() as u8,
        }
    }

    /// The rows, in order.
    pub fn rows(&self) -> &[Row]
        ensures rows { result.now ≡ self.now }
        ensures valid { IsTable self.now }
    {
        &self.places[..usize::from(self.len)]
    }

    /// A copy, which takes no memory.
    pub fn copy(&self) -> Table
        ensures { result ≡ self.now }
    {
        Table {
            places: self.places,
            len: self.len,
        }
    }
}

/// The table of these rows, or the first fault in them: no row, more than six, and then row by row a shard above 5,
/// a shard that an earlier row has, a quota that is 0 or above 64. It takes no memory.
pub fn check(rows: &[Asked]) -> Result<Table, TableError>
    ensures fault { result_err result ≡ table_fault rows.now }
    ensures table { IfOk result (λ table. table ≡ map asked_row rows.now) }
    ensures valid { IfOk result IsTable }
{
    if rows.is_empty() {
        return Err(TableError::Empty);
    }
    if rows.len() > MOST_ROWS {
        return Err(TableError::TooMany { n: rows.len() });
    }
    let mut kept = ArrayVec::new();
    for (i, asked) in rows.iter().enumerate() {
        kept.push(checked(&rows[..i], asked)?);
    }
    Ok(Table::of(kept))
}

/// One row, judged against the rows before it.
fn checked(earlier: &[Asked], asked: &Asked) -> Result<Row, TableError>
    ensures fault { result_err result ≡ row_fault earlier.now asked.now }
    ensures row { IfOk result (λ row. row ≡ asked_row asked.now) }
{
    let Asked { shard, quota } = *asked;
    if shard > 5 {
        return Err(TableError::BadShard { shard });
    }
    if is_asked(earlier, shard) {
        return Err(TableError::Twice { shard });
    }
    match quota {
        1..=64 => Ok(Row {
            shard,
            quota: quota as u8,
        }),
        _ => Err(TableError::BadQuota { shard, quota }),
    }
}

/// Whether one of the rows is this shard's.
fn is_asked(rows: &[Asked], shard: u8) -> bool
    ensures { result ≡ list_any (λ r. r.shard == shard) rows.now }
{
    rows.iter().any(|row| row.shard == shard)
}

/// Positions in a round: the sum of the quotas, 1 to 384.
pub fn sum(table: &Table) -> u32
    ensures sum { result ≡ quotas_of table.now }
    ensures some { 1 ≤ result }
    ensures most { result ≤ 384 }
{
    let mut total = 0;
    for row in table.rows() {
        total += u32::from(row.quota);
    }
    total
}

/// The sum of the quotas of the rows before the shard's. None exactly where the shard is not a row.
pub fn offset(table: &Table, shard: u8) -> Option<u32>
    ensures { result ≡ offset_of table.now shard }
{
    let mut before = 0;
    for row in table.rows() {
        if row.shard == shard {
            return Some(before);
        }
        before += u32::from(row.quota);
    }
    None
}
