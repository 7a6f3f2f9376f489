ghost use Rattle.std.specs.Prelude.{◌≡◌, [], map, length, replicate, IfOk, OnOk};
ghost use Rattle.std.specs.List.{AllByRecursion};
ghost use Rattle.link_rows.specs.Rows.{names_of_outs, names_of_ins, AreLinked, IsUnsent, IsUnread, OfEach, with_column, other_end};

use node_links::{LinkIn, LinkOut, pair};
use quota_table::OutOfMemory;
use std::alloc::Global;

/// So many frames find room in the ring of a link.
pub const CAPACITY: usize = 64;

/// The ends on which one node sends, in the order of the nodes that receive.
pub type OutRow = Vec<LinkOut>;

/// The ends on which one node receives, in the order of the nodes that send.
pub type InRow = Vec<LinkIn>;

/// The links of each ordered pair of so many nodes, a node and itself too: for each node a row of ends on which it sends, and
/// one of ends on which it receives. Nothing was sent on any.
pub fn links_between(alloc: Global, count: usize) -> Result<(Vec<OutRow>, Vec<InRow>), OutOfMemory>
    ensures linked { IfOk result (λ ends. AreLinked count (map (λ row. names_of_outs row.items) ends.0.items) (map (λ row. names_of_ins row.items) ends.1.items)) }
    ensures unsent { IfOk result (λ ends. OfEach IsUnsent (map (λ row. row.items) ends.0.items)) }
    ensures unread { IfOk result (λ ends. OfEach IsUnread (map (λ row. row.items) ends.1.items)) }
{
    let mut outs = Vec::with_capacity(alloc, count)?;
    let mut ins = empty_rows(alloc, count)?;
    for _ in 0..count {
        outs.push(sender_row(alloc, count, &mut ins)?)?;
    }
    Ok((outs, ins))
}

fn empty_rows(alloc: Global, count: usize) -> Result<Vec<InRow>, OutOfMemory>
    ensures { IfOk result (λ rows. map (λ row. row.items) rows.items ≡ replicate count []) }
{
    let mut rows = Vec::with_capacity(alloc, count)?;
    for _ in 0..count {
        rows.push(Vec::with_capacity(alloc, count)?)?;
    }
    Ok(rows)
}

/// The ends on which one more node sends; the others are put at the ends of the receivers' rows.
fn sender_row(alloc: Global, count: usize, ins: &mut Vec<InRow>) -> Result<OutRow, OutOfMemory>
    requires { length ins.old.items ≡ count }
    ensures length { IfOk result (λ row. length row.items ≡ count) }
    ensures unsent { IfOk result (λ row. AllByRecursion IsUnsent row.items) }
    ensures rows { OnOk result (length ins.new.items ≡ count) }
    ensures column { IfOk result (λ row. map (λ r. r.items) ins.new.items ≡ with_column (map (λ r. r.items) ins.old.items) (map other_end row.items)) }
{
    let mut row = Vec::with_capacity(alloc, count)?;
    for to in 0..count {
        let (out, into) = pair(alloc, CAPACITY)?;
        ins[to].push(into)?;
        row.push(out)?;
    }
    Ok(row)
}
