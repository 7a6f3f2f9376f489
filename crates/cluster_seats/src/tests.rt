//! Five nodes as they are seated, each with its name and its vault, and where its links lead.

use crate::toys::{Toy, toys};
use life_tables::tell_node;
use link_rows::{InRow, OutRow};
use node_actor::NodeActor;
use node_links::Frame;
use quota_table::Bytes;
use spec_base::MemDisk;
use std::alloc::Global;
use std::fmt::Write;
use std::test::Fail;

/// A head, and no entry.
const EMPTY: &[u8] = b"BELVAULT\x00";

/// Takes nodes apart, and tells of each its name, whether its vault is empty, and how many steps it took.
fn take_apart(
    text: &mut String,
    actors: Vec<NodeActor<Toy, MemDisk>>,
    outs: &mut Vec<OutRow>,
    ins: &mut Vec<InRow>,
) -> Result<(), Fail> {
    for actor in actors {
        tell_node(text, actor.name())?;
        let (core, sends, receives) = actor.into_parts();
        outs.push(sends)?;
        ins.push(receives)?;
        let (journal, disk) = core.into_parts();
        write!(
            text,
            " {} {}, ",
            disk.content() == EMPTY,
            journal.steps().len()
        )?;
    }
    Ok(())
}

/// Queues a frame on each link, with the stamps 0, 1, 2 and so on.
fn queue_all(alloc: Global, outs: &mut Vec<OutRow>) -> Result<(), Fail> {
    let mut stamp = 0u64;
    for row in outs.iter_mut() {
        for out in row.iter_mut() {
            out.queue(Frame {
                stamp,
                bytes: Bytes::new(alloc),
            })?;
            out.push_some();
            stamp = stamp.saturating_add(1);
        }
    }
    Ok(())
}

/// The stamps that come to a node, link by link.
fn pulled(text: &mut String, row: &mut InRow) -> Result<(), Fail> {
    for into in row.iter_mut() {
        if let Some(frame) = into.pull() {
            write!(text, "{} ", frame.stamp)?;
        }
    }
    write!(text, "| ")?;
    Ok(())
}

#[test]
fn nodes_are_seated_in_their_order(rt: HostRuntime) -> Result<(), Fail> {
    let alloc = rt.alloc();
    let mut text = String::new(alloc);
    let mut outs = Vec::new(alloc);
    let mut ins = Vec::new(alloc);
    take_apart(&mut text, toys(alloc)?, &mut outs, &mut ins)?;
    assert_eq!(rt;
        text.as_str(),
        "q0 true 0, s0p true 0, s0b true 0, c0 true 0, k0 true 0, "
    );
    queue_all(alloc, &mut outs)?;
    text.clear();
    for row in ins.iter_mut() {
        pulled(&mut text, row)?;
    }
    assert_eq!(rt;
        text.as_str(),
        "0 5 10 15 20 | 1 6 11 16 21 | 2 7 12 17 22 | 3 8 13 18 23 | 4 9 14 19 24 | "
    );
    Ok(())
}
