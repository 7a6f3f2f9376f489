//! A frame comes out at the end that its row says.

use crate::links_between;
use node_links::{Frame, LinkIn};
use quota_table::Bytes;
use std::alloc::Global;
use std::fmt::Write;
use std::test::Fail;

fn frame(alloc: Global, stamp: u64) -> Frame {
    Frame {
        stamp,
        bytes: Bytes::new(alloc),
    }
}

/// The stamps that come out of each end of a row, in order.
fn pulled(text: &mut String, row: &mut Vec<LinkIn>) -> Result<(), Fail> {
    for into in row.iter_mut() {
        write!(text, "[")?;
        if let Some(frame) = into.pull() {
            write!(text, "{}", frame.stamp)?;
        }
        write!(text, "]")?;
    }
    Ok(())
}

#[test]
fn each_pair_has_its_link(rt: HostRuntime) -> Result<(), Fail> {
    let alloc = rt.alloc();
    let (mut outs, mut ins) = links_between(alloc, 3)?;
    let mut stamp = 0;
    for row in outs.iter_mut() {
        for out in row.iter_mut() {
            out.queue(frame(alloc, stamp))?;
            out.push_some();
            if stamp < 9 {
                stamp += 1;
            }
        }
    }
    let mut text = String::new(alloc);
    for row in ins.iter_mut() {
        pulled(&mut text, row)?;
    }
    assert_eq!(rt; text.as_str(), "[0][3][6][1][4][7][2][5][8]");
    Ok(())
}
