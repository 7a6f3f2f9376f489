//! The nodes of three clusters by name, each with its place.

use crate::{nodes_in_order, rank_of};
use life_tables::clusters::{PAIR, SINGLE, TRIO};
use life_tables::{Cluster, tell_node};
use msg_wire::is_node_of;
use std::alloc::Global;
use std::fmt::Write;
use std::test::Fail;

/// Each node of a cluster with its place, in order.
fn told(alloc: Global, cluster: &Cluster<'_>) -> Result<String, Fail> {
    let cfg = cluster.config(alloc)?;
    let order = nodes_in_order(alloc, &cfg)?;
    let mut text = String::new(alloc);
    for node in &order {
        if is_node_of(&cfg, *node) {
            tell_node(&mut text, *node)?;
            write!(text, " {}, ", rank_of(&cfg, *node))?;
        }
    }
    Ok(text)
}

#[test]
fn nodes_stand_by_kind_and_number(rt: HostRuntime) -> Result<(), Fail> {
    let alloc = rt.alloc();
    assert_eq!(rt;
        told(alloc, &SINGLE)?.as_str(),
        "q0 0, s0p 1, s0b 2, c0 3, k0 4, "
    );
    assert_eq!(rt;
        told(alloc, &PAIR)?.as_str(),
        "q0 0, s0p 1, s0b 2, s1p 3, s1b 4, c0 5, c1 6, k0 7, "
    );
    let trio =
        "q0 0, q1 1, q2 2, s0p 3, s0b 4, s1p 5, s1b 6, s2p 7, s2b 8, c0 9, c1 10, c2 11, c3 12, c4 13, k0 14, ";
    assert_eq!(rt; told(alloc, &TRIO)?.as_str(), trio);
    Ok(())
}
