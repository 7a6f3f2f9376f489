//! Each rule, by steps of a client of two shards.

use super::Lived;
use crate::{ClientNode, ReadClient};
use life_tables::clusters::PAIR;
use life_tables::{Life, lived};
use msg_wire::decode_items;
use spec_base::NodeId;
use std::alloc::{AllocError, Global};
use std::fmt::Write;
use std::test::Fail;

/// A record is acknowledged and another is not when the home goes.
const THROUGH: &str = r#"
submit 5 | item submitted "5" | to s0p append 0 0 "5"
tick | to q0 learn 0 | to s0p append 0 0 "5"
q0 decided 0 1 cut 0 0 | item known cut 0 0
s0p ack 0 0 | item acked | mark ack 0 0
submit 9 | item submitted "9" | to s0p append 0 1 "9"
# Its home is there, so that a fate does nothing.
s0b fate 1
q0 decided 1 2 remove 0 0 | item known remove 0 0 | to s0p s0b ask 0 1
tick | to q0 learn 2 | to s0p s0b ask 0 1
# A fate of another shard, or of another number, does nothing.
s1p fate 1
s0b fate 0
s0b fate 2
s0b fate 1 | item moved 1 1 | to s1p append 1 1 "9"
s0p fate 1
q0 decided 2 3 cut 2 0 | item known cut 2 0
s1p ack 1 2 | item acked | mark ack 1 2
restart
tick | to q0 learn 3
now | home 1, 2 acknowledged, 3 known
"#;

/// Three records, of which the first is covered when the home goes.
const ASKS_ON: &str = r#"
submit 5 | item submitted "5" | to s0p append 0 0 "5"
submit 7 | item submitted "7" | to s0p append 0 1 "7"
# An entry that isn't the next one is asked for.
q0 decided 1 2 remove 0 0 | to q0 learn 0
q0 decided 0 1 cut 0 0 | item known cut 0 0 | to q0 learn 1
q0 decided 1 2 remove 0 0 | item known remove 0 0 | to s0p s0b ask 0 0
submit 9 | item submitted "9"
s0b ack 0 0 | item acked | to s0p s0b ask 0 1 | mark ack 0 0
s0p fate 1 | item moved 1 1 | to s1p append 1 1 "7" | to s1p append 1 2 "9"
now | home 1, 1 acknowledged, 2 known
"#;

/// The second body is the first one of the new home.
const MOVED: &str = r#"
submit 7 | item submitted "7" | to s1p append 1 1 "7"
now | home 1, 1 acknowledged, 1 known
"#;

/// A body is submitted and acknowledged, the client moves, places are filled, which isn't a client's, and a cut is known.
const STORED: &[u8] = &[
    6, 0, 1, b'5', 7, 8, 1, 0, 0, 0, 0, 0, 0, 0, 1, 5, 3, 3, 1, 0, 0, 0, 0, 0, 0,
];

pub(super) const LIVES: &[Life] = &[
    // A client goes through a removed home.
    (PAIR, "c0", &[], &[THROUGH]),
    // A client asks on while its home is gone.
    (PAIR, "c0", &[], &[ASKS_ON]),
    // Stored items give a client back.
    (PAIR, "c0", STORED, &[MOVED]),
];

#[test]
fn stored_items_give_a_client_back(rt: HostRuntime) -> Result<(), Fail> {
    let alloc = rt.alloc();
    let items = decode_items(alloc, STORED)?;
    let cfg = PAIR.config(alloc)?;
    let client = ClientNode::restart(alloc, &cfg, NodeId::Client(0), &items)?;
    assert!(rt; !client.is_spent());
    assert_eq!(rt;
        (client.home(), client.acked(), client.known().count()),
        (1, 1, 1)
    );
    Ok(())
}

/// Eight bodies, each of which is sent at once.
fn eight(alloc: Global) -> Result<String, AllocError> {
    let mut text = String::new(alloc);
    for body in 0..8 {
        writeln!(
            text,
            "submit {body} | item submitted \"{body}\" | to s0p append 0 {body} \"{body}\""
        )?;
    }
    Ok(text)
}

/// Two more bodies are out of reach until the first is acknowledged.
const TWO_MORE: &str = r#"
submit 8 | item submitted "8"
submit 9 | item submitted "9"
# Another number, a client, and a shard that the cluster doesn't have.
s0p ack 1 2
c1 ack 0 0
s2p ack 0 0
s0p ack 0 0 | item acked | to s0p append 0 8 "8" | mark ack 0 0
s0p ack 0 0
tick | to q0 learn 0 | to s0p append 0 1 "1" | to s0p append 0 2 "2" | to s0p append 0 3 "3" | to s0p append 0 4 "4" | to s0p append 0 5 "5"
  | to s0p append 0 6 "6" | to s0p append 0 7 "7" | to s0p append 0 8 "8"
now | home 0, 1 acknowledged, 0 known
"#;

#[test]
fn acknowledgements_bring_the_next_number(rt: HostRuntime) -> Result<(), Fail> {
    let eight = eight(rt.alloc())?;
    let parts = [eight.as_str(), TWO_MORE];
    let (told, text) = lived::<Lived>(rt.alloc(), &(PAIR, "c0", &[], &parts))?;
    assert_eq!(rt; told, text);
    Ok(())
}
