//! Long lives in time.

ghost use Rattle.std.specs.Prelude.{◌≡◌, ◌≤◌, ◌^◌, false, IsTrue, OnOk};
ghost use Rattle.spec_base.specs.Spelling.{IsValidNode};
ghost use Rattle.msg_wire.specs.Nodes.{is_replica};
ghost use Rattle.msg_wire.specs.Valid.{IsNodeOf, IsValidConfig};

use crate::{ReadReplica, ShardNode};
use life_tables::clusters::SINGLE;
use life_tables::event;
use msg_wire::Config;
use spec_base::{NodeId, Side};
use std::alloc::Global;
use std::test::Fail;

/// Fills of the long life, and restarts of it.
const MANY: u32 = 2_000;

/// Takes a step, whatever it gives.
fn pass(alloc: Global, node: &mut ShardNode, me: NodeId, line: &str) -> Result<(), Fail>
    requires ready { node.old.spent ≡ false }
    requires me { IsValidNode me }
    ensures { OnOk result (node.new.spent ≡ false) }
{
    let event = event(alloc, me, line)?;
    let _step = node.step(alloc, &event)?;
    Ok(())
}

/// Fills 64 places, all of which the backup has then.
fn fill(alloc: Global, node: &mut ShardNode, me: NodeId, round: u32) -> Result<(), Fail>
    requires ready { node.old.spent ≡ false }
    requires me { IsValidNode me }
    requires round { round ≤ 2 ^ 16 }
    ensures { OnOk result (node.new.spent ≡ false) }
{
    let len = 64 * (round + 1);
    pass(alloc, node, me, &format!(in alloc; "q0 fill {len}")?)?;
    pass(alloc, node, me, &format!(in alloc; "s0b replicated {len}")?)
}

/// All of the fills.
fn fills(alloc: Global, node: &mut ShardNode, me: NodeId) -> Result<(), Fail>
    requires ready { node.old.spent ≡ false }
    requires me { IsValidNode me }
    ensures { OnOk result (node.new.spent ≡ false) }
{
    for round in 0..MANY {
        fill(alloc, node, me, round)?;
    }
    Ok(())
}

/// All of the restarts, with a tick after each.
fn restarts(alloc: Global, node: &mut ShardNode, me: NodeId) -> Result<(), Fail>
    requires ready { node.old.spent ≡ false }
    requires me { IsValidNode me }
    ensures { OnOk result (node.new.spent ≡ false) }
{
    for _restart in 0..MANY {
        pass(alloc, node, me, "restart")?;
        pass(alloc, node, me, "tick")?;
    }
    Ok(())
}

/// How long the log is, and how much of it is durable, after the fills and after the restarts.
fn long_life(alloc: Global, cfg: &Config, me: NodeId) -> Result<[(u64, u64); 2], Fail>
    requires cfg { IsValidConfig cfg.now }
    requires me { IsNodeOf cfg.now me }
    requires replica { IsTrue (is_replica me) }
    requires node { IsValidNode me }
{
    let mut node = ShardNode::new(alloc, cfg, me)?;
    fills(alloc, &mut node, me)?;
    let filled = (node.len(), node.durable());
    restarts(alloc, &mut node, me)?;
    Ok([filled, (node.len(), node.durable())])
}

#[test]
fn long_lives_end_in_time(rt: HostRuntime) -> Result<(), Fail> {
    let alloc = rt.alloc();
    let cfg = SINGLE.config(alloc)?;
    let counts = long_life(alloc, &cfg, NodeId::Shard(0, Side::Primary))?;
    let len = 64 * u64::from(MANY);
    assert_eq!(rt; counts, [(len, len), (len, 0)]);
    Ok(())
}
