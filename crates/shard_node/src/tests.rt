//! Lives of replicas as texts: what comes, and behind it what the step gives.

use crate::{ReadReplica, ShardNode};
use life_tables::{Lives, lived};
use msg_wire::{Config, Event, Items, Step};
use quota_table::OutOfMemory;
use spec_base::NodeId;
use std::alloc::{AllocError, Global};
use std::fmt::Write;
use std::test::Fail;

mod lives;
mod long;
mod pair;
mod single;

/// A replica that lives so.
#[derive(Drop)]
struct Lived(ShardNode);

impl Lives for Lived {
    ghost use Rattle.std.specs.Prelude.{◌≡◌, false};

    ghost is_ready = { λ lived. lived.0.spent ≡ false };

    fn born(alloc: Global, cfg: &Config, me: NodeId, items: &Items) -> Result<Lived, Fail> {
        match me {
            NodeId::Shard(_, _) if items.is_empty() => Ok(Lived(ShardNode::new(alloc, cfg, me)?)),
            NodeId::Shard(_, _) => Ok(Lived(ShardNode::restart(alloc, cfg, me, items)?)),
            _ => Err("no replica".into()),
        }
    }

    fn take(&mut self, alloc: Global, event: &Event) -> Result<Step, OutOfMemory> {
        self.0.step(alloc, event)
    }

    fn tell(&self, text: &mut String) -> Result<(), AllocError> {
        let (len, durable, known) = (self.0.len(), self.0.durable(), self.0.known().count());
        write!(text, "{len} records, {durable} durable, {known} known")
    }
}

#[test]
fn replicas_live_by_the_tables(rt: HostRuntime) -> Result<(), Fail> {
    for lives in [single::LIVES, pair::LIVES, lives::LIVES] {
        for life in lives {
            let (told, text) = lived::<Lived>(rt.alloc(), life)?;
            assert_eq!(rt; told, text);
        }
    }
    Ok(())
}
