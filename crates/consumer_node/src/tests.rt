//! Lives of consumers as texts: what comes, and behind it what the step gives.

use crate::{ConsumerNode, ReadConsumer};
use app_law::AnyApp;
use life_tables::{Lives, lived};
use msg_wire::{Config, Event, Items, Step};
use quota_table::OutOfMemory;
use spec_base::NodeId;
use std::alloc::{AllocError, Global};
use std::fmt::Write;
use std::test::Fail;

mod banks;
mod tallies;

/// A consumer of one of the three applications.
type Bench = ConsumerNode<AnyApp>;

/// A consumer that lives so.
#[derive(Drop)]
struct Lived(Bench);

impl Lives for Lived {
    ghost use Rattle.std.specs.Prelude.{◌≡◌, false};

    ghost is_ready = { λ lived. lived.0.spent ≡ false };

    fn born(alloc: Global, cfg: &Config, me: NodeId, items: &Items) -> Result<Lived, Fail> {
        match me {
            NodeId::Consumer(_) if items.is_empty() => Ok(Lived(Bench::new(alloc, cfg, me)?)),
            NodeId::Consumer(_) => Ok(Lived(Bench::restart(alloc, cfg, me, items)?)),
            _ => Err("no consumer".into()),
        }
    }

    fn take(&mut self, alloc: Global, event: &Event) -> Result<Step, OutOfMemory> {
        self.0.step(alloc, event)
    }

    /// What its application shows, its counts, and whether it holds the first record of shard 1.
    fn tell(&self, text: &mut String) -> Result<(), AllocError> {
        text.push_str(std::str::from_utf8(self.0.show().as_slice()).unwrap_or("no text"))?;
        let (applied, confirmed) = (self.0.applied(), self.0.confirmed());
        let known = self.0.known().count();
        write!(
            text,
            "; {applied} applied, {confirmed} confirmed, {known} known"
        )?;
        if self.0.held(1, 0) {
            text.push_str(", holds 1:0")?;
        }
        Ok(())
    }
}

#[test]
fn consumers_live_by_the_tables(rt: HostRuntime) -> Result<(), Fail> {
    for lives in [tallies::LIVES, banks::LIVES] {
        for life in lives {
            let (told, text) = lived::<Lived>(rt.alloc(), life)?;
            assert_eq!(rt; told, text);
        }
    }
    Ok(())
}
