//! Lives of clients as texts: what comes, and behind it what the step gives.

use crate::{ClientNode, ReadClient};
use life_tables::{Lives, lived};
use msg_wire::{Config, Event, Items, Step};
use quota_table::OutOfMemory;
use spec_base::NodeId;
use std::alloc::{AllocError, Global};
use std::fmt::Write;
use std::test::Fail;

mod lives;
mod rules;

/// A client that lives so.
#[derive(Drop)]
struct Lived(ClientNode);

impl Lives for Lived {
    ghost use Rattle.std.specs.Prelude.{◌≡◌, false};

    ghost is_ready = { λ lived. lived.0.spent ≡ false };

    fn born(alloc: Global, cfg: &Config, me: NodeId, items: &Items) -> Result<Lived, Fail> {
        match me {
            NodeId::Client(_) if items.is_empty() => Ok(Lived(ClientNode::new(alloc, cfg, me)?)),
            NodeId::Client(_) => Ok(Lived(ClientNode::restart(alloc, cfg, me, items)?)),
            _ => Err("no client".into()),
        }
    }

    fn take(&mut self, alloc: Global, event: &Event) -> Result<Step, OutOfMemory> {
        self.0.step(alloc, event)
    }

    fn tell(&self, text: &mut String) -> Result<(), AllocError> {
        let (home, acked, known) = (self.0.home(), self.0.acked(), self.0.known().count());
        write!(text, "home {home}, {acked} acknowledged, {known} known")
    }
}

#[test]
fn clients_live_by_the_tables(rt: HostRuntime) -> Result<(), Fail> {
    for lives in [rules::LIVES, lives::LIVES] {
        for life in lives {
            let (told, text) = lived::<Lived>(rt.alloc(), life)?;
            assert_eq!(rt; told, text);
        }
    }
    Ok(())
}
