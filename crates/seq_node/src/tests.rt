//! Lives of sequencers, event by event: what comes, and behind it what the step gives. The steps are worked out by hand
//! from the step table; those of [`history`] are an independent model's.

use crate::SeqNode;
use life_tables::{Lives, lived};
use msg_wire::{Config, Event, Items, Step};
use quota_table::OutOfMemory;
use spec_base::NodeId;
use std::alloc::{AllocError, Global};
use std::fmt::Write;
use std::test::Fail;

mod alone;
mod history;
mod trios;

/// A sequencer that lives so.
#[derive(Drop)]
struct Lived(SeqNode);

impl Lives for Lived {
    ghost use Rattle.std.specs.Prelude.{◌≡◌, false};

    ghost is_ready = { λ lived. lived.0.spent ≡ false };

    fn born(alloc: Global, cfg: &Config, me: NodeId, items: &Items) -> Result<Lived, Fail> {
        match me {
            NodeId::Seq(_) if items.is_empty() => Ok(Lived(SeqNode::new(alloc, cfg, me)?)),
            NodeId::Seq(_) => Ok(Lived(SeqNode::restart(alloc, cfg, me, items)?)),
            _ => Err("no sequencer".into()),
        }
    }

    fn take(&mut self, alloc: Global, event: &Event) -> Result<Step, OutOfMemory> {
        self.0.step(alloc, event)
    }

    fn tell(&self, text: &mut String) -> Result<(), AllocError> {
        write!(text, "{} known", self.0.known().count())
    }
}

#[test]
fn sequencers_live_by_the_tables(rt: HostRuntime) -> Result<(), Fail> {
    for lives in [alone::LIVES, trios::LIVES, history::LIVES] {
        for life in lives {
            let (told, text) = lived::<Lived>(rt.alloc(), life)?;
            assert_eq!(rt; told, text);
        }
    }
    Ok(())
}
