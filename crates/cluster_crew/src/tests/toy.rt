//! A node for tests, and members that have one.
ghost use Rattle.std.specs.Prelude.{◌≡◌, IfOk};
ghost use Rattle.node_seats.specs.Seats.{IsNew};
ghost use Rattle.cluster_crew.specs.inside.Toys.{IsNewCore};

use crate::{Member, Side};
use gate_vault::Vault;
use life_tables::clusters::SINGLE;
use link_faults::FaultPlan;
use msg_wire::{Config, Event, Items, Mark, Message, Step, is_node_of};
use net_model::{NodeModel, View, Viewed};
use node_actor::{NodeActor, NodeCore};
use quota_table::OutOfMemory;
use record_codec::Shown;
use spec_base::{Disk, MemDisk, NodeId};
use std::alloc::Global;
use std::sync::Wait;
use std::test::Fail;

/// It makes a mark as it comes back, and does nothing else.
#[derive(Drop)]
pub(super) struct Toy {
    spent: bool,
}

impl NodeModel for Toy {
    ghost use Rattle.std.specs.Prelude.{false};
    ghost use Rattle.cluster_crew.specs.inside.Toys.{toy_gives};

    ghost fresh = { λ cfg node. record { spent = false } };

    ghost restarted = { λ cfg node items. record { spent = false } };

    ghost gives = { λ toy event. toy_gives event };

    ghost leaves = { λ toy event. toy };

    ghost is_spent = { λ toy. toy.spent };

    fn new(_alloc: Global, _cfg: &Config, _node: NodeId) -> Result<Toy, OutOfMemory> {
        Ok(Toy { spent: false })
    }

    fn restart(
        _alloc: Global,
        _cfg: &Config,
        _node: NodeId,
        _items: &Items,
    ) -> Result<Toy, OutOfMemory> {
        Ok(Toy { spent: false })
    }

    fn step(&mut self, alloc: Global, event: &Event) -> Result<Step, OutOfMemory> {
        let mut out = Step::new(alloc);
        self.step_into(alloc, event, &mut out)?;
        Ok(out)
    }

    fn step_into(
        &mut self,
        _alloc: Global,
        event: &Event,
        out: &mut Step,
    ) -> Result<(), OutOfMemory> {
        if matches!(event, Event::Restart) {
            self.spent = true;
            out.marks.push(Mark::Notice { first: 0 })?;
            self.spent = false;
        }
        Ok(())
    }

    fn deliver_into(
        &mut self,
        _alloc: Global,
        _message: &Message,
        _out: &mut Step,
    ) -> Result<(), OutOfMemory> {
        Ok(())
    }
}

impl Viewed for Toy {
    ghost use Rattle.cluster_crew.specs.inside.Toys.{toy_view};

    ghost shows = { λ toy. toy_view };

    fn view(&self) -> Option<View> {
        Some(View {
            applied: 5,
            confirmed: 3,
            shown: Shown::new(),
        })
    }
}

/// A node's core, on a disk that fails at these calls: 0 and 1 are those of the format. No message of its is sent, so it has no links.
fn core_of(alloc: Global, name: NodeId, fails: &[u64]) -> Result<NodeCore<Toy, MemDisk>, Fail>
    ensures { IfOk result (IsNewCore ⟦<Toy as NodeModel>⟧ ⟦<MemDisk as Disk>⟧ name) }
{
    let cfg = SINGLE.config(alloc)?;
    if !is_node_of(&cfg, name) {
        return Err(Fail::new("no such node"));
    }
    let node = Toy::new(alloc, &cfg, name)?;
    let disk = MemDisk::new(alloc, fails)?;
    let plan = FaultPlan {
        lose: 0,
        repeat: 0,
        late: 0,
        cut: 0,
    };
    match Vault::format(alloc, disk) {
        Ok(vault) => Ok(NodeCore::new(alloc, cfg, name, node, vault, Vec::new(alloc), plan)),
        Err((disk, error)) => {
            drop(disk);
            Err(Fail::from(error))
        }
    }
}

/// A node as a run begins.
fn actor_of(alloc: Global, name: NodeId, fails: &[u64]) -> Result<NodeActor<Toy, MemDisk>, Fail>
    ensures name { IfOk result (λ actor. actor.core.name ≡ name) }
    ensures new { IfOk result (IsNew ⟦<Toy as NodeModel>⟧ ⟦<MemDisk as Disk>⟧) }
{
    let core = core_of(alloc, name, fails)?;
    Ok(NodeActor::new(core, Vec::new(alloc), Vec::new(alloc)))
}

/// A node as a run begins, with its side.
pub(super) fn member_of<P: Wait + Drop>(
    alloc: Global,
    name: NodeId,
    fails: &[u64],
    side: Side<P>,
) -> Result<Member<Toy, MemDisk, P>, Fail>
    ensures name { IfOk result (λ m. m.actor.core.name ≡ name) }
    ensures new { IfOk result (λ m. IsNew ⟦<Toy as NodeModel>⟧ ⟦<MemDisk as Disk>⟧ m.actor) }
    ensures side { IfOk result (λ m. m.side ≡ side) }
{
    Ok(Member {
        actor: actor_of(alloc, name, fails)?,
        side,
    })
}
