ghost use Rattle.std.specs.Prelude.{◌≡◌, ◌<◌, ◌≤◌, ◌++◌, ◌∷◌, [], true, false, Some, None, Err, IsTrue, IfOk, OnOk, OnErr, IsErrOf};
ghost use Rattle.msg_wire.specs.Nodes.{is_client, is_sequencer};
ghost use Rattle.msg_wire.specs.Steps.{IsValidStep};
ghost use Rattle.msg_wire.specs.Valid.{IsValidConfig, IsNodeOf, IsValidCommand, AreValidItems};
ghost use Rattle.net_model.specs.Names.{Event as TheEvent};
ghost use Rattle.net_model.specs.Journals.{IsAbove, last_stamp};
ghost use Rattle.net_model.specs.Names.events;
ghost use Rattle.net_model.specs.Pasts.{is_restart};
ghost use Rattle.node_actor.specs.declared.stopped.Stopped.TheVariants.{Disk as DiskStopped};
ghost use Rattle.node_actor.specs.declared.stopped.Stopped.TheVariants.{Memory as NoMemory};
ghost use Rattle.node_actor.specs.declared.store.Store.TheVariants.{Open};
ghost use Rattle.gate_vault.specs.Vault.{KeepsWithGate};
ghost use Rattle.node_actor.specs.Chunks.{Chunks, all_items};
ghost use Rattle.node_actor.specs.Cores.{IsReady, IsInStep, TookOne, Received, Restarted, FaultsEnded, StepsSafely, IsFaulty, stable_of, steps_of};
ghost use Rattle.node_actor.specs.inside.Finishing.{RestartedBy, Finished, with_store};
ghost use Rattle.node_actor.specs.Lanes.{links_of};
ghost use Rattle.node_actor.specs.Stores.{disk_in, KeepsChunks, TellsItems};
ghost use Rattle.node_actor.specs.Steps.{CanTake};

use crate::noting::{next_stamp, note};
use crate::reading::read;
use crate::sending::{release_all, send_all};
use crate::stopped::Stopped;
use crate::store::{Store, keep, reload};
use core::mem::replace_with;
use gate_vault::Vault;
use link_faults::{FaultPlan, LinkFaults};
use msg_wire::{Command, Config, Event, Items, Step};
use net_model::{Journal, NodeModel};
use node_links::{Frame, LinkOut};
use quota_table::Bytes;
use record_codec::Body;
use spec_base::{Disk, NodeId};
use std::alloc::Global;

/// A node with all that its steps need but the ends of its links: its vault, its journal, and the faults of its links.
#[derive(Drop)]
pub struct NodeCore<N, D> {
    pub(crate) alloc: Global,
    /// The cluster.
    pub(crate) cfg: Config,
    /// Which node of it this is.
    pub(crate) name: NodeId,
    pub(crate) node: N,
    pub(crate) store: Store<D>,
    pub(crate) journal: Journal,
    /// The faults of the links to all nodes, in their order.
    pub(crate) faults: Vec<LinkFaults>,
    /// None once the faults have ended.
    pub(crate) plan: Option<FaultPlan>,
    /// What a step gives is written here, again and again.
    pub(crate) step: Step,
    /// So is the entry that it stores.
    pub(crate) room: Bytes,
}

impl<N: NodeModel + Drop, D: Disk + Drop> NodeCore<N, D> {
    /// A node at its start, with its formatted vault, and with the faults of its links to all nodes, in their order.
    pub fn new(
        alloc: Global,
        cfg: Config,
        name: NodeId,
        node: N,
        vault: Vault<D>,
        faults: Vec<LinkFaults>,
        plan: FaultPlan,
    ) -> NodeCore<N, D>
        requires valid { IsValidConfig cfg }
        requires here { IsNodeOf cfg name }
        requires unspent { N.is_spent node ≡ false }
        ensures ready { IsReady ⟦<N as NodeModel>⟧ result }
        ensures cfg { result.cfg ≡ cfg }
        ensures name { result.name ≡ name }
        ensures plan { result.plan ≡ Some plan }
        ensures faults { result.faults ≡ faults }
        ensures store { result.store ≡ Open vault }
        ensures none { steps_of result ≡ [] }
        ensures in_step { node ≡ N.fresh cfg name → KeepsWithGate D.seen D.may_leave vault [] → IsInStep ⟦<N as NodeModel>⟧ ⟦<D as Disk>⟧ result }
    {
        NodeCore {
            alloc,
            cfg,
            name,
            node,
            store: Store::Open(vault),
            journal: Journal::new(alloc, name),
            faults,
            plan: Some(plan),
            step: Step::new(alloc),
            room: Bytes::new(alloc),
        }
    }

    /// Which node it is.
    pub fn name(&self) -> NodeId
        ensures { result ≡ self.now.name }
    {
        self.name
    }

    /// What the node is.
    pub fn node(&self) -> &N
        ensures { result.now ≡ self.now.node }
    {
        &self.node
    }

    /// The steps that it took.
    pub fn journal(&self) -> &Journal
        ensures { result.now ≡ self.now.journal }
    {
        &self.journal
    }

    /// Its journal and its disk.
    pub fn into_parts(self) -> (Journal, D)
        ensures journal { result.0 ≡ self.journal }
        ensures disk { result.1 ≡ disk_in self.store }
    {
        let NodeCore {
            alloc: _,
            cfg: _,
            name: _,
            node: _,
            store,
            journal,
            faults: _,
            plan: _,
            step: _,
            room: _,
        } = self;
        (journal, store.into_disk())
    }

    /// Time passes.
    pub fn tick(&mut self, outs: &mut [LinkOut]) -> Result<(), Stopped>
        requires ready { IsReady ⟦<N as NodeModel>⟧ self.old }
        ensures ok { OnOk result (TookOne ⟦<N as NodeModel>⟧ ⟦<D as Disk>⟧ events.Tick 0 self.old self.new outs.old outs.new) }
        ensures safely { StepsSafely ⟦<D as Disk>⟧ (stable_of ⟦<N as NodeModel>⟧ self.old events.Tick) result self.old self.new outs.old outs.new }
    {
        self.take(Event::Tick, 0, outs)
    }

    /// The client is given a body by a submitter, 0 to 7.
    pub fn submit(&mut self, by: u8, body: Body, outs: &mut [LinkOut]) -> Result<(), Stopped>
        requires ready { IsReady ⟦<N as NodeModel>⟧ self.old }
        requires client { IsTrue (is_client self.old.name) }
        requires by { by ≤ 7 }
        ensures ok { OnOk result (TookOne ⟦<N as NodeModel>⟧ ⟦<D as Disk>⟧ (events.Submit by body) 0 self.old self.new outs.old outs.new) }
        ensures safely { StepsSafely ⟦<D as Disk>⟧ (stable_of ⟦<N as NodeModel>⟧ self.old (events.Submit by body)) result self.old self.new outs.old outs.new }
    {
        self.take(Event::Submit { by, body }, 0, outs)
    }

    /// The sequencer is told what to propose.
    pub fn command(&mut self, command: Command, outs: &mut [LinkOut]) -> Result<(), Stopped>
        requires ready { IsReady ⟦<N as NodeModel>⟧ self.old }
        requires sequencer { IsTrue (is_sequencer self.old.name) }
        requires valid { IsValidCommand command }
        ensures ok { OnOk result (TookOne ⟦<N as NodeModel>⟧ ⟦<D as Disk>⟧ (events.Command command) 0 self.old self.new outs.old outs.new) }
        ensures safely { StepsSafely ⟦<D as Disk>⟧ (stable_of ⟦<N as NodeModel>⟧ self.old (events.Command command)) result self.old self.new outs.old outs.new }
    {
        self.take(Event::Command(command), 0, outs)
    }

    /// A step of the message that a frame brings, which came on the link from the node at this place. False, and nothing is changed,
    /// where the frame brings none: it was cut, or names another sender or another receiver.
    pub fn receive(
        &mut self,
        from: usize,
        frame: &Frame,
        outs: &mut [LinkOut],
    ) -> Result<bool, Stopped>
        requires ready { IsReady ⟦<N as NodeModel>⟧ self.old }
        ensures ok { IfOk result (λ taken. Received taken ⟦<N as NodeModel>⟧ ⟦<D as Disk>⟧ from frame.now self.old self.new outs.old outs.new) }
        ensures safely { (event : TheEvent) × StepsSafely ⟦<D as Disk>⟧ (stable_of ⟦<N as NodeModel>⟧ self.old event) result self.old self.new outs.old outs.new }
    {
        match read(self.alloc, &self.cfg, self.name, from, &frame.bytes)? {
            None => Ok(false),
            Some(message) => {
                self.take(Event::Deliver(message), frame.stamp, outs)?;
                Ok(true)
            }
        }
    }

    /// The node comes back with what its vault gives, in a step of a restart. The vault is read anew.
    ///
    /// At an error the disk is kept; a further restart reads it again.
    pub fn restart(&mut self, outs: &mut [LinkOut]) -> Result<(), Stopped>
        requires ready { IsReady ⟦<N as NodeModel>⟧ self.old }
        ensures ok { OnOk result (Restarted ⟦<N as NodeModel>⟧ ⟦<D as Disk>⟧ self.old self.new outs.old outs.new) }
        ensures safely { StepsSafely ⟦<D as Disk>⟧ (stable_of ⟦<N as NodeModel>⟧ self.old events.Restart) result self.old self.new outs.old outs.new }
    {
        let items = self.read_vault()?;
        self.restart_by(&items, outs)
    }

    /// Reads the vault anew.
    fn read_vault(&mut self) -> Result<Items, Stopped>
        ensures same { self.new ≡ with_store self.old self.new.store }
        ensures ok { (chunks : Chunks) → KeepsChunks ⟦<D as Disk>⟧ self.old.store chunks → IfOk result (λ items. (items ≡ all_items chunks) × KeepsChunks ⟦<D as Disk>⟧ self.new.store chunks) }
        ensures valid { IfOk result AreValidItems }
        ensures tells { (chunks : Chunks) → KeepsChunks ⟦<D as Disk>⟧ self.old.store chunks → TellsItems (D.seen (disk_in self.new.store)) }
        ensures fault { IsErrOf result DiskStopped → IsFaulty ⟦<D as Disk>⟧ self.old self.new }
        ensures no_fall { D.faults (disk_in self.old.store) ≤ D.faults (disk_in self.new.store) }
    {
        replace_with(
            &mut self.store,
            self.alloc,
            |store, alloc| reload(alloc, store),
        )
    }

    /// The step of a restart, after which the node is what these items give.
    fn restart_by(&mut self, items: &Items, outs: &mut [LinkOut]) -> Result<(), Stopped>
        requires ready { IsReady ⟦<N as NodeModel>⟧ self.old }
        requires valid { AreValidItems items.now }
        ensures ok { OnOk result (RestartedBy ⟦<N as NodeModel>⟧ ⟦<D as Disk>⟧ items.now self.old self.new outs.old outs.new) }
        ensures safely { StepsSafely ⟦<D as Disk>⟧ (stable_of ⟦<N as NodeModel>⟧ self.old events.Restart) result self.old self.new outs.old outs.new }
    {
        let stamp = next_stamp(&self.journal, 0)?;
        let restarted = N::restart(self.alloc, &self.cfg, self.name, items)?;
        self.step.clear();
        self.node
            .step_into(self.alloc, &Event::Restart, &mut self.step)?;
        self.node = restarted;
        self.finish(Event::Restart, stamp, outs)
    }

    /// The faults end: each frame that is held is queued, and from now on no message is lost, repeated, held or cut.
    pub fn end_faults(&mut self, outs: &mut [LinkOut]) -> Result<(), Stopped>
        requires ready { IsReady ⟦<N as NodeModel>⟧ self.old }
        ensures ok { OnOk result (FaultsEnded ⟦<N as NodeModel>⟧ ⟦<D as Disk>⟧ self.old self.new outs.old outs.new) }
        ensures cfg { self.new.cfg ≡ self.old.cfg }
        ensures name { self.new.name ≡ self.old.name }
        ensures links { links_of outs.new ≡ links_of outs.old }
        ensures memory { OnErr result (result ≡ Err NoMemory) }
        ensures disk { self.new.store ≡ self.old.store }
    {
        release_all(&mut self.faults, outs)?;
        self.plan = None;
        Ok(())
    }

    /// A step of any event but a restart, with a stamp above that of what came with it: what it stores is stored before anything
    /// is sent, and what it is stands in the journal.
    fn take(&mut self, event: Event, came_with: u64, outs: &mut [LinkOut]) -> Result<(), Stopped>
        requires ready { IsReady ⟦<N as NodeModel>⟧ self.old }
        requires takes { CanTake self.old.name event }
        requires in_place { is_restart event ≡ false }
        ensures ok { OnOk result (TookOne ⟦<N as NodeModel>⟧ ⟦<D as Disk>⟧ event came_with self.old self.new outs.old outs.new) }
        ensures safely { StepsSafely ⟦<D as Disk>⟧ (stable_of ⟦<N as NodeModel>⟧ self.old event) result self.old self.new outs.old outs.new }
    {
        let stamp = next_stamp(&self.journal, came_with)?;
        self.step.clear();
        self.node.step_into(self.alloc, &event, &mut self.step)?;
        self.finish(event, stamp, outs)
    }

    /// Stores what the step stores, and then sends what it sends, and puts it into the journal.
    fn finish(&mut self, event: Event, stamp: u64, outs: &mut [LinkOut]) -> Result<(), Stopped>
        requires valid { IsValidConfig self.old.cfg }
        requires step { IsValidStep self.old.step }
        requires rises { IsAbove stamp (last_stamp self.old.journal.steps) }
        ensures ok { OnOk result (Finished ⟦<D as Disk>⟧ event stamp self.old self.new outs.old outs.new) }
        ensures safely { StepsSafely ⟦<D as Disk>⟧ self.old.step.stable result self.old self.new outs.old outs.new }
    {
        keep(&mut self.store, &mut self.room, self.step.stable.as_slice())?;
        send_all(
            self.alloc,
            &self.cfg,
            self.plan,
            &mut self.faults,
            outs,
            stamp,
            self.step.sends.as_slice(),
        )?;
        note(self.alloc, &mut self.journal, stamp, event, &mut self.step)?;
        Ok(())
    }
}
