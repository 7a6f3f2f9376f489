ghost use Rattle.std.specs.Prelude.{◌≡◌, ◌≤◌, ◌^◌, length, IfOk, OnErr, IsTrue};
ghost use Rattle.quota_table.specs.Entries.{IsValidEntry};
ghost use Rattle.cut_core.specs.Effects.{effect_of};
ghost use Rattle.cut_core.specs.Soundness.{IsSound};
ghost use Rattle.cut_core.specs.Consistency.{IsConsistent};
ghost use Rattle.msg_wire.specs.Valid.{IsValidConfig, IsNodeOf};
ghost use Rattle.node_rules.specs.Bases.{fresh_base, first_window, agreed_by, has_slot, knowing, seeing, ticking, asked_by, reset_base};
ghost use Rattle.node_rules.specs.Sound.{IsBase};

use cut_core::{Agreed, Effect};
use fix_ante::first;
use lease_window::Known;
use msg_wire::Config;
use quota_table::{Entry, OutOfMemory};
use spec_base::NodeId;
use std::alloc::Global;
use std::marker::Model;

/// The greatest number of agreed entries, and so of slots.
pub const MOST_ENTRIES: u32 = 1_000_000;

/// The count at which ticks stand still.
pub const MOST_TICKS: u64 = 1 << 48;

/// What every node has, whatever its kind. Contracts see it as a `Base`, of which `IsBase` holds.
///
/// Each call is O(1), but for what an entry costs that is learned.
#[derive(Debug, Drop)]
pub struct NodeBase {
    cfg: Config,
    me: NodeId,
    /// The agreed entries that the node knows, and what they agree on.
    known: Known,
    /// The greatest count of agreed entries that the node was told of, at most 1,000,000.
    seen: u32,
    /// Ticks since the last restart, at most 2^48.
    ticks: u64,
}

impl Model for NodeBase {
    ghost use Rattle.node_rules.specs.Bases.{Base};
    ghost use Rattle.node_rules.specs.inside.Kept.{base_of, IsBaseInside};

    ghost Value = { Base };

    ghost view = { base_of };

    ghost invariant = { IsBaseInside };
}

impl NodeBase {
    /// A node that knows, was told and counted nothing.
    pub fn new(alloc: Global, cfg: &Config, me: NodeId) -> Result<NodeBase, OutOfMemory>
        requires valid { IsValidConfig cfg.now }
        requires node { IsNodeOf cfg.now me }
        ensures { IfOk result (λ base. base ≡ fresh_base cfg.now me) }
    {
        let cfg = copy_of(cfg)?;
        let known = Known::new(alloc, first(cfg.rounds, &cfg.table))?;
        Ok(NodeBase {
            cfg,
            me,
            known,
            seen: 0,
            ticks: 0,
        })
    }

    pub fn cfg(&self) -> &Config
        ensures cfg { result.now ≡ self.now.cfg }
        ensures sound { IsBase self.now }
    {
        &self.cfg
    }

    /// The node's own name, one of its cluster's nodes.
    pub fn me(&self) -> NodeId
        ensures me { result ≡ self.now.me }
        ensures sound { IsBase self.now }
    {
        self.me
    }

    /// The agreed entries that the node knows.
    pub fn known(&self) -> &Known
        ensures entries { result.now.entries ≡ self.now.known }
        ensures first { result.now.first ≡ first_window self.now.cfg }
        ensures sound { IsBase self.now }
    {
        &self.known
    }

    /// What the known entries agree on.
    pub fn agreed(&self) -> &Agreed
        ensures agreed { result.now ≡ agreed_by self.now }
        ensures sound { IsSound (agreed_by self.now) }
        ensures consistent { IsConsistent (agreed_by self.now) }
    {
        self.known.agreed()
    }

    /// How many entries the node knows: the slot of the next one, at most 1,000,000.
    pub fn count(&self) -> u32
        ensures count { result ≡ length self.now.known }
        ensures most { result ≤ 1000000 }
        ensures sound { IsBase self.now }
    {
        self.known.count()
    }

    /// Whether there is a slot for one more entry.
    pub fn has_slot(&self) -> bool
        ensures { result ≡ has_slot self.now }
    {
        self.count() < MOST_ENTRIES
    }

    /// The greatest count of agreed entries that the node was told of, at most 1,000,000.
    pub fn seen(&self) -> u32
        ensures seen { result ≡ self.now.seen }
        ensures most { result ≤ 1000000 }
    {
        self.seen
    }

    /// Ticks since the last restart, at most 2^48.
    pub fn ticks(&self) -> u64
        ensures ticks { result ≡ self.now.ticks }
        ensures most { result ≤ 2 ^ 48 }
    {
        self.ticks
    }

    /// Whom a tick asks for the next entry: of the sequencers the one after the node itself, if there is another; any
    /// other node asks one sequencer after the other.
    pub fn asked(&self) -> Option<NodeId>
        ensures { result ≡ asked_by self.now }
    {
        let seqs = self.cfg.seqs;
        match self.me {
            NodeId::Seq(number) if seqs > 1 => Some(NodeId::Seq((number + 1) % seqs)),
            NodeId::Seq(_) => None,
            _ => Some(NodeId::Seq((self.ticks % u64::from(seqs)) as u8)),
        }
    }

    /// Forgets what a restart forgets: what the node was told, and the ticks.
    pub fn reset(&mut self)
        ensures { self.new ≡ reset_base self.old }
    {
        self.seen = 0;
        self.ticks = 0;
    }

    /// The node was told of this many agreed entries.
    pub fn see(&mut self, count: u32)
        requires { count ≤ 1000000 }
        ensures { self.new ≡ seeing count self.old }
    {
        self.seen = self.seen.max(count);
    }

    /// One more tick came.
    pub fn tick(&mut self)
        ensures { self.new ≡ ticking self.old }
    {
        self.ticks = (self.ticks + 1).min(MOST_TICKS);
    }

    /// Learns the entry of the next slot, and tells what it did. At an error all is as before.
    pub fn learn(&mut self, entry: &Entry) -> Result<Effect, OutOfMemory>
        requires slot { IsTrue (has_slot self.old) }
        requires valid { IsValidEntry entry.now }
        ensures effect { IfOk result (λ effect. effect ≡ effect_of (agreed_by self.old) entry.now) }
        ensures ok { IfOk result (λ _. self.new ≡ knowing entry.now self.old) }
        ensures err { OnErr result (self.new ≡ self.old) }
    {
        let slot = self.known.count();
        let Ok(effect) = self.known.learn(slot, entry) else {
            return Err(OutOfMemory);
        };
        Ok(effect)
    }
}

/// A copy of a cluster.
fn copy_of(cfg: &Config) -> Result<Config, OutOfMemory>
    ensures { IfOk result (λ copy. copy ≡ cfg.now) }
{
    Ok(cfg.clone()?)
}
