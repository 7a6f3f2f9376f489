ghost use Rattle.std.specs.Prelude.{◌≡◌, ◌≤◌, ◌^◌, is_some};
ghost use Rattle.spec_delivery.specs.Buffers.{record_at};
ghost use Rattle.consumer_node.specs.Apps.{meaning};
ghost use Rattle.consumer_node.specs.States.{applied_of, app_state};

use crate::restart::{close, fit, fresh};
use crate::rules::on_learned;
use crate::state::{Consumer, ConsumerOwn};
use crate::steps::{deliver, hear, react};
use app_law::App;
use msg_wire::{Config, Event, Item, Message, Step};
use node_rules::{Done, Hears, Kind, Learns, Living};
use quota_table::{Entry, OutOfMemory};
use record_codec::Shown;
use spec_base::NodeId;
use std::alloc::Global;

/// A consumer over an application. Contracts see it as a `Core` of a `ConsumerState`: its node, and whether it is spent.
///
/// A step costs O(rows + log n) plus what it applies, undoes, confirms and sends.
pub type ConsumerNode<A> = Living<ConsumerOwn<A>>;

impl<A: App> Learns for ConsumerOwn<A> {
    ghost use Rattle.consumer_node.specs.Rules as rules;

    ghost on_learned = { rules.on_learned };

    fn learn(consumer: &mut Consumer<A>, entry: &Entry, out: &mut Step) -> Done {
        let effect = consumer.learn(entry, out)?;
        on_learned(consumer, effect, out)
    }
}

impl<A: App> Hears for ConsumerOwn<A> {
    ghost use Rattle.consumer_node.specs.Steps as steps;

    ghost hear = { steps.hear };

    ghost is_under_way = { λ _. Unit {0} };

    fn hear(consumer: &mut Consumer<A>, message: &Message, out: &mut Step) -> Done {
        hear(consumer, message.from, &message.what, out)
    }
}

impl<A: App> Kind for ConsumerOwn<A> {
    ghost use Rattle.std.specs.Prelude.{◌≡◌, []};
    ghost use Rattle.msg_wire.specs.Nodes.{is_consumer};
    ghost use Rattle.consumer_node.specs.Apps.{meaning};
    ghost use Rattle.consumer_node.specs.Restart as vault;
    ghost use Rattle.consumer_node.specs.Steps.{consumer_step};
    ghost use Rattle.consumer_node.specs.Sound.{IsConsumer};

    ghost is_kind = { is_consumer };

    ghost fresh_node = { vault.fresh_node (meaning A.fresh_state A.next_state A.output_of) };

    ghost fit = { vault.fit (meaning A.fresh_state A.next_state A.output_of) };

    ghost settled = { vault.closed_by };

    ghost step = { consumer_step (meaning A.fresh_state A.next_state A.output_of) };

    ghost is_sound = { IsConsumer };

    ghost is_fitting = { λ n. n.own.pending ≡ [] };

    fn fresh(alloc: Global, cfg: &Config, me: NodeId) -> Result<Consumer<A>, OutOfMemory> {
        let consumer = fresh(alloc, cfg, me)?;
        Ok(consumer)
    }

    fn fit(consumer: &mut Consumer<A>, item: &Item) -> Done {
        fit(consumer, item)
    }

    fn settle(consumer: &mut Consumer<A>) {
        close(consumer);
    }

    fn deliver(
        consumer: &mut Consumer<A>,
        alloc: Global,
        message: &Message,
        out: &mut Step,
    ) -> Done {
        deliver(consumer, alloc, message, out)?;
        Ok(())
    }

    fn react(consumer: &mut Consumer<A>, alloc: Global, event: &Event, out: &mut Step) -> Done {
        react(consumer, alloc, event, out)?;
        Ok(())
    }
}

/// What is read of a consumer.
pub trait ReadConsumer {
    /// How many positions are applied.
    fn applied(&self) -> u64;

    /// How many positions are confirmed, at most 2^48.
    fn confirmed(&self) -> u64;

    /// Whether a record of a shard is held at a local.
    fn held(&self, shard: u8, local: u64) -> bool
        requires { shard ≤ 5 };

    /// The application's state after all applied records, as text.
    fn show(&self) -> Shown;
}

impl<A: App> ReadConsumer for ConsumerNode<A> {
    fn applied(&self) -> u64
        ensures { result ≡ applied_of self.now.node.own }
    {
        self.node().own.applied()
    }

    fn confirmed(&self) -> u64
        ensures confirmed { result ≡ self.now.node.own.confirmed }
        ensures most { result ≤ 2 ^ 48 }
    {
        self.node().own.confirmed()
    }

    fn held(&self, shard: u8, local: u64) -> bool
        requires { shard ≤ 5 }
        ensures { result ≡ is_some (record_at self.now.node.own.lanes shard local) }
    {
        self.node().own.held(shard, local).is_some()
    }

    fn show(&self) -> Shown
        ensures { result ≡ A.shown_of (app_state (meaning A.fresh_state A.next_state A.output_of) self.now.node.own) }
    {
        self.node().own.show()
    }
}
