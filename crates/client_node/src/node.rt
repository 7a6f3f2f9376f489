ghost use Rattle.std.specs.Prelude.{◌≡◌};

use crate::restart::{fit, fresh};
use crate::rules::on_learned;
use crate::state::{Client, ClientOwn};
use crate::steps::{deliver, hear, react};
use msg_wire::{Config, Event, Item, Message, Step};
use node_rules::{Done, Hears, Kind, Learns, Living};
use quota_table::{Entry, OutOfMemory};
use spec_base::NodeId;
use std::alloc::Global;

/// A client. Contracts see it as a `Core` of a `ClientState`: its node, and whether it is spent.
///
/// A step costs O(rows + 8), beyond what it stores and sends and what a learned entry costs.
pub type ClientNode = Living<ClientOwn>;

impl Learns for ClientOwn {
    ghost use Rattle.client_node.specs.Rules as rules;

    ghost on_learned = { rules.on_learned };

    fn learn(client: &mut Client, entry: &Entry, out: &mut Step) -> Done {
        let _effect = client.learn(entry, out)?;
        on_learned(client, out)
    }
}

impl Hears for ClientOwn {
    ghost use Rattle.client_node.specs.Steps as steps;

    ghost hear = { steps.hear };

    ghost is_under_way = { λ _. Unit {0} };

    fn hear(client: &mut Client, message: &Message, out: &mut Step) -> Done {
        hear(client, message.from, &message.what, out)
    }
}

impl Kind for ClientOwn {
    ghost use Rattle.msg_wire.specs.Nodes.{is_client};
    ghost use Rattle.client_node.specs.Restart as vault;
    ghost use Rattle.client_node.specs.Steps.{client_step};
    ghost use Rattle.client_node.specs.Sound.{IsClient};

    ghost is_kind = { is_client };

    ghost fresh_node = { vault.fresh_node };

    ghost fit = { vault.fit };

    ghost settled = { λ n. n };

    ghost step = { client_step };

    ghost is_sound = { IsClient };

    ghost is_fitting = { λ _. Unit {0} };

    fn fresh(alloc: Global, cfg: &Config, me: NodeId) -> Result<Client, OutOfMemory> {
        let client = fresh(alloc, cfg, me)?;
        Ok(client)
    }

    fn fit(client: &mut Client, item: &Item) -> Done {
        fit(client, item)
    }

    fn settle(_client: &mut Client) {}

    fn deliver(client: &mut Client, _alloc: Global, message: &Message, out: &mut Step) -> Done {
        deliver(client, message, out)?;
        Ok(())
    }

    fn react(client: &mut Client, _alloc: Global, event: &Event, out: &mut Step) -> Done {
        react(client, event, out)?;
        Ok(())
    }
}

/// What is read of a client.
pub trait ReadClient {
    /// How many of the submitted bodies are acknowledged, at most 2^48.
    fn acked(&self) -> u64;

    /// The shard that the client sends to, 0 to 5.
    fn home(&self) -> u8;
}

impl ReadClient for ClientNode {
    fn acked(&self) -> u64
        ensures { result ≡ self.now.node.own.acked }
    {
        self.node().own.acked()
    }

    fn home(&self) -> u8
        ensures { result ≡ self.now.node.own.home }
    {
        self.node().own.home()
    }
}
