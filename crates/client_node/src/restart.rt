//! A client as its cluster begins it, and as the items of its vault give it.

ghost use Rattle.std.specs.Prelude.{◌≡◌, IfOk, OnOk, IsTrue};
ghost use Rattle.msg_wire.specs.Nodes.{is_client};
ghost use Rattle.msg_wire.specs.Valid.{IsValidConfig, IsNodeOf, IsValidItem, AreValidItems};
ghost use Rattle.client_node.specs.Restart.{fresh_node, fit, fit_body, fit_ack, restart_of, reset_of};

use crate::state::{Client, ClientOwn, MOST_NUMBERS};
use msg_wire::{Config, Item, Items, number_of};
use node_rules::{Done, Node, NodeBase};
use quota_table::OutOfMemory;
use record_codec::Body;
use spec_base::NodeId;
use std::alloc::Global;

/// A client at the home that the cluster gives it.
pub(crate) fn fresh(alloc: Global, cfg: &Config, node: NodeId) -> Result<Client, OutOfMemory>
    requires valid { IsValidConfig cfg.now }
    requires node { IsNodeOf cfg.now node }
    requires client { IsTrue (is_client node) }
    ensures { IfOk result (λ client. client ≡ fresh_node cfg.now node) }
{
    let home = cfg.homes.as_slice()[usize::from(number_of(node))];
    Ok(Node {
        base: NodeBase::new(alloc, cfg, node)?,
        own: ClientOwn::new(alloc, home),
    })
}

/// Forgets what a restart forgets: what the client was told of, and the ticks.
pub(crate) fn reset(client: &mut Client)
    ensures { client.new ≡ reset_of client.old }
{
    client.base.reset();
}

/// Takes one more item, where it fits.
pub(crate) fn fit(client: &mut Client, item: &Item) -> Done
    requires { IsValidItem item.now }
    ensures { OnOk result (client.new ≡ fit client.old item.now) }
{
    match item {
        Item::Known { entry } => client.fit_known(entry),
        Item::Submitted { body } => fit_body(client, body),
        Item::Acked => {
            fit_ack(client);
            Ok(())
        }
        Item::Moved { shard, first } => {
            client.own.move_to(*shard, *first);
            Ok(())
        }
        _ => Ok(()),
    }
}

fn fit_body(client: &mut Client, body: &Body) -> Done
    ensures { OnOk result (client.new ≡ fit_body body.now client.old) }
{
    if client.own.count() < MOST_NUMBERS {
        client.own.push(body.clone()?)?;
    }
    Ok(())
}

fn fit_ack(client: &mut Client)
    ensures { client.new ≡ fit_ack client.old }
{
    if client.own.acked() < MOST_NUMBERS {
        client.own.acknowledge();
    }
}
