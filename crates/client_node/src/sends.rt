//! What a client sends.

ghost use Rattle.std.specs.Prelude.{◌≡◌, ◌≤◌, OnOk};
ghost use Rattle.node_rules.specs.Turns.{turn_of, started};
ghost use Rattle.client_node.specs.States.{is_home_gone, reach};
ghost use Rattle.client_node.specs.Rules.{append, append_all, ask_fate};

use crate::state::Client;
use msg_wire::{Step, What};
use node_rules::Done;
use spec_base::{NodeId, Side};

/// How many numbers from the acknowledged count on a client sends.
const REACH: u64 = 8;

/// That many. The definition is opened here alone.
#[tactic(auto, unfolding(crate::specs::States::reach))]
pub(crate) fn reach() -> u64
    ensures numbers { result ≡ reach }
    ensures few { result ≤ 8 }
{
    REACH
}

/// Whether the known entries say that the client's home is gone.
pub(crate) fn is_home_gone(client: &Client) -> bool
    ensures { result ≡ is_home_gone (started client.now) }
{
    client.base.agreed().gone(client.own.home()).is_some()
}

/// Sends the body of a number to the home's primary, where it was submitted.
pub(crate) fn append(client: &Client, number: u64, out: &mut Step) -> Done
    ensures { OnOk result (turn_of client.now out.new ≡ append (turn_of client.now out.old) number) }
{
    let Some(body) = client.own.body(number) else {
        return Ok(());
    };
    let what = What::Append {
        first: client.own.first(),
        number,
        body: body.clone()?,
    };
    client.send(NodeId::Shard(client.own.home(), Side::Primary), what, out)
}

/// Sends each submitted body in reach.
pub(crate) fn append_all(client: &Client, out: &mut Step) -> Done
    ensures { OnOk result (turn_of client.now out.new ≡ append_all (turn_of client.now out.old)) }
{
    let acked = client.own.acked();
    for ahead in 0..reach() {
        append(client, acked + ahead, out)?;
    }
    Ok(())
}

/// Asks both replicas of a home that is gone what became of the records.
pub(crate) fn ask_fate(client: &Client, out: &mut Step) -> Done
    ensures { OnOk result (turn_of client.now out.new ≡ ask_fate (turn_of client.now out.old)) }
{
    let what = What::AskFate {
        first: client.own.first(),
        least: client.own.acked(),
    };
    client.send_to_replicas(client.own.home(), &what, out)
}
