//! The end of a primary's step: durable records that have a position are promised and delivered.

ghost use Rattle.std.specs.Prelude.{◌≡◌, ◌≤◌, ◌^◌, Some, slice_get, OnOk};
ghost use Rattle.cut_core.specs.Map.{leased};
ghost use Rattle.msg_wire.specs.Nodes.{number_of};
ghost use Rattle.node_rules.specs.Nodes.{agreed_by};
ghost use Rattle.node_rules.specs.Turns.{turn_of};
ghost use Rattle.shard_node.specs.Promises.{promise_record, promise, promise_all, promise_some};

use crate::state::{Replica, is_primary, shard_of};
use msg_wire::{Mark, Step, What};
use node_rules::Done;

/// A primary promises all that it can.
pub fn promise_all(replica: &mut Replica, out: &mut Step) -> Done
    requires { replica.old.own.durable ≤ 2 ^ 48 }
    ensures { OnOk result (turn_of replica.new out.new ≡ promise_all (turn_of replica.old out.old)) }
{
    if is_primary(replica) {
        promise_some(replica, out)
    } else {
        Ok(())
    }
}

/// Promises the durable locals, up to the first that no known window gives a position.
fn promise_some(replica: &mut Replica, out: &mut Step) -> Done
    requires { replica.old.own.durable ≤ 2 ^ 48 }
    ensures { OnOk result (turn_of replica.new out.new ≡ promise_some (turn_of replica.old out.old)) }
{
    while replica.own.promised < replica.own.durable {
        let promised = replica.own.promised;
        let Some(position) = leased_position(replica, promised) else {
            break;
        };
        promise_record(replica, position, promised, out)?;
        replica.own.promised = promised + 1;
    }
    Ok(())
}

/// The position that the known windows lease to a local.
fn leased_position(replica: &Replica, local: u64) -> Option<u64>
    ensures { result ≡ leased (agreed_by replica.now.base) (number_of replica.now.base.me) local }
{
    let lease = replica.base.known().leased(shard_of(replica), local)?;
    Some(lease.position)
}

/// Promises the record of a local at its position, and delivers it to every consumer. A record that the log does not
/// have is left out; no run comes there.
fn promise_record(replica: &Replica, position: u64, local: u64, out: &mut Step) -> Done
    ensures { OnOk result (turn_of replica.now out.new ≡ promise_record (Some position) (slice_get replica.now.own.log local) local (turn_of replica.now out.old)) }
{
    let Some(rec) = replica.own.log.get(local) else {
        return Ok(());
    };
    let shown = rec.clone()?;
    replica.show(
        Mark::Promise {
            position,
            rec: shown,
        },
        out,
    )?;
    let rec = rec.clone()?;
    replica.send_to_consumers(&What::Deliver { local, rec }, out)
}
