//! A client's rules, one for each event and kind of message.

ghost use Rattle.std.specs.Prelude.{◌≡◌, ◌<◌, ◌≤◌, ◌^◌, OnOk, IfSome, if◌then◌else◌};
ghost use Rattle.quota_table.specs.Entries.{IsValidEntry};
ghost use Rattle.msg_wire.specs.Valid.{IsSlot, IsValidWhat};
ghost use Rattle.node_rules.specs.Rules.{decided};
ghost use Rattle.node_rules.specs.Turns.{turn_of, started};
ghost use Rattle.client_node.specs.Rules.{append_new, submit, go_on, hear_ack, on_learned as on_learned_of, row_for, move_to, hear_fate, send_again, on_tick};
ghost use Rattle.client_node.specs.States.{is_home_gone};
ghost use Rattle.client_node.specs.Rules.{ask_fate};
ghost use Rattle.client_node.specs.Steps.{hear};

use crate::sends::{append, append_all, ask_fate, is_home_gone, reach};
use crate::state::{Client, MOST_NUMBERS};
use fix_ante::Spot;
use msg_wire::{Item, Mark, Step, What, number_of};
use node_rules::Done;
use record_codec::Body;
use spec_base::NodeId;

/// A body is submitted: it is stored, and sent at once where its number is in reach, while the home is there.
pub(crate) fn submit(client: &mut Client, body: &Body, out: &mut Step) -> Done
    ensures { OnOk result (turn_of client.new out.new ≡ submit body.now (turn_of client.old out.old)) }
{
    let number = client.own.count();
    if number >= MOST_NUMBERS {
        return Ok(());
    }
    client.store(
        Item::Submitted {
            body: body.clone()?,
        },
        out,
    )?;
    client.own.push(body.clone()?)?;
    append_new(client, number, out)
}

/// Sends the body of a number in reach, while the home is there.
fn append_new(client: &Client, number: u64, out: &mut Step) -> Done
    ensures { OnOk result (turn_of client.now out.new ≡ append_new number (turn_of client.now out.old)) }
{
    let acked = client.own.acked();
    if acked <= number && number < acked + reach() && !is_home_gone(client) {
        append(client, number, out)
    } else {
        Ok(())
    }
}

/// After each learned entry while the home is gone, the fate of the records is asked for.
pub(crate) fn on_learned(client: &Client, out: &mut Step) -> Done
    ensures { OnOk result (turn_of client.now out.new ≡ (if is_home_gone (turn_of client.now out.old) then ask_fate (turn_of client.now out.old) else turn_of client.now out.old)) }
{
    if is_home_gone(client) {
        ask_fate(client, out)
    } else {
        Ok(())
    }
}

/// A record is covered: it is acknowledged where its number is the least without an acknowledgement.
pub(crate) fn hear_ack(client: &mut Client, number: u64, position: u64, out: &mut Step) -> Done
    ensures { OnOk result (turn_of client.new out.new ≡ hear_ack number position (turn_of client.old out.old)) }
{
    if number != client.own.acked() || number >= MOST_NUMBERS {
        return Ok(());
    }
    client.store(Item::Acked, out)?;
    client.show(Mark::Ack { number, position }, out)?;
    client.own.acknowledge();
    go_on(client, number, out)
}

/// After an acknowledged number the one that comes into reach is sent, or the fate of the rest asked for.
fn go_on(client: &Client, number: u64, out: &mut Step) -> Done
    requires { number < 2 ^ 48 }
    ensures { OnOk result (turn_of client.now out.new ≡ go_on number (turn_of client.now out.old)) }
{
    if is_home_gone(client) {
        ask_fate(client, out)
    } else {
        append(client, number + reach(), out)
    }
}

/// A replica of the home tells the client's next number: the client moves, where its home is gone and all numbers
/// below that one are acknowledged.
pub(crate) fn hear_fate(client: &mut Client, from: NodeId, next: u64, out: &mut Step) -> Done
    ensures { OnOk result (turn_of client.new out.new ≡ hear_fate from next (turn_of client.old out.old)) }
{
    if number_of(from) != client.own.home() || !is_home_gone(client) || next != client.own.acked() {
        return Ok(());
    }
    let Some(row) = row_for(client) else {
        return Ok(());
    };
    move_to(client, next, row, out)
}

/// The row of the current window that is the client's by its number.
fn row_for(client: &Client) -> Option<Spot>
    ensures row { result ≡ row_for (started client.now) }
    ensures shard { IfSome result (λ row. row.shard ≤ 5) }
{
    let spots = client.base.agreed().current().spots();
    let index = usize::from(number_of(client.base.me())) % spots.len();
    spots.get(index).copied()
}

/// The client moves: the new home is stored, and each submitted body in reach is sent there.
fn move_to(client: &mut Client, first: u64, row: Spot, out: &mut Step) -> Done
    requires first { first ≤ 2 ^ 48 }
    requires shard { row.shard ≤ 5 }
    ensures { OnOk result (turn_of client.new out.new ≡ move_to first row (turn_of client.old out.old)) }
{
    client.store(
        Item::Moved {
            shard: row.shard,
            first,
        },
        out,
    )?;
    client.own.move_to(row.shard, first);
    append_all(client, out)
}

/// Time passes: the next entry is asked for, and the fate of the records where the home is gone, else what is in reach
/// is sent once more.
pub(crate) fn on_tick(client: &mut Client, out: &mut Step) -> Done
    ensures { OnOk result (turn_of client.new out.new ≡ on_tick (turn_of client.old out.old)) }
{
    client.tick(out)?;
    send_again(client, out)
}

fn send_again(client: &Client, out: &mut Step) -> Done
    ensures { OnOk result (turn_of client.now out.new ≡ send_again (turn_of client.now out.old)) }
{
    if is_home_gone(client) {
        ask_fate(client, out)
    } else {
        append_all(client, out)
    }
}
