//! What comes to a node, as a line says it.

ghost use Rattle.std.specs.Prelude.{IfOk};
ghost use Rattle.spec_base.specs.Spelling.{IsValidNode};
ghost use Rattle.msg_wire.specs.Valid.{IsValidEvent};

use crate::messages::said;
use crate::words::{body, first, shard, window};
use msg_wire::{Command, Event, Message};
use spec_base::{NodeId, unspell};
use std::alloc::Global;
use std::test::Fail;

/// The event that comes to a node: `tick`, `restart`, `submit BODY`, `table ROUNDS SHARD:QUOTA ..`, `remove SHARD`, or the node that
/// a message is from and what it says. Errors: a line that is none of these, or a number out of range.
pub fn event(alloc: Global, me: NodeId, line: &str) -> Result<Event, Fail>
    requires { IsValidNode me }
    ensures { IfOk result IsValidEvent }
{
    let (word, rest) = first(line);
    match word {
        "tick" => Ok(Event::Tick),
        "restart" => Ok(Event::Restart),
        "submit" => Ok(Event::Submit {
            by: 0,
            body: body(alloc, rest)?,
        }),
        "remove" => Ok(Event::Command(Command::Remove {
            shard: shard(rest)?,
        })),
        "table" => table(alloc, rest),
        from => delivery(alloc, me, from, rest),
    }
}

fn delivery(alloc: Global, me: NodeId, from: &str, line: &str) -> Result<Event, Fail>
    requires { IsValidNode me }
    ensures { IfOk result IsValidEvent }
{
    let from = unspell(from.as_bytes()).ok_or("no node")?;
    let what = said(alloc, line)?;
    Ok(Event::Deliver(Message { from, to: me, what }))
}

fn table(alloc: Global, line: &str) -> Result<Event, Fail>
    ensures { IfOk result IsValidEvent }
{
    let (rounds, rows) = window(alloc, line)?;
    Ok(Event::Command(Command::Table { rounds, rows }))
}
