ghost use Rattle.std.specs.Prelude.{◌≡◌, IfOk};
ghost use Rattle.std.specs.Option.{option_copied, option_to_list};
ghost use Rattle.net_model.specs.Pasts.{body_in};
ghost use Rattle.net_model.specs.Entries.{message_in};

use crate::columns::Columns;
use crate::history::HistoryEntry;
use crate::steps::Taken;
use msg_wire::{Event, Mark, Marks, Message, Messages};
use quota_table::OutOfMemory;
use record_codec::Body;
use spec_base::NodeId;
use std::alloc::Global;
use std::marker::Model;

/// One entry, seen in the history. Contracts see it as that entry.
#[derive(Drop)]
pub struct EntryRef<'a> {
    pub(crate) columns: &'a Columns,
    pub(crate) node: NodeId,
    pub(crate) taken: Taken,
    pub(crate) sends: &'a [Message],
    pub(crate) marks: &'a [Mark],
}

impl<'a> Model for EntryRef<'a> {
    ghost use Rattle.net_model.specs.declared.history.HistoryEntry.{HistoryEntry};

    ghost Value = { HistoryEntry };

    ghost use Rattle.net_model.specs.inside.Kept.{event_in, IsTakenIn};

    ghost view = { λ e. record { node = e.node; event = event_in e.columns.now e.taken; sends = e.sends.now; marks = e.marks.now } };

    ghost invariant = { λ e. IsTakenIn e.columns.now e.taken };
}

impl<'a> EntryRef<'a> {
    /// The node that made the step.
    pub fn node(&self) -> NodeId
        ensures { result ≡ self.now.node }
    {
        self.node
    }

    /// What it sent, in order.
    pub fn sends(&self) -> &'a [Message]
        ensures { result.now ≡ self.now.sends }
    {
        self.sends
    }

    /// What it showed, in order.
    pub fn marks(&self) -> &'a [Mark]
        ensures { result.now ≡ self.now.marks }
    {
        self.marks
    }

    /// The message that it took; None where it took something else.
    pub fn message(&self) -> Option<&'a Message>
        ensures { option_copied result ≡ message_in self.now.event }
    {
        match self.taken {
            Taken::Message(number) => self.columns.messages.as_slice().get(number),
            Taken::Whole(place) => match self.columns.events.as_slice().get(place) {
                Some(Event::Deliver(message)) => Some(message),
                _ => None,
            },
            _ => None,
        }
    }

    /// The body that it was given; None where it took something else.
    pub fn body(&self) -> Option<&'a Body>
        ensures { option_to_list (option_copied result) ≡ body_in self.now.event }
    {
        let Taken::Whole(place) = self.taken else {
            return None;
        };
        match self.columns.events.as_slice().get(place) {
            Some(Event::Submit { body, .. }) => Some(body),
            _ => None,
        }
    }

    /// A copy of the whole entry.
    pub fn to_entry(&self, alloc: Global) -> Result<HistoryEntry, OutOfMemory>
        ensures { IfOk result (λ entry. entry ≡ self.now) }
    {
        Ok(HistoryEntry {
            node: self.node,
            event: self.copy_of_event()?,
            sends: copy_of_messages(alloc, self.sends)?,
            marks: copy_of_marks(alloc, self.marks)?,
        })
    }

    fn copy_of_event(&self) -> Result<Event, OutOfMemory>
        ensures { IfOk result (λ event. event ≡ self.now.event) }
    {
        match self.taken {
            Taken::Message(number) => {
                let Some(message) = self.columns.messages.get(number as u64) else {
                    unreachable!()
                };
                Ok(Event::Deliver(message.clone()?))
            }
            Taken::Whole(place) => {
                let Some(event) = self.columns.events.get(place as u64) else {
                    unreachable!()
                };
                Ok(event.clone()?)
            }
            Taken::Tick => Ok(Event::Tick),
            Taken::Restart => Ok(Event::Restart),
        }
    }
}

pub(crate) fn copy_of_messages(alloc: Global, messages: &[Message]) -> Result<Messages, OutOfMemory>
    ensures { IfOk result (λ copy. copy ≡ messages.now) }
{
    let mut copy = Messages::new(alloc);
    for message in messages {
        copy.push(message.clone()?)?;
    }
    Ok(copy)
}

pub(crate) fn copy_of_marks(alloc: Global, marks: &[Mark]) -> Result<Marks, OutOfMemory>
    ensures { IfOk result (λ copy. copy ≡ marks.now) }
{
    let mut copy = Marks::new(alloc);
    for mark in marks {
        copy.push(mark.clone()?)?;
    }
    Ok(copy)
}
