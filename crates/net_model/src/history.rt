ghost use Rattle.std.specs.Prelude.{◌≡◌, ◌<◌, ◌++◌, ◌∷◌, ◌↔◌, [], length, slice_get, Some, IfOk, OnOk, OnErr, IsTrue};
ghost use Rattle.net_model.specs.Names.events;
ghost use Rattle.net_model.specs.Pasts.{past_of, sent, shown};

use crate::columns::Columns;
use crate::entry_ref::EntryRef;
use crate::steps::Taken;
use msg_wire::{Event, Mark, Marks, Message, Messages, Step};
use quota_table::OutOfMemory;
use spec_base::NodeId;
use std::alloc::Global;
use std::marker::Model;

/// One step of one node: what it took, and what it sent and showed.
///
/// What the step made stable is not part of it: that is what the node's vault keeps.
#[derive(Clone, Drop, PartialEq)]
pub struct HistoryEntry {
    /// The node that made the step.
    pub node: NodeId,
    /// What it took.
    pub event: Event,
    /// What it sent, in order. Messages are numbered 0, 1, 2 and so on over a whole history, in this order.
    pub sends: Messages,
    /// What it showed, in order.
    pub marks: Marks,
}

/// A run: the steps of all nodes, in the order in which they were made. Contracts see it as the list of its entries.
///
/// It is kept in columns: no entry has lists of its own, and a delivery of one of its messages is the message's number.
#[derive(Drop)]
pub struct History {
    columns: Columns,
}

impl Model for History {
    ghost use Rattle.std.specs.Prelude.{List};
    ghost use Rattle.net_model.specs.declared.history.HistoryEntry.{HistoryEntry};

    ghost Value = { List HistoryEntry };

    ghost use Rattle.net_model.specs.inside.Kept.{entries_of, IsWhole};

    ghost view = { λ h. entries_of h.columns };

    ghost invariant = { λ h. IsWhole h.columns };
}

impl History {
    /// No entry. It takes no memory.
    pub fn new(alloc: Global) -> History
        ensures { result ≡ [] }
    {
        History {
            columns: Columns::new(alloc),
        }
    }

    /// How many entries there are.
    pub fn len(&self) -> usize
        ensures { result ≡ length self.now }
    {
        self.columns.steps.len()
    }

    pub fn is_empty(&self) -> bool
        ensures { IsTrue result ↔ (self.now ≡ []) }
    {
        self.len() == 0
    }

    /// The entry at an index, in O(1); None at or past the end.
    pub fn get(&self, index: usize) -> Option<EntryRef<'_>>
        ensures { result ≡ slice_get self.now index }
    {
        self.columns.entry(index)
    }

    /// All messages, in the order in which they were sent: each one's index is its number.
    pub fn messages(&self) -> &[Message]
        ensures { result.now ≡ sent (past_of self.now) }
    {
        self.columns.messages.as_slice()
    }

    /// All marks, in the order in which they were shown.
    pub fn marks(&self) -> &[Mark]
        ensures { result.now ≡ shown (past_of self.now) }
    {
        self.columns.marks.as_slice()
    }

    /// Puts an entry at the end. At an error it is dropped, and the history is as before.
    pub fn push(&mut self, entry: HistoryEntry) -> Result<(), OutOfMemory>
        ensures ok { OnOk result (self.new ≡ self.old ++ entry ∷ []) }
        ensures err { OnErr result (self.new ≡ self.old) }
    {
        let HistoryEntry {
            node,
            event,
            mut sends,
            mut marks,
        } = entry;
        self.put(node, event, &mut sends, &mut marks)
    }

    /// Puts the entry of a step at the end. The step's sends and marks are moved: it has none then, and keeps their room.
    /// At an error the history is as before, and the step's sends and marks may be gone.
    pub fn push_step(
        &mut self,
        node: NodeId,
        event: Event,
        step: &mut Step,
    ) -> Result<(), OutOfMemory>
        ensures ok { OnOk result (self.new ≡ self.old ++ record { node = node; event = event; sends = step.old.sends; marks = step.old.marks } ∷ []) }
        ensures moved { OnOk result (step.new ≡ record step.old { sends = []; marks = [] }) }
        ensures err { OnErr result (self.new ≡ self.old) }
    {
        self.put(node, event, &mut step.sends, &mut step.marks)
    }

    /// Puts the entry of a step at the end that took the message of a number; the message is not copied. Otherwise as
    /// `push_step`.
    #[inline(always)]
    pub fn push_delivery(
        &mut self,
        node: NodeId,
        number: usize,
        step: &mut Step,
    ) -> Result<(), OutOfMemory>
        requires number { number < length (sent (past_of self.old)) }
        ensures ok { OnOk result ((message : _) → slice_get (sent (past_of self.old)) number ≡ Some message → self.new ≡ self.old ++ record { node = node; event = events.Deliver message; sends = step.old.sends; marks = step.old.marks } ∷ []) }
        ensures moved { OnOk result (step.new ≡ record step.old { sends = []; marks = [] }) }
        ensures err { OnErr result (self.new ≡ self.old) }
    {
        let taken = Taken::Message(number);
        self.columns
            .put(node, taken, &mut step.sends, &mut step.marks)?;
        Ok(())
    }

    /// Puts an entry at the end, and moves its sends and marks.
    fn put(
        &mut self,
        node: NodeId,
        event: Event,
        sends: &mut Messages,
        marks: &mut Marks,
    ) -> Result<(), OutOfMemory>
        ensures ok { OnOk result (self.new ≡ self.old ++ record { node = node; event = event; sends = sends.old; marks = marks.old } ∷ []) }
        ensures moved { OnOk result ((sends.new ≡ []) × (marks.new ≡ [])) }
        ensures err { OnErr result (self.new ≡ self.old) }
    {
        let taken = self.columns.keep(event)?;
        self.columns.put(node, taken, sends, marks)?;
        Ok(())
    }
}
