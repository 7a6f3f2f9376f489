//! The columns that a history is kept in.

ghost use Rattle.std.specs.Prelude.{◌≡◌, ◌<◌, ◌≤◌, ◌++◌, [], length, slice_get, slice_range, IfOk, OnOk, OnErr};
ghost use Rattle.net_model.specs.inside.Kept.{no_columns, sends_before, marks_before, entries_of, IsWhole, taken_as, with_event, with_step};

use crate::entry_ref::EntryRef;
use crate::steps::{KeptStep, Steps, Taken};
use msg_wire::{Event, Marks, Messages};
use quota_table::{Listed, OutOfMemory};
use spec_base::NodeId;
use std::alloc::Global;

/// A history by columns: small rows of one size for the steps, and beside them what all steps sent and showed.
#[derive(Drop)]
pub struct Columns {
    /// The steps, the oldest first.
    pub steps: Steps,
    /// All messages, in the order in which they were sent.
    pub messages: Messages,
    /// All marks, in the order in which they were shown.
    pub marks: Marks,
    /// The events that are kept whole: submissions, commands, and messages of no step of this history.
    pub events: Listed<Event>,
}

impl Columns {
    /// No step. It takes no memory.
    pub fn new(alloc: Global) -> Columns
        ensures { result ≡ no_columns }
    {
        Columns {
            steps: Steps::new(alloc),
            messages: Messages::new(alloc),
            marks: Marks::new(alloc),
            events: Listed::new(alloc),
        }
    }

    /// Where the sends and the marks of the step at an index begin.
    fn starts(&self, index: usize) -> (usize, usize)
        requires within { index < length self.now.steps }
        ensures { result ≡ (sends_before 0 self.now.steps index, marks_before 0 self.now.steps index) }
    {
        if index == 0 {
            return (0, 0);
        }
        match self.steps.get(index - 1) {
            Some(before) => (before.sends_end, before.marks_end),
            None => (0, 0),
        }
    }

    /// The entry at an index; None at or past the end.
    pub fn entry(&self, index: usize) -> Option<EntryRef<'_>>
        requires whole { IsWhole self.now }
        ensures { result ≡ slice_get (entries_of self.now) index }
    {
        let step = self.steps.get(index)?;
        let (sends_from, marks_from) = self.starts(index);
        Some(EntryRef {
            columns: self,
            node: step.node,
            taken: step.taken,
            sends: between(self.messages.as_slice(), sends_from, step.sends_end),
            marks: between(self.marks.as_slice(), marks_from, step.marks_end),
        })
    }

    /// Keeps an event for the step that is put next.
    pub fn keep(&mut self, event: Event) -> Result<Taken, OutOfMemory>
        ensures taken { IfOk result (λ taken. taken ≡ taken_as self.old event) }
        ensures ok { OnOk result (self.new ≡ with_event self.old event) }
        ensures err { OnErr result (self.new ≡ self.old) }
    {
        match event {
            Event::Tick => Ok(Taken::Tick),
            Event::Restart => Ok(Taken::Restart),
            whole => {
                let place = self.events.len();
                self.events.push(whole)?;
                Ok(Taken::Whole(place))
            }
        }
    }

    /// Puts a step at the end, and moves what it sent and showed. At an error the columns are as before.
    #[inline(always)]
    pub fn put(
        &mut self,
        node: NodeId,
        taken: Taken,
        sends: &mut Messages,
        marks: &mut Marks,
    ) -> Result<(), OutOfMemory>
        ensures ok { OnOk result (self.new ≡ with_step self.old node taken sends.old marks.old) }
        ensures moved { OnOk result ((sends.new ≡ []) × (marks.new ≡ [])) }
        ensures err { OnErr result (self.new ≡ self.old) }
    {
        let sent = self.messages.len();
        let shown = self.marks.len();
        append_any(&mut self.messages, sends)?;
        if let Err(error) = append_any(&mut self.marks, marks) {
            self.messages.truncate(sent);
            return Err(error);
        }
        let step = KeptStep {
            node,
            taken,
            sends_end: self.messages.len(),
            marks_end: self.marks.len(),
        };
        if let Err(error) = self.steps.push(step) {
            self.messages.truncate(sent);
            self.marks.truncate(shown);
            return Err(error);
        }
        Ok(())
    }
}

/// Moves the items of a list to the end of another, as `Listed::append`. Most steps have none: that costs one test.
#[inline(always)]
fn append_any<T>(all: &mut Listed<T>, more: &mut Listed<T>) -> Result<(), OutOfMemory>
    ensures ok { OnOk result (all.new ≡ all.old ++ more.old) }
    ensures moved { OnOk result (more.new ≡ []) }
    ensures err { OnErr result ((all.new ≡ all.old) × (more.new ≡ more.old)) }
{
    if more.is_empty() {
        return Ok(());
    }
    all.append(more)
}

/// The items from one index up to another.
fn between<T>(items: &[T], from: usize, end: usize) -> &[T]
    requires order { from ≤ end }
    requires within { end ≤ length items.now }
    ensures { result.now ≡ slice_range items.now from end }
{
    let (front, _) = items.split_at(end);
    let (_, part) = front.split_at(from);
    part
}
