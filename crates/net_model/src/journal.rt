ghost use Rattle.std.specs.Prelude.{◌≡◌, ◌++◌, ◌∷◌, ◌↔◌, [], OnOk, OnErr, IsTrue};
ghost use Rattle.net_model.specs.Journals.{IsJournal, GoesOn, last_stamp, has_journal_of, distinct_nodes};

use crate::history::HistoryEntry;
use quota_table::{Listed, OutOfMemory};
use spec_base::NodeId;
use std::alloc::Global;
use std::marker::Model;

/// An entry with the stamp of its step: a number above the stamp of the node's last step and of the frame that it took.
#[derive(Clone, Drop, PartialEq)]
pub struct Stamped {
    /// The stamp of the step.
    pub stamp: u64,
    /// What the step was.
    pub entry: HistoryEntry,
}

/// What one node wrote of its own steps, the oldest first; the stamps rise. Contracts see the node and that list.
#[derive(Drop)]
pub struct Journal {
    node: NodeId,
    steps: Listed<Stamped>,
}

impl Model for Journal {
    ghost use Rattle.net_model.specs.Journals.{OwnSteps, IsJournal};

    ghost Value = { OwnSteps };

    ghost view = { λ j. record { node = j.node; steps = j.steps } };

    ghost invariant = { λ j. IsJournal (record { node = j.node; steps = j.steps }) };
}

impl Journal {
    /// A journal of no step yet. It takes no memory.
    pub fn new(alloc: Global, node: NodeId) -> Journal
        ensures { result ≡ record { node = node; steps = [] } }
    {
        Journal {
            node,
            steps: Listed::new(alloc),
        }
    }

    /// The node whose steps these are.
    pub fn node(&self) -> NodeId
        ensures { result ≡ self.now.node }
    {
        self.node
    }

    /// The steps, the oldest first: all are the node's, and their stamps rise.
    pub fn steps(&self) -> &[Stamped]
        ensures steps { result.now ≡ self.now.steps }
        ensures journal { IsJournal self.now }
    {
        self.steps.as_slice()
    }

    /// The stamp of the last step; None where there is no step.
    pub fn last_stamp(&self) -> Option<u64>
        ensures { result ≡ last_stamp self.now.steps }
    {
        Some(self.steps().last()?.stamp)
    }

    /// Whether a step can be put at the end: it is the node's, and its stamp is above the last one.
    pub fn goes_on(&self, step: &Stamped) -> bool
        ensures { IsTrue result ↔ GoesOn self.now step.now }
    {
        let rises = match self.last_stamp() {
            Some(last) => last < step.stamp,
            None => true,
        };
        step.entry.node == self.node && rises
    }

    /// Puts a step of the node at the end, with a stamp above those before it (`goes_on`). At an error it is dropped, and
    /// the journal is as before.
    pub fn push(&mut self, step: Stamped) -> Result<(), OutOfMemory>
        requires { GoesOn self.old step }
        ensures ok { OnOk result (self.new ≡ record self.old { steps = self.old.steps ++ step ∷ [] }) }
        ensures err { OnErr result (self.new ≡ self.old) }
    {
        self.steps.push(step)
    }
}

/// Whether no two of the journals are of one node.
pub fn nodes_are_distinct(journals: &[Journal]) -> bool
    ensures { result ≡ distinct_nodes journals.now }
{
    match journals {
        [] => true,
        [first, rest @ ..] => !has_journal_of(first.node(), rest) && nodes_are_distinct(rest),
    }
}

/// Whether one of the journals is of this node.
fn has_journal_of(node: NodeId, journals: &[Journal]) -> bool
    ensures { result ≡ has_journal_of node journals.now }
{
    match journals {
        [] => false,
        [first, rest @ ..] => first.node() == node || has_journal_of(node, rest),
    }
}
