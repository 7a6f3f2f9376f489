ghost use Rattle.std.specs.Prelude.{◌≡◌, ◌+◌, ◌<◌, [], get_or, slice_set, IfOk, OnOk, option_map};
ghost use Rattle.std.specs.Option.{option_map_or};
ghost use Rattle.majority.specs.Acceptors.{fresh_acceptor, prepare_answer, after_prepare, accept_answer, after_accept};
ghost use Rattle.majority.specs.Proposers.{Attempt, ballot_for, attempt_started, own_started, promise_answer, attempt_after_promise, own_after_promise};
ghost use Rattle.quota_table.specs.declared.entry.Entry.{Entry};
ghost use Rattle.seq_node.specs.States.{reaching};
ghost use Rattle.seq_node.specs.Attempts.{ballot_below};
ghost use Rattle.seq_node.specs.Values.{is_touched};

use majority::{AcceptAnswer, Acceptor, PrepareAnswer, PromiseAnswer, Proposer, StartError};
use quota_table::{Entry, OutOfMemory};
use std::alloc::Global;
use std::marker::Model;

/// The acceptors of the slots from 0 on, up to the last that has one. Contracts see it as the list of them.
///
/// A slot past the last has a fresh acceptor, which is put there, with those before it, once something changes it. Each
/// call is O(1) beyond that.
#[derive(Debug, Drop)]
pub struct Acceptors {
    items: Vec<Acceptor<Entry>>,
}

impl Model for Acceptors {
    ghost use Rattle.std.specs.Prelude.{List};
    ghost use Rattle.quota_table.specs.declared.entry.Entry.{Entry};
    ghost use Rattle.majority.specs.Acceptors.{AcceptorState};

    ghost Value = { List (AcceptorState Entry) };

    ghost view = { λ a. a.items.items };
}

impl Acceptors {
    /// No slot has an acceptor. It takes no memory.
    pub fn new(alloc: Global) -> Acceptors
        ensures { result ≡ [] }
    {
        Acceptors {
            items: Vec::new(alloc),
        }
    }

    /// Whether the acceptor of a slot has promised or accepted.
    pub fn is_touched(&self, slot: u32) -> bool
        ensures { result ≡ is_touched (get_or self.now slot fresh_acceptor) }
    {
        match self.items.get(slot as usize) {
            Some(acceptor) => acceptor.promised().is_some() || acceptor.accepted().is_some(),
            None => false,
        }
    }

    /// A prepare of a ballot comes to a slot's acceptor: its answer, and what it leaves.
    pub fn on_prepare(
        &mut self,
        slot: u32,
        ballot: u32,
    ) -> Result<PrepareAnswer<Entry>, OutOfMemory>
        ensures answer { IfOk result (λ answer. answer ≡ prepare_answer ballot (get_or self.old slot fresh_acceptor)) }
        ensures state { OnOk result (self.new ≡ slice_set (reaching (slot + 1) self.old) slot (after_prepare ballot (get_or self.old slot fresh_acceptor))) }
    {
        self.reach(slot)?;
        self.items[slot as usize].on_prepare(ballot)
    }

    /// An accept of a value at a ballot comes to a slot's acceptor: its answer, and what it leaves.
    pub fn on_accept(
        &mut self,
        slot: u32,
        ballot: u32,
        entry: Entry,
    ) -> Result<AcceptAnswer, OutOfMemory>
        ensures answer { IfOk result (λ answer. answer ≡ accept_answer ballot (get_or self.old slot fresh_acceptor)) }
        ensures state { OnOk result (self.new ≡ slice_set (reaching (slot + 1) self.old) slot (after_accept ballot entry (get_or self.old slot fresh_acceptor))) }
    {
        self.reach(slot)?;
        Ok(self.items[slot as usize].on_accept(ballot, entry))
    }

    /// An attempt of a replica among `seqs` starts at a slot, with a ballot above `highest` and above what the slot's
    /// acceptor has promised. None where no such ballot is below 2^31; then all is as before.
    pub fn start(
        &mut self,
        slot: u32,
        replica: u8,
        seqs: u8,
        highest: u32,
        value: Entry,
    ) -> Result<Option<Proposer<Entry>>, OutOfMemory>
        requires { replica < seqs }
        ensures attempt { IfOk result (λ started. started ≡ option_map (λ ballot. attempt_started replica seqs ballot value) (ballot_below (ballot_for replica seqs highest (get_or self.old slot fresh_acceptor)))) }
        ensures state { IfOk result (λ started. self.new ≡ option_map_or (λ (a : Attempt Entry). slice_set (reaching (slot + 1) self.old) slot (own_started a.ballot value (get_or self.old slot fresh_acceptor))) started self.old) }
    {
        let len = self.items.len();
        self.reach(slot)?;
        match Proposer::start(
            replica,
            seqs,
            highest,
            &mut self.items[slot as usize],
            value,
        ) {
            Ok(attempt) => Ok(Some(attempt)),
            Err(StartError::NoBallot { .. }) => {
                self.items.truncate(len);
                Ok(None)
            }
            Err(StartError::OutOfMemory) => Err(OutOfMemory),
        }
    }

    /// A promise comes to an attempt at a slot: the attempt's answer, what it leaves of the attempt, and of the slot's
    /// acceptor.
    pub fn on_promise(
        &mut self,
        slot: u32,
        attempt: &mut Proposer<Entry>,
        from: u8,
        report: Option<(u32, Entry)>,
    ) -> Result<PromiseAnswer<Entry>, OutOfMemory>
        requires { from < attempt.old.n }
        ensures answer { IfOk result (λ answer. answer ≡ promise_answer from report (get_or self.old slot fresh_acceptor) attempt.old) }
        ensures attempt { IfOk result (λ answer. attempt.new ≡ attempt_after_promise answer from report attempt.old) }
        ensures state { IfOk result (λ answer. self.new ≡ slice_set (reaching (slot + 1) self.old) slot (own_after_promise answer attempt.old.ballot (get_or self.old slot fresh_acceptor))) }
    {
        self.reach(slot)?;
        attempt.on_promise(from, report, &mut self.items[slot as usize])
    }

    /// Puts fresh acceptors at the end, so that a slot has one.
    fn reach(&mut self, slot: u32) -> Result<(), OutOfMemory>
        ensures { OnOk result (self.new ≡ reaching (slot + 1) self.old) }
    {
        let missing = (slot as usize + 1).saturating_sub(self.items.len());
        for _place in 0..missing {
            self.items.push(Acceptor::new())?;
        }
        Ok(())
    }
}
