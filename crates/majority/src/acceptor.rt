ghost use Rattle.std.specs.Prelude.{◌≡◌, IfOk, OnOk, OnErr, option_map, option_copied};
ghost use Rattle.majority.specs.Ballots.{greater_promise};
ghost use Rattle.majority.specs.Acceptors.{fresh_acceptor, with_promise, with_vote, prepare_answer, after_prepare, accept_answer, after_accept};

use crate::answers::{AcceptAnswer, PrepareAnswer};
use crate::report;
use quota_table::OutOfMemory;
use std::marker::Model;

/// One replica's promise and acceptance for one slot. It is kept over restarts.
/// Contracts see it as an `AcceptorState`.
#[derive(Debug, Drop)]
pub struct Acceptor<V> {
    promised: Option<u32>,
    accepted: Option<(u32, V)>,
}

impl<V> Model for Acceptor<V> {
    ghost use Rattle.majority.specs.Acceptors.{AcceptorState};

    ghost Value = { AcceptorState V };

    ghost view = { λ a. record { promised = a.promised; accepted = a.accepted } };
}

impl<V> Acceptor<V> {
    /// Nothing promised, nothing accepted.
    pub fn new() -> Acceptor<V>
        ensures { result ≡ fresh_acceptor }
    {
        Acceptor {
            promised: None,
            accepted: None,
        }
    }

    /// The greatest ballot that was promised or accepted; None where none was.
    pub fn promised(&self) -> Option<u32>
        ensures { result ≡ self.now.promised }
    {
        self.promised
    }

    /// The acceptance of the greatest ballot, with that ballot; None where there is none.
    pub fn accepted(&self) -> Option<(u32, &V)>
        ensures { option_map (λ vote. (vote.0, vote.1.now)) result ≡ self.now.accepted }
    {
        match &self.accepted {
            Some((ballot, value)) => Some((*ballot, value)),
            None => None,
        }
    }

    /// The acceptance, as it is kept.
    pub(crate) fn report(&self) -> Option<&(u32, V)>
        ensures { option_copied result ≡ self.now.accepted }
    {
        self.accepted.as_ref()
    }

    /// The promise, where it is above the ballot.
    pub(crate) fn greater_promise(&self, ballot: u32) -> Option<u32>
        ensures { result ≡ greater_promise self.now.promised ballot }
    {
        match self.promised {
            Some(promised) if ballot < promised => Some(promised),
            _ => None,
        }
    }

    /// Promises the ballot, with no test.
    pub(crate) fn promise(&mut self, ballot: u32)
        ensures { self.new ≡ with_promise ballot self.old }
    {
        self.promised = Some(ballot);
    }
}

impl<V: Drop> Acceptor<V> {
    /// Accepts the value at the ballot, with no test.
    pub(crate) fn vote(&mut self, ballot: u32, value: V)
        ensures { self.new ≡ with_vote ballot value self.old }
    {
        self.promised = Some(ballot);
        self.accepted = Some((ballot, value));
    }

    /// An accept of the value at the ballot comes. `Lower` exactly where a greater ballot is promised, and then nothing
    /// changes; else `Taken`, and the ballot is promised and the value accepted at it. It takes no memory.
    pub fn on_accept(&mut self, ballot: u32, value: V) -> AcceptAnswer
        ensures answer { result ≡ accept_answer ballot self.old }
        ensures state { self.new ≡ after_accept ballot value self.old }
    {
        if let Some(promised) = self.greater_promise(ballot) {
            return AcceptAnswer::Lower { promised };
        }
        self.vote(ballot, value);
        AcceptAnswer::Taken
    }
}

impl<V: Clone> Acceptor<V> {
    /// A prepare of the ballot comes. `Lower` exactly where a greater ballot is promised, and then nothing changes;
    /// else the ballot is promised, and the answer has the acceptance so far. Where memory is refused nothing changes.
    pub fn on_prepare(&mut self, ballot: u32) -> Result<PrepareAnswer<V>, OutOfMemory>
        requires { (value copy : V) → V.is_clone value copy → copy ≡ value }
        ensures answer { IfOk result (λ answer. answer ≡ prepare_answer ballot self.old) }
        ensures state { OnOk result (self.new ≡ after_prepare ballot self.old) }
        ensures err { OnErr result (self.new ≡ self.old) }
    {
        if let Some(promised) = self.greater_promise(ballot) {
            return Ok(PrepareAnswer::Lower { promised });
        }
        let accepted = report::copied(&self.accepted)?;
        self.promise(ballot);
        Ok(PrepareAnswer::Promised { accepted })
    }
}
