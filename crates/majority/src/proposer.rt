ghost use Rattle.std.specs.Prelude.{◌≡◌, ◌<◌, ◌^◌, ◌||◌, ◌==◌, not, max, unwrap_or, IfOk, IfErr, OnOk, OnErr, option_map, option_copied, is_some, [], ◌∷◌};
ghost use Rattle.majority.specs.Ballots.{next_ballot, IsNextBallot, is_majority};
ghost use Rattle.majority.specs.Acceptors.{with_promise, with_vote};
ghost use Rattle.majority.specs.Proposers.{takes_zero, ballot_for, attempt_started, own_started, IsStartError, greater_report, value_of_report, value_to_send, with_heard, with_sending, promise_answer, attempt_after_promise, own_after_promise, accepted_answer, attempt_after_accepted};

use crate::acceptor::Acceptor;
use crate::errors::StartError;
use crate::replicas::Replicas;
use std::alloc::AllocError;
use std::marker::Model;

mod steps;

/// Ballots are below this number, 2^31.
const BALLOT_LIMIT: u64 = 0x8000_0000;

/// One replica's attempt to have a value chosen for one slot, at one ballot. It is lost in a restart.
/// Contracts see it as an `Attempt`.
#[derive(Debug, Drop)]
pub struct Proposer<V> {
    replica: u8,
    n: u8,
    ballot: u32,
    wish: V,
    promises: Replicas,
    reported: Option<(u32, V)>,
    sending: Option<V>,
    acceptances: Replicas,
}

impl<V> Model for Proposer<V> {
    ghost use Rattle.majority.specs.Proposers.{Attempt};

    ghost Value = { Attempt V };

    ghost view = { λ p. record { replica = p.replica; n = p.n; ballot = p.ballot; wish = p.wish; promises = p.promises; reported = p.reported; sending = p.sending; acceptances = p.acceptances } };
}

/// The least ballot above the floor that the replica owns: its remainder by `n` is the replica.
fn next_ballot(replica: u8, n: u8, floor: u32) -> u64
    requires { replica < n }
    ensures { result ≡ next_ballot replica n floor }
{
    let (replica, n, floor) = (u64::from(replica), u64::from(n), u64::from(floor));
    let least = floor / n * n + replica;
    if floor < least { least } else { least + n }
}

/// Whether ballot 0 is taken: by replica 0, on an acceptor with neither promise nor acceptance.
fn takes_zero<V>(replica: u8, own: &Acceptor<V>) -> bool
    ensures { result ≡ takes_zero replica own.now }
{
    replica == 0 && own.promised().is_none() && own.accepted().is_none()
}

/// The ballot of a new attempt, which may be too great.
fn ballot_for<V>(replica: u8, n: u8, highest: u32, own: &Acceptor<V>) -> u64
    requires { replica < n }
    ensures { result ≡ ballot_for replica n highest own.now }
{
    if takes_zero(replica, own) {
        return 0;
    }
    next_ballot(replica, n, highest.max(own.promised().unwrap_or(0)))
}

impl<V: Clone> Proposer<V> {
    /// Starts an attempt of the replica, among `n`. Ballot 0 is taken exactly where the replica is 0 and `own` has neither
    /// promise nor acceptance, and `own` then accepts the wish at once. Else the ballot is the least one above `highest`
    /// and above `own`'s promise whose remainder by `n` is the replica, and `own` promises it.
    ///
    /// `NoBallot` comes exactly where that ballot is not below 2^31. At an error `own` is as it was.
    pub fn start(
        replica: u8,
        n: u8,
        highest: u32,
        own: &mut Acceptor<V>,
        wish: V,
    ) -> Result<Proposer<V>, StartError>
        requires replica { replica < n }
        requires exact { (value copy : V) → V.is_clone value copy → copy ≡ value }
        ensures attempt { IfOk result (λ attempt. attempt ≡ attempt_started replica n (ballot_for replica n highest own.old) wish) }
        ensures own { OnOk result (own.new ≡ own_started (ballot_for replica n highest own.old) wish own.old) }
        ensures below { OnOk result (ballot_for replica n highest own.old < 2 ^ 31) }
        ensures cause { IfErr result (IsStartError highest (ballot_for replica n highest own.old)) }
        ensures err { OnErr result (own.new ≡ own.old) }
    {
        let ballot = ballot_for(replica, n, highest, own);
        if ballot >= BALLOT_LIMIT {
            return Err(StartError::NoBallot { highest });
        }
        if ballot == 0 {
            Proposer::start_sending(replica, n, own, wish).map_err(|_| StartError::OutOfMemory)
        } else {
            own.promise(ballot as u32);
            Ok(Proposer::waiting(replica, n, ballot as u32, wish))
        }
    }

    /// An attempt at ballot 0, which sends its wish.
    fn start_sending(
        replica: u8,
        n: u8,
        own: &mut Acceptor<V>,
        wish: V,
    ) -> Result<Proposer<V>, AllocError>
        requires { (value copy : V) → V.is_clone value copy → copy ≡ value }
        ensures attempt { IfOk result (λ attempt. attempt ≡ attempt_started replica n 0 wish) }
        ensures own { OnOk result (own.new ≡ with_vote 0 wish own.old) }
        ensures err { OnErr result (own.new ≡ own.old) }
    {
        let vote = wish.clone()?;
        let sending = wish.clone()?;
        own.vote(0, vote);
        let mut attempt = Proposer::waiting(replica, n, 0, wish);
        attempt.send(sending);
        Ok(attempt)
    }

    /// An attempt that has its own promise alone.
    fn waiting(replica: u8, n: u8, ballot: u32, wish: V) -> Proposer<V>
        ensures { result ≡ record { replica = replica; n = n; ballot = ballot; wish = wish; promises = replica ∷ []; reported = None; sending = None; acceptances = [] } }
    {
        Proposer {
            replica,
            n,
            ballot,
            wish,
            promises: alone(replica),
            reported: None,
            sending: None,
            acceptances: Replicas::new(),
        }
    }

    /// Begins to send the value, which the own replica has accepted.
    fn send(&mut self, value: V)
        ensures { self.new ≡ with_sending value self.old }
    {
        self.sending = Some(value);
        self.acceptances = alone(self.replica);
    }
}

/// This replica alone.
fn alone(replica: u8) -> Replicas
    ensures { result ≡ replica ∷ [] }
{
    let mut replicas = Replicas::new();
    replicas.add(replica);
    replicas
}

impl<V> Proposer<V> {
    /// The attempt's ballot, below 2^31.
    pub fn ballot(&self) -> u32
        ensures { result ≡ self.now.ballot }
    {
        self.ballot
    }

    /// The value that is being sent; None before that.
    pub fn value(&self) -> Option<&V>
        ensures { option_copied result ≡ self.now.sending }
    {
        self.sending.as_ref()
    }
}
