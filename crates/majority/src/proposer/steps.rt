ghost use Rattle.std.specs.Prelude.{◌≡◌, ◌<◌, IfOk, OnOk, OnErr};
ghost use Rattle.majority.specs.Proposers.{value_to_send, with_heard, promise_answer, attempt_after_promise, own_after_promise, accepted_answer, attempt_after_accepted};

use super::Proposer;
use crate::acceptor::Acceptor;
use crate::answers::{AcceptedAnswer, PromiseAnswer};
use crate::report;
use quota_table::OutOfMemory;

impl<V: Clone> Proposer<V> {
    /// A promise at the attempt's ballot comes, with the acceptance that it reports. `own` is the acceptor that `start`
    /// was given, as later calls left it. The answers are judged in this order:
    ///
    /// - `Late` exactly where a value is being sent already; nothing changes.
    /// - `Lower` exactly where `own` has promised a greater ballot; nothing changes.
    /// - `Waiting` exactly where the promises are no majority yet; the own replica counts from the start on.
    /// - `Send` of the value of the greatest ballot reported, where `own`'s acceptance counts first and then the order in
    ///   which they came, or else of the wish. `own` accepts it.
    ///
    /// Where memory is refused nothing changes.
    pub fn on_promise(
        &mut self,
        from: u8,
        accepted: Option<(u32, V)>,
        own: &mut Acceptor<V>,
    ) -> Result<PromiseAnswer<V>, OutOfMemory>
        requires from { from < self.old.n }
        requires exact { (value copy : V) → V.is_clone value copy → copy ≡ value }
        ensures answer { IfOk result (λ answer. answer ≡ promise_answer from accepted own.old self.old) }
        ensures attempt { IfOk result (λ answer. self.new ≡ attempt_after_promise answer from accepted self.old) }
        ensures count { self.new.n ≡ self.old.n }
        ensures own { IfOk result (λ answer. own.new ≡ own_after_promise answer self.old.ballot own.old) }
        ensures err { OnErr result (self.new ≡ self.old) }
        ensures own_err { OnErr result (own.new ≡ own.old) }
    {
        if self.sending.is_some() {
            return Ok(PromiseAnswer::Late);
        }
        if let Some(promised) = own.greater_promise(self.ballot) {
            return Ok(PromiseAnswer::Lower { promised });
        }
        let have = self.promises.len_with(from);
        let n = usize::from(self.n);
        if 2 * have <= n {
            self.hear(from, accepted);
            return Ok(PromiseAnswer::Waiting { have: have as u8 });
        }
        let value = self.value_to_send(&accepted, own).clone()?;
        let vote = value.clone()?;
        let sending = value.clone()?;
        self.hear(from, accepted);
        self.send(sending);
        own.vote(self.ballot, vote);
        Ok(PromiseAnswer::Send { value })
    }

    /// Counts a promise and its report.
    fn hear(&mut self, from: u8, accepted: Option<(u32, V)>)
        ensures { self.new ≡ with_heard from accepted self.old }
    {
        self.promises.add(from);
        let replaced = match (&self.reported, &accepted) {
            (Some((earlier, _)), Some((later, _))) => earlier < later,
            (Some(_), None) => false,
            (None, _) => true,
        };
        if replaced {
            self.reported = accepted;
        }
    }

    /// The value to send once this last report has come.
    fn value_to_send<'a>(&'a self, accepted: &'a Option<(u32, V)>, own: &'a Acceptor<V>) -> &'a V
        ensures { result.now ≡ value_to_send own.now (with_heard 0 accepted.now self.now) }
    {
        let others = report::greater(self.reported.as_ref(), accepted.as_ref());
        match report::greater(own.report(), others) {
            Some((_, value)) => value,
            None => &self.wish,
        }
    }

    /// An acceptance at the attempt's ballot comes. `Early` exactly where no value is being sent, and nothing changes;
    /// else `Waiting` exactly where the acceptances are no majority yet, the own one and this one included; else
    /// `Chosen`. It takes no memory.
    pub fn on_accepted(&mut self, from: u8) -> AcceptedAnswer
        requires { from < self.old.n }
        ensures answer { result ≡ accepted_answer from self.old }
        ensures attempt { self.new ≡ attempt_after_accepted from self.old }
        ensures count { self.new.n ≡ self.old.n }
    {
        if self.sending.is_none() {
            return AcceptedAnswer::Early;
        }
        self.acceptances.add(from);
        let have = self.acceptances.len();
        let n = usize::from(self.n);
        if 2 * have > n {
            AcceptedAnswer::Chosen
        } else {
            AcceptedAnswer::Waiting { have: have as u8 }
        }
    }
}
