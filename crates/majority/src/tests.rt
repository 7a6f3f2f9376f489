ghost use Rattle.std.specs.Prelude.{◌≡◌, IfOk};

use crate::{
    AcceptAnswer, AcceptedAnswer, Acceptor, PrepareAnswer, PromiseAnswer, Proposer, RecoverError,
    StartError, VoteJournal, recover,
};
use quota_table::{Listed, OutOfMemory};
use std::alloc::Global;
use std::test::Fail;

const X: u8 = 7;

const Y: u8 = 9;

#[test]
fn the_first_attempt_sends_at_once(rt: HostRuntime) -> Result<(), Fail> {
    let mut zero = Acceptor::new();
    let attempt = Proposer::start(0, 3, 0, &mut zero, X)?;
    assert_eq!(rt; attempt.ballot(), 0);
    assert_eq!(rt; attempt.value(), Some(&X));
    assert_eq!(rt; zero.accepted(), Some((0, &X)));
    Ok(())
}

#[test]
fn a_majority_promises_and_accepts(rt: HostRuntime) -> Result<(), Fail> {
    let mut one = Acceptor::new();
    let mut two = Acceptor::new();
    let mut attempt = Proposer::start(1, 3, 0, &mut one, Y)?;
    assert_eq!(rt; attempt.ballot(), 1);
    assert_eq!(rt; attempt.on_accepted(2), AcceptedAnswer::Early);
    assert_eq!(rt;
        two.on_prepare(1)?,
        PrepareAnswer::Promised { accepted: None }
    );
    assert_eq!(rt;
        attempt.on_promise(2, None, &mut one)?,
        PromiseAnswer::Send { value: Y }
    );
    assert_eq!(rt; attempt.on_promise(0, None, &mut one)?, PromiseAnswer::Late);
    assert_eq!(rt; two.on_accept(1, Y), AcceptAnswer::Taken);
    assert_eq!(rt; attempt.on_accepted(2), AcceptedAnswer::Chosen);
    Ok(())
}

#[test]
fn a_restarted_replica_sends_what_was_chosen(rt: HostRuntime) -> Result<(), Fail> {
    // replica 0 voted X at ballot 0 and restarted; then replicas 1 and 2 chose Y at ballot 1
    let mut zero = Acceptor::new();
    zero.on_accept(0, X);
    let mut one = Acceptor::new();
    one.on_accept(1, Y);
    let mut again = Proposer::start(0, 3, 1, &mut zero, X)?;
    assert_eq!(rt; again.ballot(), 3);
    assert_eq!(rt;
        one.on_prepare(3)?,
        PrepareAnswer::Promised {
            accepted: Some((1, Y))
        }
    );
    assert_eq!(rt;
        again.on_promise(1, Some((1, Y)), &mut zero)?,
        PromiseAnswer::Send { value: Y }
    );
    Ok(())
}

#[test]
fn a_greater_promise_stands_in_the_way(rt: HostRuntime) -> Result<(), Fail> {
    let mut two = Acceptor::new();
    let mut attempt = Proposer::start(2, 3, 0, &mut two, X)?;
    assert_eq!(rt; attempt.ballot(), 2);
    assert_eq!(rt;
        two.on_prepare(4)?,
        PrepareAnswer::Promised { accepted: None }
    );
    assert_eq!(rt;
        attempt.on_promise(0, None, &mut two)?,
        PromiseAnswer::Lower { promised: 4 }
    );
    assert_eq!(rt; two.on_prepare(3)?, PrepareAnswer::Lower { promised: 4 });
    assert_eq!(rt; two.on_accept(3, X), AcceptAnswer::Lower { promised: 4 });
    assert_eq!(rt; two.promised(), Some(4));
    assert_eq!(rt; two.accepted(), None);
    Ok(())
}

#[test]
fn ballots_go_up_by_owner(rt: HostRuntime) -> Result<(), Fail> {
    // replica, count, highest, the own promise; the ballot, or none below 2^31
    let rows = [
        (0, 3, 0, None, Some(0)),
        (0, 3, 7, None, Some(0)),
        (0, 3, 0, Some(0), Some(3)),
        (0, 3, 3, Some(0), Some(6)),
        (1, 3, 0, None, Some(1)),
        (1, 3, 1, None, Some(4)),
        (2, 3, 0, Some(4), Some(5)),
        (4, 5, 3, Some(9), Some(14)),
        (0, 1, 0, Some(0), Some(1)),
        (1, 3, 0x7fff_fffe, None, Some(0x7fff_ffff)),
        (2, 3, 0x7fff_fffe, None, None),
        (0, 1, 0xffff_ffff, Some(1), None),
    ];
    for (replica, n, highest, promised, want) in rows {
        let mut own = Acceptor::new();
        if let Some(ballot) = promised {
            own.on_prepare(ballot)?;
        }
        assert!(rt; replica < n);
        let got = match Proposer::start(replica, n, highest, &mut own, X) {
            Ok(attempt) => Some(attempt.ballot()),
            Err(error) => {
                assert_eq!(rt; error, StartError::NoBallot { highest });
                None
            }
        };
        assert_eq!(rt; got, want, "replica {replica} of {n} above {highest}");
    }
    Ok(())
}

#[test]
fn the_greatest_report_is_sent(rt: HostRuntime) -> Result<(), Fail> {
    // what the own acceptor holds and two others report; the value that is sent, where the wish is X
    let rows = [
        (None, None, None, X),
        (None, Some((2, 1)), Some((1, 2)), 1),
        (None, Some((1, 1)), Some((2, 2)), 2),
        (None, Some((2, 1)), Some((2, 2)), 1),
        (Some((2, 3)), Some((2, 1)), Some((1, 2)), 3),
        (Some((1, 3)), Some((0, 1)), None, 3),
        (Some((1, 3)), None, Some((4, 2)), 2),
    ];
    for (held, second, third, want) in rows {
        let mut own = Acceptor::new();
        if let Some((ballot, value)) = held {
            own.on_accept(ballot, value);
        }
        let mut attempt = Proposer::start(1, 5, 5, &mut own, X)?;
        let early = attempt.on_promise(2, second, &mut own)?;
        assert_eq!(rt; early, PromiseAnswer::Waiting { have: 2 });
        let enough = attempt.on_promise(3, third, &mut own)?;
        assert_eq!(rt; enough, PromiseAnswer::Send { value: want });
    }
    Ok(())
}

#[test]
fn a_replica_counts_once(rt: HostRuntime) -> Result<(), Fail> {
    let mut own = Acceptor::new();
    let mut attempt = Proposer::start(0, 5, 0, &mut own, X)?;
    assert_eq!(rt; attempt.on_accepted(0), AcceptedAnswer::Waiting { have: 1 });
    assert_eq!(rt; attempt.on_accepted(2), AcceptedAnswer::Waiting { have: 2 });
    assert_eq!(rt; attempt.on_accepted(2), AcceptedAnswer::Waiting { have: 2 });
    assert_eq!(rt; attempt.on_accepted(4), AcceptedAnswer::Chosen);
    Ok(())
}

#[test]
fn a_replica_alone_chooses_at_once(rt: HostRuntime) -> Result<(), Fail> {
    let mut own = Acceptor::new();
    let mut first = Proposer::start(0, 1, 0, &mut own, X)?;
    assert_eq!(rt; first.on_accepted(0), AcceptedAnswer::Chosen);
    let mut later = Proposer::start(0, 1, 0, &mut own, Y)?;
    assert_eq!(rt; later.ballot(), 1);
    assert_eq!(rt;
        later.on_promise(0, None, &mut own)?,
        PromiseAnswer::Send { value: X }
    );
    assert_eq!(rt; later.on_accepted(0), AcceptedAnswer::Chosen);
    Ok(())
}

/// A journal of these votes.
fn journal(
    alloc: Global,
    replica: u8,
    kept: &[Option<(u32, u8)>],
) -> Result<VoteJournal<u8>, OutOfMemory>
    ensures { IfOk result (λ journal. journal.replica ≡ replica) }
{
    let mut votes = Listed::new(alloc);
    for vote in kept {
        votes.push(*vote)?;
    }
    Ok(VoteJournal { replica, votes })
}

#[test]
fn journals_of_a_majority_are_recovered(rt: HostRuntime) -> Result<(), Fail> {
    let alloc = rt.alloc();
    let zero = journal(alloc, 0, &[Some((0, X)), Some((3, X)), None, Some((3, X))])?;
    let two = journal(alloc, 2, &[Some((1, Y)), Some((3, Y)), None])?;
    let values = recover(alloc, 3, &[zero, two])?;
    assert_eq!(rt; values.as_slice(), [Y, X].as_slice());
    Ok(())
}

#[test]
#[tactic(auto, using(crate::proofs::FewJournals::one_replica))]
fn journals_of_no_majority_are_refused(rt: HostRuntime) -> Result<(), Fail> {
    let alloc = rt.alloc();
    let one = journal(alloc, 2, &[Some((1, Y))])?;
    let few = RecoverError::NoMajority { have: 1, need: 2 };
    assert_eq!(rt; recover(alloc, 3, &[one]).err(), Some(few));
    Ok(())
}
