//! Plans that are generated.

use super::{Played, command};
use crate::fault::Fault;
use std::test::Fail;

/// The plan of seed 7 and size 1, by the first four numbers of the seed.
const PLAN: &str = "\
belfast-plan 1\nseqs 3\nshards 3\nwindow 16 0:4 1:4 2:4\n\
clients 0 1 2 0\nconsumers 2 tally\nreaders 0 1 0 1\nsubmitters 0 1 2 3\n\
faults 7 5 2 2 0\ndrain 120000 300\nsubmit 0 337\nsubmit 1 806\n\
submit 2 285\nsubmit 3 804\nepisode 400\nrestart s1b\n\
episode 400\nremove q0 2\nepisode 400\nrestart k0\n\
episode 400\n";

/// Writes of the plan by 100 bytes.
const WRITES: u64 = 3;

impl Played {
    /// Whether it ended so, with these bytes written, and gives no history.
    fn wrote(&self, fault: Option<Fault>, status: u8, written: &[u8]) -> bool {
        self.outcome.fault == fault
            && self.outcome.status == status
            && self.outcome.history.is_none()
            && self.written.as_slice() == written
    }
}

/// A source that fails at its first call isn't asked.
#[test]
fn writes_a_plan_and_reads_nothing(rt: HostRuntime) -> Result<(), Fail> {
    for seed in ["7", "007", "000000000000000007"] {
        let played = command(&rt, &["gen", seed, "1"], b"unread", 100, (&[0], &[]))?;
        assert!(rt; played.wrote(None, 0, PLAN.as_bytes()), "seed {seed}");
    }
    Ok(())
}

#[test]
fn a_plan_whose_sink_fails(rt: HostRuntime) -> Result<(), Fail> {
    let plan = PLAN.as_bytes();
    for call in 0..WRITES + 2 {
        let played = command(&rt, &["gen", "7", "1"], b"", 100, (&[], &[call]))?;
        let (out, _) = plan.split_at((100 * call as usize).min(plan.len()));
        let is_named = if call < WRITES {
            played.wrote(Some(Fault::WriteFault), 5, out)
        } else {
            played.wrote(None, 0, plan)
        };
        assert!(rt; is_named, "call {call}");
    }
    Ok(())
}
