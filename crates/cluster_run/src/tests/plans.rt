//! Plans of two records, which one submitter has: a sequencer, a shard, a client and a consumer that adds numbers up.

ghost use Rattle.std.specs.Prelude.{IfOk};
ghost use Rattle.msg_wire.specs.Valid.{IsValidPlan};

use msg_wire::Plan;
use script_text::read_plan;
use std::alloc::Global;
use std::fmt::Write;
use std::test::Fail;

/// What differs between these plans.
#[derive(Clone, Copy)]
pub(super) struct Case {
    pub(super) readers: &'static str,
    pub(super) faults: &'static str,
    /// The lines behind the submissions.
    pub(super) lines: &'static str,
}

/// One reader, no faults of messages, and one episode.
pub(super) const TWO_RECORDS: Case = Case {
    readers: "readers 0",
    faults: "faults 1 0 0 0 0",
    lines: "episode 32",
};

/// The plan of a case.
pub(super) fn plan_of(alloc: Global, case: &Case) -> Result<Plan, Fail>
    ensures { IfOk result IsValidPlan }
{
    let mut text = String::new(alloc);
    write!(
        text,
        "belfast-plan 1\nseqs 1\nshards 1\nwindow 2 0:1\nclients 0\nconsumers 1 tally\n{}\nsubmitters 0\n{}\ndrain 1000 10\n\
         submit 0 5\nsubmit 0 7\n{}\n",
        case.readers, case.faults, case.lines
    )?;
    if text.len() > 16_777_216 {
        return Err(Fail::new("a long text"));
    }
    Ok(read_plan(alloc, text.as_bytes())?)
}
