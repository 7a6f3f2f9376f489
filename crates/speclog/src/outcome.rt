ghost use Rattle.std.specs.Prelude.{◌≡◌, None, Some, [], false};
ghost use Rattle.speclog.specs.Answers.{status_of, status_of_fault};

use crate::fault::Fault;
use cluster_run::RunRecord;
use cluster_users::Looks;
use net_model::History;
use std::alloc::Global;

/// How a command ended.
#[derive(Drop)]
pub struct Outcome {
    /// The exit status: 0, or that of the fault.
    pub status: u8,
    /// None exactly at status 0.
    pub fault: Option<Fault>,
    /// The run: there exactly at the statuses 0 and 5 of `play` and `run`.
    pub history: Option<History>,
    /// What the readers of `run` kept, in their order; empty but at its statuses 0 and 5.
    pub looks: Vec<Looks>,
    /// Whether the drain of `run` came to its end; false but at its statuses 0 and 5.
    pub quiet: bool,
}

impl Outcome {
    /// A command that ended with a fault, and nothing to show for it.
    pub fn refused(alloc: Global, fault: Fault) -> Outcome
        ensures status { result.status ≡ status_of_fault fault }
        ensures fault { result.fault ≡ Some fault }
        ensures history { result.history ≡ None }
        ensures looks { result.looks.items ≡ [] }
        ensures quiet { result.quiet ≡ false }
    {
        Outcome::written(alloc, Some(fault))
    }

    /// A command that gives no history, and may have met a fault.
    pub fn written(alloc: Global, fault: Option<Fault>) -> Outcome
        ensures status { result.status ≡ status_of fault }
        ensures fault { result.fault ≡ fault }
        ensures history { result.history ≡ None }
        ensures looks { result.looks.items ≡ [] }
        ensures quiet { result.quiet ≡ false }
    {
        Outcome {
            status: status_of(&fault),
            fault,
            history: None,
            looks: Vec::new(alloc),
            quiet: false,
        }
    }

    /// A script that was played to its end. Its report may have met a fault on the way out.
    pub fn played(alloc: Global, history: History, fault: Option<Fault>) -> Outcome
        ensures status { result.status ≡ status_of fault }
        ensures fault { result.fault ≡ fault }
        ensures history { result.history ≡ Some history }
        ensures looks { result.looks.items ≡ [] }
        ensures quiet { result.quiet ≡ false }
    {
        Outcome {
            status: status_of(&fault),
            fault,
            history: Some(history),
            looks: Vec::new(alloc),
            quiet: false,
        }
    }

    /// A plan that was run to its end. Its summary may have met a fault on the way out.
    pub fn ran(made: RunRecord, fault: Option<Fault>) -> Outcome
        ensures status { result.status ≡ status_of fault }
        ensures fault { result.fault ≡ fault }
        ensures history { result.history ≡ Some made.history }
        ensures looks { result.looks ≡ made.looks }
        ensures quiet { result.quiet ≡ made.quiet }
    {
        let RunRecord {
            history,
            looks,
            quiet,
        } = made;
        Outcome {
            status: status_of(&fault),
            fault,
            history: Some(history),
            looks,
            quiet,
        }
    }
}

/// The exit status of a command: 0 where it met no fault.
fn status_of(fault: &Option<Fault>) -> u8
    ensures { result ≡ status_of fault.now }
{
    match fault {
        Some(fault) => fault.status(),
        None => 0,
    }
}
