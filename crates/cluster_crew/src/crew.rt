//! All who take turns in a cluster.
ghost use Rattle.std.specs.Prelude.{IsTrue};
ghost use Rattle.cluster_crew.specs.Crews.{NoneStopped};

use crate::member::Member;
use cluster_users::{Reader, Submitter};
use net_model::{NodeModel, Viewed};
use spec_base::Disk;
use std::sync::Wait;

/// All who take turns in a cluster: its nodes in their order, its readers and its submitters in theirs.
#[derive(Drop)]
pub struct Crew<N, D, P: Wait + Drop> {
    pub members: Vec<Member<N, D, P>>,
    pub readers: Vec<Reader>,
    pub submitters: Vec<Submitter>,
}

/// Whether a node has stopped.
pub(crate) fn has_stopped<N: NodeModel + Viewed + Drop, D: Disk + Drop, P: Wait + Drop>(
    members: &[Member<N, D, P>],
) -> bool
    ensures { IsTrue result → NoneStopped members.now → ⊥ }
{
    for place in 0..members.len() {
        if members[place].actor.stopped().is_some() {
            return true;
        }
    }
    false
}

/// Whether memory was wanted for a consumer's view.
pub(crate) fn is_wanting<N: NodeModel + Viewed + Drop, D: Disk + Drop, P: Wait + Drop>(
    members: &[Member<N, D, P>],
) -> bool {
    for place in 0..members.len() {
        if members[place].is_wanting() {
            return true;
        }
    }
    false
}
