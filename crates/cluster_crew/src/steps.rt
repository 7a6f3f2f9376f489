//! What is done to members outside episodes: restarts, commands, and the end of the faults.
ghost use Rattle.std.specs.Prelude.{IsTrue};
ghost use Rattle.msg_wire.specs.Nodes.{is_sequencer};
ghost use Rattle.msg_wire.specs.Valid.{IsValidCommand};
ghost use Rattle.cluster_crew.specs.Crews.{AreAt, AreFaultless, MembersStay, OnlyAt};

use crate::member::Member;
use msg_wire::Command;
use net_model::{NodeModel, Viewed};
use quota_table::OutOfMemory;
use spec_base::{Disk, NodeId};
use std::sync::Wait;

/// The node of this name comes back with what its vault keeps.
pub(crate) fn restart<N: NodeModel + Viewed + Drop, D: Disk + Drop, P: Wait + Drop>(
    members: &mut [Member<N, D, P>],
    node: NodeId,
)
    requires { (posts : _) × AreAt ⟦<N as NodeModel>⟧ ⟦<D as Disk>⟧ posts members.old }
    ensures stays { MembersStay ⟦<N as NodeModel>⟧ ⟦<D as Disk>⟧ members.old members.new }
    ensures others { OnlyAt node members.old members.new }
{
    for place in 0..members.len() {
        members[place].restart_if(node);
    }
}

/// The sequencer of this name is told what to propose. Memory is wanted for a copy of the command.
pub(crate) fn command<N: NodeModel + Viewed + Drop, D: Disk + Drop, P: Wait + Drop>(
    members: &mut [Member<N, D, P>],
    node: NodeId,
    command: &Command,
) -> Result<(), OutOfMemory>
    requires at { (posts : _) × AreAt ⟦<N as NodeModel>⟧ ⟦<D as Disk>⟧ posts members.old }
    requires sequencer { IsTrue (is_sequencer node) }
    requires valid { IsValidCommand command.now }
    ensures stays { MembersStay ⟦<N as NodeModel>⟧ ⟦<D as Disk>⟧ members.old members.new }
    ensures others { OnlyAt node members.old members.new }
{
    for place in 0..members.len() {
        members[place].command_if(node, command)?;
    }
    Ok(())
}

/// What is held on any link is queued, and from now on no message has faults.
pub(crate) fn end_faults<N: NodeModel + Viewed + Drop, D: Disk + Drop, P: Wait + Drop>(
    members: &mut [Member<N, D, P>],
)
    requires { (posts : _) × AreAt ⟦<N as NodeModel>⟧ ⟦<D as Disk>⟧ posts members.old }
    ensures stays { MembersStay ⟦<N as NodeModel>⟧ ⟦<D as Disk>⟧ members.old members.new }
    ensures ended { AreFaultless members.new }
{
    for place in 0..members.len() {
        members[place].end_faults();
    }
}
