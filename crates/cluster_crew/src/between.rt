//! What is done to a crew outside its turns.
ghost use Rattle.std.specs.Prelude.{IsTrue};
ghost use Rattle.msg_wire.specs.Nodes.{is_sequencer};
ghost use Rattle.msg_wire.specs.Valid.{IsValidCommand};
ghost use Rattle.cluster_crew.specs.Crews.{AreFaultless, AreWatching, CrewStays, IsSomewhere};

use crate::crew::Crew;
use crate::notes::tell_readers;
use crate::steps::{command, end_faults, restart};
use msg_wire::Command;
use net_model::{NodeModel, Viewed};
use quota_table::OutOfMemory;
use spec_base::{Disk, NodeId};
use std::sync::Wait;

impl<N: NodeModel + Viewed + Drop, D: Disk + Drop, P: Wait + Drop> Crew<N, D, P> {
    /// The node of this name comes back with what its vault keeps.
    pub(crate) fn restarted(self, node: NodeId) -> Crew<N, D, P>
        requires { IsSomewhere ⟦<N as NodeModel>⟧ ⟦<D as Disk>⟧ self }
        ensures { CrewStays ⟦<N as NodeModel>⟧ ⟦<D as Disk>⟧ self result }
    {
        let Crew {
            mut members,
            readers,
            submitters,
        } = self;
        restart(members.as_mut_slice(), node);
        Crew {
            members,
            readers,
            submitters,
        }
    }

    /// The sequencer of this name is told what to propose.
    pub(crate) fn commanded(
        self,
        node: NodeId,
        wanted: &Command,
    ) -> (Crew<N, D, P>, Result<(), OutOfMemory>)
        requires at { IsSomewhere ⟦<N as NodeModel>⟧ ⟦<D as Disk>⟧ self }
        requires sequencer { IsTrue (is_sequencer node) }
        requires valid { IsValidCommand wanted.now }
        ensures { CrewStays ⟦<N as NodeModel>⟧ ⟦<D as Disk>⟧ self result.0 }
    {
        let Crew {
            mut members,
            readers,
            submitters,
        } = self;
        let result = command(members.as_mut_slice(), node, wanted);
        (
            Crew {
                members,
                readers,
                submitters,
            },
            result,
        )
    }

    /// The faults of all links end.
    pub(crate) fn without_faults(self) -> Crew<N, D, P>
        requires { IsSomewhere ⟦<N as NodeModel>⟧ ⟦<D as Disk>⟧ self }
        ensures stays { CrewStays ⟦<N as NodeModel>⟧ ⟦<D as Disk>⟧ self result }
        ensures ended { AreFaultless result.members.items }
    {
        let Crew {
            mut members,
            readers,
            submitters,
        } = self;
        end_faults(members.as_mut_slice());
        Crew {
            members,
            readers,
            submitters,
        }
    }

    /// Each reader learns what its consumer published last.
    pub(crate) fn told(self, consumers: &[u8]) -> (Crew<N, D, P>, Result<(), OutOfMemory>)
        requires { AreWatching ⟦<N as NodeModel>⟧ ⟦<D as Disk>⟧ consumers.now self.members.items self.readers.items }
        ensures { CrewStays ⟦<N as NodeModel>⟧ ⟦<D as Disk>⟧ self result.0 }
    {
        let Crew {
            mut members,
            mut readers,
            submitters,
        } = self;
        let result = tell_readers(members.as_mut_slice(), readers.as_mut_slice(), consumers);
        (
            Crew {
                members,
                readers,
                submitters,
            },
            result,
        )
    }
}
