//! The end of an episode, for readers.
ghost use Rattle.cluster_crew.specs.Crews.{AreWatching, IsWatching, MembersStay};
ghost use Rattle.cluster_crew.specs.Watching.{AllStay, IsReaderAt, StaysReader};

use crate::member::Member;
use cluster_users::Reader;
use net_model::{NodeModel, Viewed};
use quota_table::OutOfMemory;
use spec_base::Disk;
use std::sync::Wait;

/// Each reader learns what its consumer published last, and looks once more. `consumers` has the consumer of each reader.
pub(crate) fn tell_readers<N: NodeModel + Viewed + Drop, D: Disk + Drop, P: Wait + Drop>(
    members: &mut [Member<N, D, P>],
    readers: &mut [Reader],
    consumers: &[u8],
) -> Result<(), OutOfMemory>
    requires { AreWatching ⟦<N as NodeModel>⟧ ⟦<D as Disk>⟧ consumers.now members.old readers.old }
    ensures members { MembersStay ⟦<N as NodeModel>⟧ ⟦<D as Disk>⟧ members.old members.new }
    ensures readers { AllStay IsReaderAt readers.old readers.new }
{
    for place in 0..readers.len() {
        tell_reader(members, &mut readers[place], consumers[place])?;
    }
    Ok(())
}

/// A reader learns what this consumer published last, and looks once more.
fn tell_reader<N: NodeModel + Viewed + Drop, D: Disk + Drop, P: Wait + Drop>(
    members: &mut [Member<N, D, P>],
    reader: &mut Reader,
    consumer: u8,
) -> Result<(), OutOfMemory>
    requires { IsWatching ⟦<N as NodeModel>⟧ ⟦<D as Disk>⟧ consumer members.old reader.old }
    ensures members { MembersStay ⟦<N as NodeModel>⟧ ⟦<D as Disk>⟧ members.old members.new }
    ensures reader { StaysReader reader.old reader.new }
{
    for place in 0..members.len() {
        members[place].tell_to(consumer, reader)?;
    }
    Ok(())
}
