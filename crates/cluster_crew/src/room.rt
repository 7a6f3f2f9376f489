//! The memory that the end of a crew needs.
ghost use Rattle.std.specs.Prelude.{IfOk};
ghost use Rattle.cluster_crew.specs.Ending.{IsRoomFor};

use cluster_users::Looks;
use node_actor::NodeActor;
use quota_table::OutOfMemory;
use record_codec::Body;
use std::alloc::Global;
use std::collections::VecDeque;

/// Room for what is left of a crew, so that its end takes no memory.
#[derive(Drop)]
pub struct Room<N, D> {
    pub(crate) actors: Vec<NodeActor<N, D>>,
    pub(crate) looks: Vec<Looks>,
    /// What the submitters still hold.
    pub(crate) held: Vec<VecDeque<Body>>,
}

impl<N: Drop, D: Drop> Room<N, D> {
    /// Room for a crew of so many members, readers and submitters.
    pub fn new(
        alloc: Global,
        members: usize,
        readers: usize,
        submitters: usize,
    ) -> Result<Room<N, D>, OutOfMemory>
        ensures { IfOk result (IsRoomFor members readers submitters) }
    {
        Ok(Room {
            actors: Vec::with_capacity(alloc, members)?,
            looks: Vec::with_capacity(alloc, readers)?,
            held: Vec::with_capacity(alloc, submitters)?,
        })
    }
}
