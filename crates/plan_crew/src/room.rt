//! The memory that a crew needs as it begins.
ghost use Rattle.std.specs.Prelude.{IfOk};
ghost use Rattle.plan_crew.specs.Begins.{IsRoomFor};

use cluster_crew::{Member, Side};
use quota_table::OutOfMemory;
use std::alloc::Global;
use std::collections::VecDeque;
use std::sync::Wait;

/// Room for the members of a crew, so that its begin takes no memory.
#[derive(Drop)]
pub struct Room<N, D, P: Wait + Drop> {
    pub(crate) sides: VecDeque<Side<P>>,
    pub(crate) members: Vec<Member<N, D, P>>,
}

impl<N: Drop, D: Drop, P: Wait + Drop> Room<N, D, P> {
    /// Room for so many members.
    pub fn new(alloc: Global, count: usize) -> Result<Room<N, D, P>, OutOfMemory>
        ensures { IfOk result (IsRoomFor count) }
    {
        Ok(Room {
            sides: VecDeque::with_capacity(alloc, count)?,
            members: Vec::with_capacity(alloc, count)?,
        })
    }
}
