ghost use Rattle.std.specs.Prelude.{◌≡◌};
ghost use Rattle.msg_wire.specs.Steps.{empty_step};

use crate::item::Items;
use crate::mark::Marks;
use crate::message::Messages;
use std::alloc::Global;

/// What one step of a node gives.
#[derive(Clone, Debug, Drop, PartialEq)]
pub struct Step {
    /// What has to be stored before anything is sent: one vault entry, or nothing where it is empty.
    pub stable: Items,
    /// What is sent, in this order.
    pub sends: Messages,
    /// What is shown, in this order.
    pub marks: Marks,
}

impl Step {
    /// Nothing to store, to send or to show. It takes no memory.
    pub fn new(alloc: Global) -> Step
        ensures { result ≡ empty_step }
    {
        Step {
            stable: Items::new(alloc),
            sends: Messages::new(alloc),
            marks: Marks::new(alloc),
        }
    }

    /// Drops all that the step gave. The room of the lists is kept, for another step to be written into.
    pub fn clear(&mut self)
        ensures { self.new ≡ empty_step }
    {
        self.stable.clear();
        self.sends.clear();
        self.marks.clear();
    }
}
