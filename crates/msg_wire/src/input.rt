use crate::event::Command;
use quota_table::Listed;
use record_codec::Body;
use spec_base::NodeId;

/// The inputs of a script, in order.
pub type Inputs = Listed<Input>;

/// One input of a script.
#[derive(Clone, Debug, Drop, PartialEq)]
pub enum Input {
    /// A client is given a body.
    Submit {
        /// The client's number, 0 to 5.
        client: u8,
        body: Body,
    },
    /// A message is delivered to the node that it was sent to.
    Deliver {
        /// How many messages were sent before it.
        number: u64,
    },
    /// From now on a drain passes over a message.
    Lose {
        /// How many messages were sent before it.
        number: u64,
    },
    /// A node's clock ticks.
    Tick {
        node: NodeId,
    },
    /// A node comes back with what it stored.
    Restart {
        node: NodeId,
    },
    /// A sequencer is told what to propose.
    Command {
        node: NodeId,
        command: Command,
    },
    /// Deliveries and ticks by a fixed schedule.
    Drain {
        /// How many inputs the drain makes, 0 to 200,000.
        count: u32,
    },
}
