use crate::config::{Config, Homes};
use crate::event::Command;
use quota_table::Listed;
use record_codec::Body;
use spec_base::NodeId;

/// The lines of a plan after its head, in order.
pub type PlanLines = Listed<PlanLine>;

/// A threaded run of a cluster.
#[derive(Clone, Debug, Drop, PartialEq)]
pub struct Plan {
    pub cfg: Config,
    /// The consumer of each reader, 0 to 8 of them.
    pub readers: Homes,
    /// The client of each submitter, 0 to 8 of them.
    pub submitters: Homes,
    /// Where the words come from that say which messages are faulty.
    pub seed: u32,
    /// Messages lost, in percent.
    pub lose: u8,
    /// Messages repeated, in percent.
    pub repeat: u8,
    /// Messages that the next one overtakes, in percent.
    pub late: u8,
    /// Messages cut short, in percent. The four percentages are at most 100 together.
    pub cut: u8,
    /// The most inputs that the drain at the end takes, 0 to 200,000.
    pub limit: u32,
    /// How often every node ticks in that drain, 0 to 10,000.
    pub settle: u32,
    pub lines: PlanLines,
}

/// One line of a plan after its head.
#[derive(Clone, Debug, Drop, PartialEq)]
pub enum PlanLine {
    /// A submitter has this body next, wherever the line stands.
    Submit {
        /// The submitter's number, 0 to 7.
        by: u8,
        body: Body,
    },
    /// Nodes, readers and submitters take turns side by side.
    Episode {
        /// Turns of each of them, 1 to 2,000.
        turns: u32,
    },
    /// A node comes back with what its vault keeps.
    Restart {
        node: NodeId,
    },
    /// A sequencer is told what to propose.
    Command {
        node: NodeId,
        command: Command,
    },
}
