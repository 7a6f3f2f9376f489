use script_text::ScriptKind;
use spec_base::{NodeId, Side};
use std::fmt;
use thiserror::Error;

/// Why a command ended without doing all that it was to do. Each has a status and a line of text.
#[derive(Clone, Copy, Debug, Drop, Error, PartialEq, Eq)]
pub enum Fault {
    /// The words are no command's form.
    #[error("usage: word {word}")]
    Usage {
        /// The place of the first word that does not fit, from 0; the number of words where one is missing.
        word: usize,
    },
    /// The source failed.
    #[error("read fault")]
    ReadFault,
    /// More than 16,777,216 bytes were read.
    #[error("input too long")]
    InputTooLong,
    /// A line of the script, or of the plan, is refused by the grammar.
    #[error("line {line}: {kind}")]
    Script {
        /// The first line that is refused, from 1.
        line: u32,
        kind: ScriptKind,
    },
    /// A line of the script delivers or loses a message that was not sent yet.
    #[error("line {line}: no message {number}, sent {sent}")]
    NoMessage {
        /// The first line that is refused, from 1.
        line: u32,
        /// The message that it names.
        number: u64,
        /// How many messages were sent before it.
        sent: u64,
    },
    /// A line of the script, or of the plan, would bring the entries past 200,000.
    #[error("line {line}: too many entries")]
    TooLong {
        /// The first line that is refused, from 1.
        line: u32,
    },
    /// The disk of a node's name failed, and once more as the call was repeated.
    #[error(fmt = shelf_fault)]
    ShelfFault {
        name: NodeId,
    },
    /// Memory was refused.
    #[error("out of memory")]
    OutOfMemory,
    /// The sink failed.
    #[error("write fault")]
    WriteFault,
}

impl Fault {
    ghost use Rattle.speclog.specs.Answers.{status_of_fault};
    ghost use Rattle.std.specs.Prelude.{◌≡◌};

    /// The exit status that goes with it.
    pub fn status(&self) -> u8
        ensures { result ≡ status_of_fault self.now }
    {
        match self {
            Fault::Usage { .. } => 2,
            Fault::InputTooLong
            | Fault::Script { .. }
            | Fault::NoMessage { .. }
            | Fault::TooLong { .. } => 3,
            Fault::ReadFault => 4,
            Fault::WriteFault => 5,
            Fault::OutOfMemory => 6,
            Fault::ShelfFault { .. } => 7,
        }
    }
}

/// The text of a shelf's fault.
fn shelf_fault<W: fmt::Write>(name: &NodeId, f: &mut fmt::Formatter<W>) -> fmt::Result {
    match *name {
        NodeId::Seq(number) => write!(f, "shelf fault q{number}"),
        NodeId::Shard(number, Side::Primary) => write!(f, "shelf fault s{number}p"),
        NodeId::Shard(number, Side::Backup) => write!(f, "shelf fault s{number}b"),
        NodeId::Client(number) => write!(f, "shelf fault c{number}"),
        NodeId::Consumer(number) => write!(f, "shelf fault k{number}"),
    }
}
