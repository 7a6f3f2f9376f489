ghost use Rattle.std.specs.Prelude.{◌≡◌};
ghost use Rattle.script_text.specs.declared.errors.LineError.TheVariants.{OutOfMemory as line_out_of_memory};

use crate::kind::ScriptKind;
use quota_table::OutOfMemory;
use thiserror::Error;

/// Why a text is no script or no plan: the first line that is refused, and the first kind that fits it.
#[derive(Clone, Copy, Debug, Drop, Error, PartialEq, Eq)]
pub enum ScriptError {
    /// The line, counted from 1 over all lines of the text. Where the head ends too early it is the line after the last.
    #[error("line {line}: {kind}")]
    At { line: u32, kind: ScriptKind },
    /// Of a plan alone: with this line it may bring more than 200,000 entries.
    #[error("line {line}: too many entries")]
    TooLong { line: u32 },
    #[error("out of memory")]
    OutOfMemory,
}

impl From<OutOfMemory> for ScriptError {
    ghost use Rattle.script_text.specs.declared.errors.ScriptError.TheVariants.{OutOfMemory as script_out_of_memory};

    ghost from_gives = { λ _ e. e ≡ script_out_of_memory };

    fn from(_: OutOfMemory) -> ScriptError {
        ScriptError::OutOfMemory
    }
}

/// Why a line is refused, where its number is not known.
#[derive(Clone, Copy, Debug, Drop, PartialEq, Eq)]
pub(crate) enum LineError {
    Refused(ScriptKind),
    OutOfMemory,
}

impl From<ScriptKind> for LineError {
    ghost use Rattle.script_text.specs.declared.errors.LineError.TheVariants.{Refused};

    ghost from_gives = { λ kind e. e ≡ Refused kind };

    fn from(kind: ScriptKind) -> LineError {
        LineError::Refused(kind)
    }
}

impl From<OutOfMemory> for LineError {
    ghost from_gives = { λ _ e. e ≡ line_out_of_memory };

    fn from(_: OutOfMemory) -> LineError {
        LineError::OutOfMemory
    }
}
