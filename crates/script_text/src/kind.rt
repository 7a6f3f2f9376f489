use quota_table::TableError;
use thiserror::Error;

/// Why a line of a script or a plan is refused. A line that several kinds fit has the first of them.
#[derive(Clone, Copy, Debug, Drop, Error, PartialEq, Eq)]
pub enum ScriptKind {
    /// A byte is outside 0x20 to 0x7e.
    #[error("byte")]
    Byte,
    /// A head line's first word is not the one that is due, or the version is not.
    #[error("header")]
    Header,
    /// The first word is unknown, the number of words is wrong, or the application is unknown.
    #[error("word")]
    Word,
    /// A word that has to be a decimal of 1 to 18 digits is none.
    #[error("number")]
    Number,
    /// A word that has to spell a node of the head spells none.
    #[error("node")]
    Node,
    /// A number is out of its bounds.
    #[error("range")]
    Range,
    /// The rows are no table.
    #[error("rows")]
    Rows {
        /// What is wrong with them.
        error: TableError,
    },
    /// The body has more than 1,024 bytes.
    #[error("body")]
    Body {
        /// How many it has.
        len: usize,
    },
}
