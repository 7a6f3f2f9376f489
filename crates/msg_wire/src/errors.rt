use thiserror::Error;

/// Why bytes are no message, or no items: the first fault from the left. Places are counted in bytes, from 0.
#[derive(Clone, Copy, Debug, Drop, Error, PartialEq, Eq)]
pub enum WireError {
    /// The bytes end inside a field, and every whole field before it is in its range.
    #[error("cut short")]
    Short,
    /// The byte at `at` is no version or kind of a message, or no tag of an item.
    #[error("no kind at {at}")]
    BadKind { at: usize },
    /// The field that begins at `at` is out of its range.
    #[error("field at {at} out of range")]
    BadField { at: usize },
    /// A message ends at `at`, and bytes follow it.
    #[error("bytes after the message, from {at}")]
    Trailing { at: usize },
    #[error("out of memory")]
    OutOfMemory,
}

/// What stands at a place, and the place after it.
pub(crate) type Read<T> = Result<(T, usize), WireError>;
