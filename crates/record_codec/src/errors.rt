use thiserror::Error;

/// Why bytes are no body.
#[derive(Clone, Copy, Debug, Drop, Error, PartialEq, Eq)]
pub enum BodyError {
    /// More than 1,024 bytes; `len` is their number.
    #[error("{len} bytes, at most 1024")]
    TooLong { len: usize },
    #[error("out of memory")]
    OutOfMemory,
}

/// Why no record stands at the front of bytes: the first fault from the left.
#[derive(Clone, Copy, Debug, Drop, Error, PartialEq, Eq)]
pub enum DecodeError {
    /// The bytes end inside a field, and every whole field before it is in its range.
    #[error("cut short")]
    Short,
    /// The first byte is no tag of a record.
    #[error("no record begins with {tag}")]
    BadTag { tag: u8 },
    /// The client, at 1, or the number, at 5, is the first field out of its range.
    #[error("field at {at} out of range")]
    BadField { at: usize },
    /// The length of the body is the first field out of its range: it is above 1,024.
    #[error("body of {len} bytes, at most 1024")]
    BodyTooLong { len: u16 },
    #[error("out of memory")]
    OutOfMemory,
}
