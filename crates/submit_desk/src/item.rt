use record_codec::Body;
use thiserror::Error;

/// What a submitter puts into a desk.
#[derive(Debug, Drop, PartialEq)]
pub struct DeskItem {
    /// The submitter, 0 to 7.
    pub by: u8,
    /// How many items its submitter had put into the desk before it.
    pub number: u64,
    pub body: Body,
}

/// The desk was full at a moment of the call, and here is the item again. It keeps its number.
#[derive(Debug, Drop, Error, PartialEq)]
#[error("the desk is full")]
pub struct Full(pub DeskItem);
