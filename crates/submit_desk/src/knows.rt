//! What passes know. No value of these types is made: they are what contracts say of a pass.
use crate::item::DeskItem;
use std::collections::LinkedList;

/// A submitter that is back, and what it had submitted.
pub struct Closed {
    pub by: u8,
    pub put: LinkedList<DeskItem>,
}

/// What a pass may do, and what it did.
pub struct Knows {
    /// It is a submitter's.
    pub submits: bool,
    /// The submitter.
    pub by: u8,
    /// What it submitted, the oldest first.
    pub put: LinkedList<DeskItem>,
    /// It is the taking one.
    pub takes: bool,
    /// What it took, the oldest first.
    pub got: LinkedList<DeskItem>,
    /// From this number on no submitter has had a pass.
    pub next: u8,
    /// The submitters that are back, the last one first.
    pub closed: LinkedList<Closed>,
}
