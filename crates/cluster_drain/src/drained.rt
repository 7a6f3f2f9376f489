/// Why a drain ended before its end.
#[derive(Clone, Copy, Debug, Drop, PartialEq)]
pub enum Early {
    /// It took as many inputs as it may.
    Limit,
    /// A node is stopped.
    Stopped,
    /// Memory was refused as frames were brought to their receiver. None is lost.
    Memory,
}

/// What came of a drain.
#[derive(Clone, Copy, Debug, Drop, PartialEq)]
pub struct Drained {
    /// How many steps the nodes took: ticks and messages.
    pub inputs: u32,
    /// Why it ended before its end; None where it came to it, and so is quiet.
    pub early: Option<Early>,
}
