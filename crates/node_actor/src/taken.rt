/// What came of a turn in which a node takes a frame.
#[derive(Clone, Copy, Debug, Drop, PartialEq)]
pub enum Taken {
    /// No link gave a frame, or the node was stopped before.
    Nothing,
    /// A frame was pulled, and no step taken: it brings the node no message, or the step is stopped.
    NoInput,
    /// A step of the message that a frame brings.
    Input,
}
