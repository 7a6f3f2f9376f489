/// What the first three bytes of a frame say; fewer at the end of the file.
#[derive(Clone, Copy)]
pub enum FrameStart {
    /// The gate is closed, or the file has ended: no frame follows.
    Closed,
    /// The gate is open, and the file ends within the length.
    Cut,
    /// The gate is open, and a payload of this length is to follow.
    Payload(usize),
}
