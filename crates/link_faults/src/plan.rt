/// How many of a hundred messages have each fault. The four are at most 100 together; what is left is queued once.
#[derive(Clone, Copy, Debug, PartialEq)]
pub struct FaultPlan {
    /// Messages that are lost, in percent.
    pub lose: u8,
    /// Messages that are queued twice, in percent.
    pub repeat: u8,
    /// Messages that are held until the next one, in percent.
    pub late: u8,
    /// Messages that are queued without their last byte, in percent.
    pub cut: u8,
}
