use fix_ante::Owner;

/// Who has a position in one window, and who has it in another.
#[derive(Clone, Copy, Debug, PartialEq, Eq)]
pub struct Moved {
    /// The owner before; None outside the window before.
    pub was: Option<Owner>,
    /// The owner now; None outside the window after.
    pub now: Option<Owner>,
}
