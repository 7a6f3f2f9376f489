use quota_table::Listed;
use view_cell::Look;

/// Looks in the order in which they were made.
pub type LookList = Listed<Look>;

/// What one reader kept.
#[derive(Drop)]
pub struct Looks {
    /// The reader's number, 0 to 7.
    pub reader: u8,
    /// The consumer that it looks at, 0 to 3.
    pub consumer: u8,
    pub list: LookList,
}
