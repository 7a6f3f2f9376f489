use quota_table::Few;
use record_codec::Output;

/// The greatest number of outputs that one call releases.
pub const MOST_KEPT: usize = 3;

/// The output of the record at a position.
#[derive(Debug, Drop)]
pub struct KeptOut {
    pub position: u64,
    pub out: Output,
}

impl Default for KeptOut {
    fn default() -> KeptOut {
        KeptOut {
            position: 0,
            out: Output::new(),
        }
    }
}

/// At most three outputs that were released, in order.
pub type Kept = Few<KeptOut, 3>;
