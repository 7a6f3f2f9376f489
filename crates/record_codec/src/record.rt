ghost use Rattle.std.specs.Prelude.{◌≡◌};

use crate::body::Body;
use quota_table::Listed;

/// One record of the log.
#[derive(Clone, Debug, Drop, PartialEq)]
pub enum Record {
    /// What a client submitted.
    Data {
        /// The client's number, 0 to 5.
        client: u32,
        /// How many the client submitted before it, at most 2^48.
        number: u64,
        body: Body,
    },
    /// Fills a place that no client's record took in time.
    Noop,
}

impl Record {
    /// The record of a client's body and number.
    pub fn data(client: u32, number: u64, body: Body) -> Record
        ensures { result ≡ Record.Data client number body }
    {
        Record::Data {
            client,
            number,
            body,
        }
    }
}

/// A list of records.
pub type Log = Listed<Record>;
