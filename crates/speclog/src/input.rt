//! Reading a source to its end.

ghost use Rattle.std.specs.Prelude.{◌≡◌, IsErrOf};
ghost use Rattle.spec_base.specs.Faults.{Rose};
ghost use Rattle.speclog.specs.inside.Input.{HasRead, CountsRead};

use quota_table::{Bytes, OutOfMemory};
use spec_base::{Source, Stop};
use std::alloc::Global;

/// The most bytes of an input.
pub const MOST_INPUT: usize = 16_777_216;

/// Bytes asked for at a time.
const PIECE: usize = 8192;

/// Why an input was not read to its end.
#[derive(Clone, Copy, Drop)]
pub enum ReadError {
    /// The source failed.
    Failed,
    /// More bytes came than an input may have.
    TooLong,
    OutOfMemory,
}

/// Reads a source to its end. `TooLong` comes exactly where more than 16,777,216 bytes were read, and `Failed` only
/// where the source's count of faults rose; at every other answer that count stands, so no call is made again after a
/// failure.
#[tactic(auto, using(spec_base::proofs::KnownBytes::given_more))]
pub fn read_all<S: Source>(alloc: Global, source: &mut S) -> Result<Bytes, ReadError>
    ensures read { HasRead (S.left source.old) (S.left source.new) result }
    ensures count { CountsRead (S.faults source.old) (S.faults source.new) result }
    ensures failed { IsErrOf result ReadError.Failed → Rose (S.faults source.old) (S.faults source.new) }
{
    let mut bytes = Bytes::new(alloc);
    let mut piece = [0; PIECE];
    'pieces: loop {
        let count = match source.read(&mut piece) {
            Ok(count) => count,
            Err(Stop::Failed) => return Err(ReadError::Failed),
            Err(Stop::OutOfMemory) => return Err(ReadError::OutOfMemory),
        };
        if count == 0 {
            return Ok(bytes);
        }
        if count > MOST_INPUT - bytes.len() {
            return Err(ReadError::TooLong);
        }
        if let Err(OutOfMemory) = bytes.extend_from_slice(&piece[..count]) {
            return Err(ReadError::OutOfMemory);
        }
    }
}
