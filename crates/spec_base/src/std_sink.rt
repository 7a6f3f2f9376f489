ghost use Rattle.std.specs.Prelude.{◌≡◌, ◌<◌, ◌≤◌, None, false, length, IfOk};
ghost use Rattle.std.specs.Io.KnownBytes.{WriteAppends};
ghost use Rattle.spec_base.specs.Faults.{CountsFault};

use crate::sink::Sink;
use crate::std_stream::StdStream;
use crate::stop::Stop;
use std::io::Write;

/// A sink over a writer of std. It can't tell what was taken. Contracts see it as the writer and its count of errors.
///
/// Nothing flushes the writer: give one that keeps no bytes back, as standard output.
pub type StdSink<W> = StdStream<W>;

impl<W: Write> Sink for StdStream<W> {
    ghost faults = { λ s. s.faults };

    ghost never_fails = { λ _. false };

    ghost taken = { λ _. None };

    /// One write of the writer. Each of its errors is a fault, and so is an answer of 0 for a piece that isn't empty.
    fn write(&mut self, piece: &[u8]) -> Result<usize, Stop>
        ensures bytes { WriteAppends (W.contents self.old.inner) (W.contents self.new.inner) result piece.now }
        ensures fits { IfOk result (λ n. n ≤ length piece.now) }
        ensures some { IfOk result (λ n. 0 < length piece.now → 0 < n) }
        ensures count { CountsFault self.old.faults self.new.faults result }
    {
        match self.inner.write(piece) {
            Ok(count) if count > 0 || piece.is_empty() => Ok(count),
            _ => {
                self.faults = self.faults.saturating_add(1);
                Err(Stop::Failed)
            }
        }
    }
}
