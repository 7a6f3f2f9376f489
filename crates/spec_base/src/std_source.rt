ghost use Rattle.std.specs.Prelude.{◌≡◌, ◌≤◌, None, false, length, IfOk};
ghost use Rattle.std.specs.Io.KnownBytes.{ReadConsumes};
ghost use Rattle.spec_base.specs.Faults.{CountsFault};

use crate::source::Source;
use crate::std_stream::StdStream;
use crate::stop::Stop;
use std::io::Read;

/// A source over a reader of std. It can't tell what is left. Contracts see it as the reader and its count of errors.
pub type StdSource<R> = StdStream<R>;

impl<R: Read> Source for StdStream<R> {
    ghost left = { λ _. None };

    ghost faults = { λ s. s.faults };

    ghost never_fails = { λ _. false };

    /// One read of the reader. Each of its errors is a fault, an interruption too.
    fn read(&mut self, into: &mut [u8]) -> Result<usize, Stop>
        ensures bytes { ReadConsumes (R.remaining self.old.inner) (R.remaining self.new.inner) result into.new }
        ensures fits { IfOk result (λ n. n ≤ length into.new) }
        ensures count { CountsFault self.old.faults self.new.faults result }
    {
        match self.inner.read(into) {
            Ok(count) => Ok(count),
            Err(_) => {
                self.faults = self.faults.saturating_add(1);
                Err(Stop::Failed)
            }
        }
    }
}
