ghost use Rattle.std.specs.Prelude.{◌≡◌, ℕ, Bool, List, Option, ◌<◌, ◌≤◌, length, take, IfOk, OnErr};
ghost use Rattle.std.specs.Io.KnownBytes.{prepend_known, IsAtEnd};
ghost use Rattle.spec_base.specs.Faults.{CountsFault, StaysSound};

use crate::stop::Stop;

/// Where bytes come from, in pieces, as a file or a pipe.
pub trait Source {
    /// The bytes that are left; None where the source can't tell.
    ghost left: { Self → Option (List ℕ) };

    /// How often the source has failed.
    ghost faults: { Self → ℕ };

    /// The source never fails.
    ghost never_fails: { Self → Bool };

    /// Puts the next bytes at the start of `into` and answers how many: 0 for a buffer that isn't empty is the end
    /// of the input. At an error none is given.
    fn read(&mut self, into: &mut [u8]) -> Result<usize, Stop>
        ensures fits { IfOk result (λ n. n ≤ length into.new) }
        ensures given { IfOk result (λ n. left self.old ≡ prepend_known (take n into.new) (left self.new)) }
        ensures end { IfOk result (λ n. n ≡ 0 → 0 < length into.new → IsAtEnd (left self.new)) }
        ensures err { OnErr result (left self.new ≡ left self.old) }
        ensures count { CountsFault (faults self.old) (faults self.new) result }
        ensures sound { StaysSound (never_fails self.old) (never_fails self.new) (faults self.old) (faults self.new) };
}
