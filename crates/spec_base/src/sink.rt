ghost use Rattle.std.specs.Prelude.{◌≡◌, ℕ, Bool, List, Option, ◌<◌, ◌≤◌, length, take, IfOk, OnErr};
ghost use Rattle.std.specs.Io.KnownBytes.{append_known};
ghost use Rattle.spec_base.specs.Faults.{CountsFault, StaysSound};

use crate::stop::Stop;

/// Where bytes go, in pieces, as a file or a pipe.
pub trait Sink {
    /// The bytes that were taken; None where the sink can't tell.
    ghost taken: { Self → Option (List ℕ) };

    /// How often the sink has failed.
    ghost faults: { Self → ℕ };

    /// The sink never fails.
    ghost never_fails: { Self → Bool };

    /// Takes the front of the piece and answers its length, which is 0 only for the empty piece. At an error none
    /// is taken.
    fn write(&mut self, piece: &[u8]) -> Result<usize, Stop>
        ensures fits { IfOk result (λ n. n ≤ length piece.now) }
        ensures some { IfOk result (λ n. 0 < length piece.now → 0 < n) }
        ensures taken { IfOk result (λ n. taken self.new ≡ append_known (taken self.old) (take n piece.now)) }
        ensures err { OnErr result (taken self.new ≡ taken self.old) }
        ensures count { CountsFault (faults self.old) (faults self.new) result }
        ensures sound { StaysSound (never_fails self.old) (never_fails self.new) (faults self.old) (faults self.new) };
}
