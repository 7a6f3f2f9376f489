ghost use Rattle.std.specs.Prelude.{◌≡◌};

use std::marker::Model;

/// A reader or a writer of std, and how often it failed: a source or a sink that can't tell its bytes.
/// Contracts see it as that one and its count of errors.
#[derive(Drop)]
pub struct StdStream<T> {
    pub(crate) inner: T,
    pub(crate) faults: u64,
}

impl<T> Model for StdStream<T> {
    ghost use Rattle.spec_base.specs.Adapter.{Adapter};

    ghost Value = { Adapter T };

    ghost view = { λ s. record { inner = s.inner; faults = s.faults } };
}

impl<T> StdStream<T> {
    /// The reader or the writer, with no fault yet.
    pub fn new(inner: T) -> StdStream<T>
        ensures { result ≡ record { inner = inner; faults = 0 } }
    {
        StdStream { inner, faults: 0 }
    }
}
