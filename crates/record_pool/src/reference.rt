ghost use Rattle.std.specs.Prelude.{◌≡◌};

use std::marker::Model;

/// Names bytes in the pool that gave it, from [`crate::RecordPool::take`] until [`crate::RecordPool::give`] uses it up.
///
/// It can't be copied. One that is dropped leaves its blocks taken.
#[derive(Debug, Drop)]
pub struct PoolRef {
    /// The first block of its chain.
    first: u32,
    /// How many bytes it names.
    len: usize,
}

impl Model for PoolRef {
    ghost use Rattle.record_pool.specs.Pools.{Ref};

    ghost Value = { Ref };

    ghost view = { λ r. record { first = r.first; len = r.len } };
}

impl PoolRef {
    /// How many bytes it names.
    pub fn len(&self) -> usize
        ensures { result ≡ self.now.len }
    {
        self.len
    }

    pub(crate) fn new(first: u32, len: usize) -> PoolRef
        ensures { result ≡ record { first = first; len = len } }
    {
        PoolRef { first, len }
    }

    pub(crate) fn first(&self) -> u32
        ensures { result ≡ self.now.first }
    {
        self.first
    }
}
