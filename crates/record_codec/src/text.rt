ghost use Rattle.std.specs.Prelude.{◌≡◌, ◌≤◌, ◌+◌, ◌++◌, [], length, nat_eq};
ghost use Rattle.std.specs.Cmp.Lexicographic.{pointwise};
ghost use Rattle.std.proofs.Common.{rules};

use arrayvec::ArrayVec;
use std::alloc::AllocError;
use std::marker::Model;

/// The greatest length of a record's output, in bytes.
pub const MOST_OUTPUT: usize = 64;

/// The greatest length of a shown state, in bytes.
pub const MOST_SHOWN: usize = 256;

/// At most `N` bytes, which take no memory. Contracts see them as that list.
#[derive(Debug, Drop)]
pub struct ShortText<const N: usize> {
    bytes: ArrayVec<u8, N>,
}

/// What an application writes for one record: at most 64 bytes.
pub type Output = ShortText<64>;

/// What an application shows of its state: at most 256 bytes.
pub type Shown = ShortText<256>;

impl<const N: usize> Model for ShortText<N> {
    ghost use Rattle.std.specs.Prelude.{ℕ, List};

    ghost Value = { List ℕ };

    ghost view = { λ t. t.bytes.items };
}

impl<const N: usize> Clone for ShortText<N> {
    ghost is_clone = { λ a b. b ≡ a };

    fn clone(&self) -> Result<Self, AllocError> {
        Ok(self.copy())
    }
}

impl<const N: usize> PartialEq for ShortText<N> {
    ghost eq = { pointwise nat_eq };

    ghost laws = { Prim.search rules };

    fn eq(&self, other: &Self) -> bool {
        self.as_slice() == other.as_slice()
    }
}

impl<const N: usize> ShortText<N> {
    /// No bytes.
    pub fn new() -> Self
        ensures { result ≡ [] }
    {
        ShortText {
            bytes: ArrayVec::new(),
        }
    }

    /// Puts bytes at the end.
    pub fn extend_from_slice(&mut self, bytes: &[u8])
        requires { length self.old + length bytes.now ≤ N }
        ensures { self.new ≡ self.old ++ bytes.now }
    {
        let Ok(()) = self.bytes.try_extend_from_slice(bytes) else {
            unreachable!()
        };
    }

    /// A copy, which takes no memory.
    pub fn copy(&self) -> Self
        ensures { result ≡ self.now }
    {
        let Ok(bytes) = ArrayVec::try_from(self.bytes.as_slice()) else {
            unreachable!()
        };
        ShortText { bytes }
    }

    pub fn as_slice(&self) -> &[u8]
        ensures bytes { result.now ≡ self.now }
        ensures within { length self.now ≤ N }
    {
        self.bytes.as_slice()
    }

    pub fn len(&self) -> usize
        ensures len { result ≡ length self.now }
        ensures within { length self.now ≤ N }
    {
        self.bytes.len()
    }
}
