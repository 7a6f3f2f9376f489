ghost use Rattle.std.specs.Prelude.{◌≡◌, ◌<◌, ◌≤◌, ◌↔◌, ◌⊎◌, length, take, nat_eq, IfErr, IfOk, IsErrOf};
ghost use Rattle.std.specs.Cmp.Lexicographic.{pointwise};
ghost use Rattle.std.proofs.Common.{rules};
ghost use Rattle.record_codec.specs.declared.body.TheConstants.{IN_PLACE, MOST_BODY};

use crate::errors::BodyError;
use quota_table::OutOfMemory;
use std::alloc::{AllocError, Global};
use std::fmt;
use std::fmt::{Debug, Formatter, Write};
use std::marker::Model;
use std::sync::ArcSlice;

/// The greatest length of a body, in bytes.
pub const MOST_BODY: usize = 1024;

/// How many bytes stand in a value itself.
pub const IN_PLACE: usize = 14;

/// Where the bytes of a body are.
#[derive(Drop)]
pub(crate) enum Kept {
    /// The first `len` of these places.
    Here { len: u8, places: [u8; IN_PLACE] },
    /// Behind a count of the bodies that have them.
    Shared(ArcSlice<u8>),
}

/// What a client submits: at most 1,024 bytes. Contracts see it as that list. A clone takes no memory: up to [`IN_PLACE`]
/// bytes stand in the value itself, and longer bodies share theirs.
#[derive(Drop)]
pub struct Body {
    kept: Kept,
}

impl Model for Body {
    ghost use Rattle.std.specs.Prelude.{ℕ, List};

    ghost Value = { List ℕ };

    ghost use Rattle.std.specs.Prelude.{length, ◌≤◌};
    ghost use Rattle.record_codec.specs.inside.Kept.{kept_bytes, IsKeptByLength};

    ghost view = { λ b. kept_bytes b.kept };

    ghost invariant = { λ b. IsKeptByLength b.kept × (length (kept_bytes b.kept) ≤ 1024) };
}

impl Clone for Body {
    ghost is_clone = { λ a b. b ≡ a };

    ghost is_infallible = { λ a. length a ≤ IN_PLACE };

    fn clone(&self) -> Result<Body, AllocError> {
        let kept = match &self.kept {
            Kept::Here { len, places } => Kept::Here {
                len: *len,
                places: *places,
            },
            Kept::Shared(bytes) => Kept::Shared(bytes.clone()?),
        };
        Ok(Body { kept })
    }
}

impl PartialEq for Body {
    ghost eq = { pointwise nat_eq };

    ghost laws = { Prim.search rules };

    fn eq(&self, other: &Body) -> bool {
        self.as_slice() == other.as_slice()
    }
}

impl Debug for Body {
    fn fmt<W: Write>(&self, f: &mut Formatter<W>) -> fmt::Result {
        f.debug_list().slice(self.as_slice()).finish()
    }
}

impl Body {
    /// The body of these bytes, or `TooLong` exactly where there are more than 1,024.
    pub fn new(alloc: Global, bytes: &[u8]) -> Result<Body, BodyError>
        ensures body { IfOk result (λ body. body ≡ bytes.now) }
        ensures fits { IfOk result (λ _. length bytes.now ≤ MOST_BODY) }
        ensures too_long { IsErrOf result (BodyError.TooLong (length bytes.now)) ↔ (MOST_BODY < length bytes.now) }
        ensures no_other { IfErr result (λ e. (e ≡ BodyError.TooLong (length bytes.now)) ⊎ (e ≡ BodyError.OutOfMemory)) }
    {
        if bytes.len() > MOST_BODY {
            return Err(BodyError::TooLong { len: bytes.len() });
        }
        Body::of(alloc, bytes).map_err(|_| BodyError::OutOfMemory)
    }

    /// The body of at most 1,024 bytes. It takes memory only where they are more than stand in a value.
    pub fn of(alloc: Global, bytes: &[u8]) -> Result<Body, OutOfMemory>
        requires { length bytes.now ≤ 1024 }
        ensures { IfOk result (λ body. body ≡ bytes.now) }
    {
        if bytes.len() <= IN_PLACE {
            return Ok(Body::here(bytes));
        }
        Ok(Body {
            kept: Kept::Shared(ArcSlice::from_slice(alloc, bytes)?),
        })
    }

    fn here(bytes: &[u8]) -> Body
        requires { length bytes.now ≤ IN_PLACE }
        ensures { result ≡ bytes.now }
    {
        let mut places = [0; IN_PLACE];
        places[..bytes.len()].copy_from_slice(bytes);
        Body {
            kept: Kept::Here {
                len: bytes.len() as u8,
                places,
            },
        }
    }

    pub fn as_slice(&self) -> &[u8]
        ensures bytes { result.now ≡ self.now }
        ensures within { length self.now ≤ MOST_BODY }
    {
        match &self.kept {
            Kept::Here { len, places } => &places[..usize::from(*len)],
            Kept::Shared(bytes) => bytes.as_slice(),
        }
    }

    pub fn len(&self) -> usize
        ensures len { result ≡ length self.now }
        ensures within { length self.now ≤ MOST_BODY }
    {
        self.as_slice().len()
    }
}
