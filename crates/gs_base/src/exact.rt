//! Clones that equal their source. `Clone` by itself lets each type say what its copies are.
ghost use Rattle.std.specs.Prelude.{◌≡◌, IfOk};
ghost use Rattle.std.proofs.Common.{ap₂};

use bytes::Bytes;
use std::alloc::AllocError;

/// A type whose clones equal their source, so that a copy of an RPC equals the RPC.
pub trait ExactClone: Clone {
    /// A clone equals its source.
    ghost exact: { (source copy : Self) → Self.is_clone source copy → copy ≡ source };
}

impl ExactClone for Bytes {
    ghost exact = { λ source copy same. same };
}

impl<A: ExactClone, B: ExactClone> ExactClone for (A, B) {
    ghost exact = { λ source copy same.
        ap₂ (λ a b. (a, b)) (A.exact source.0 copy.0 same.0) (B.exact source.1 copy.1 same.1) };
}

/// Returns a clone, which equals its source.
///
/// # Errors
/// `AllocError` when out of memory.
pub fn clone_of<T: ExactClone>(value: &T) -> Result<T, AllocError>
    ensures { IfOk result (λ copy. copy ≡ value.now) }
{
    value.clone()
}

/// Returns a clone of an optional value, which equals its source.
///
/// # Errors
/// `AllocError` when out of memory.
#[inline(always)]
pub fn clone_option<T: ExactClone>(value: &Option<T>) -> Result<Option<T>, AllocError>
    ensures { IfOk result (λ copy. copy ≡ value.now) }
{
    match value {
        Some(value) => Ok(Some(clone_of(value)?)),
        None => Ok(None),
    }
}
