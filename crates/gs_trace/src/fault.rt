//! Why a trace was not written to its end.
ghost use Rattle.std.specs.Prelude.{◌≡◌};
ghost use Rattle.gs_trace.specs.declared.fault.TraceFault.TheVariants as faults;

use gs_streams::WriteFailed;
use std::alloc::AllocError;

/// Why a trace was not written to its end.
#[derive(Clone, Copy, Debug, PartialEq, Eq)]
pub enum TraceFault {
    /// Memory ran out for the next lines.
    NoMemory,
    /// A write failed, or took nothing.
    WriteFailed,
}

impl From<AllocError> for TraceFault {
    ghost from_gives = { λ _ fault. fault ≡ faults.NoMemory };

    fn from(_error: AllocError) -> TraceFault {
        TraceFault::NoMemory
    }
}

impl From<WriteFailed> for TraceFault {
    ghost from_gives = { λ _ fault. fault ≡ faults.WriteFailed };

    fn from(_error: WriteFailed) -> TraceFault {
        TraceFault::WriteFailed
    }
}
