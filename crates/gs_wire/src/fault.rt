ghost use Rattle.std.specs.Prelude.{◌≡◌};

use std::alloc::AllocError;

/// Why bytes were not read as an RPC or as frames, or why an RPC was not written.
#[derive(Clone, Copy, Debug, PartialEq, Eq, thiserror::Error)]
pub enum WireFault {
    /// The bytes spell no RPC.
    #[error("the bytes spell no RPC")]
    Malformed,
    /// A body is longer than `MAX_BODY`, or than a reader's limit.
    #[error("the body is too long")]
    TooLong,
    /// The reader has met a fault before.
    #[error("the stream has failed before")]
    Failed,
    /// Out of memory.
    #[error("there was no memory")]
    NoMemory,
}

impl From<AllocError> for WireFault {
    ghost use Rattle.gs_wire.specs.declared.fault.WireFault.TheVariants.{NoMemory};

    ghost from_gives = { λ _ fault. fault ≡ NoMemory };

    fn from(_error: AllocError) -> WireFault {
        WireFault::NoMemory
    }
}
