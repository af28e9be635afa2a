//! Why workers give no outputs.
ghost use Rattle.std.specs.Prelude.{◌≡◌};
ghost use Rattle.gs_workers.specs.declared.fault.Want.TheVariants.{Memory, Thread};

use crate::stop_flag::Raised;
use std::alloc::{AllocError, AllocFailed};

/// Why workers give no outputs. Each fault contains evidence that the stop flag was set.
#[derive(Debug, Drop, thiserror::Error)]
pub enum WorkerFault {
    /// Memory ran out.
    #[error("there was no memory")]
    NoMemory(Raised),
    /// A worker thread could not be started, or could not wait.
    #[error("a worker thread was missing")]
    NoThread(Raised),
}

/// What was missing while futures ran. If a thread was missing, the flag is already set. If memory was, it may not be set yet.
#[derive(Drop)]
pub enum Want {
    Memory,
    Thread(Raised),
}

impl From<AllocError> for Want {
    ghost from_gives = { λ _ want. want ≡ Memory };

    fn from(_: AllocError) -> Want {
        Want::Memory
    }
}

impl<T: Drop> From<AllocFailed<T>> for Want {
    ghost from_gives = { λ _ want. want ≡ Memory };

    fn from(_: AllocFailed<T>) -> Want {
        Want::Memory
    }
}

impl From<Raised> for Want {
    ghost from_gives = { λ raised want. want ≡ Thread raised };

    fn from(raised: Raised) -> Want {
        Want::Thread(raised)
    }
}
