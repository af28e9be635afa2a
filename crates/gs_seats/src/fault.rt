//! Why a run gives no report.
ghost use Rattle.std.specs.Prelude.{◌≡◌, None};
ghost use Rattle.gs_seats.specs.Faults.{number_of};

use gs_base::PeerNo;
use std::alloc::{AllocError, AllocFailed};

/// Why a run gives no report.
#[derive(Clone, Copy, Debug, PartialEq, Eq, thiserror::Error)]
pub enum NetFault {
    /// Out of memory for what this peer is given. Where there is no peer, the fault doesn't say for what.
    #[error("there was no memory")]
    NoMemory(Option<PeerNo>),
    /// A worker thread could not be started, or could not wait.
    #[error("a worker thread was missing")]
    NoThread,
}

impl NetFault {
    /// Returns the number of the fault: 24 when out of memory, 25 where a worker thread was missing.
    pub fn number(self) -> u8
        ensures { result ≡ number_of self }
    {
        match self {
            NetFault::NoMemory(_) => 24,
            NetFault::NoThread => 25,
        }
    }
}

impl From<AllocError> for NetFault {
    fn from(_: AllocError) -> NetFault
        ensures { result ≡ NetFault.NoMemory None }
    {
        NetFault::NoMemory(None)
    }
}

impl<T: Drop> From<AllocFailed<T>> for NetFault {
    fn from(_: AllocFailed<T>) -> NetFault
        ensures { result ≡ NetFault.NoMemory None }
    {
        NetFault::NoMemory(None)
    }
}
