//! Drives futures on worker threads.
#![tactic(auto)]

mod deal;
mod fault;
mod group;
mod stop_flag;
mod workers;

pub use fault::WorkerFault;
pub use stop_flag::{FoundSet, FoundUnset, Raised, StopFlag};
pub use workers::{Ran, run_all};
