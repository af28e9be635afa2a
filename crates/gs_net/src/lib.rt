//! Gossipsub peers on worker threads, over links: runs a plan, and returns what remains of each peer.
#![tactic(auto)]

mod dials;
mod driving;
mod lives;
mod run;
mod tasks;

pub use dials::{settle_all, wire_all};
pub use run::run_net;
