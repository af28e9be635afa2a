//! A gossipsub router: what one peer does about what it hears and what its user asks of it.
#![tactic(auto)]

mod entries;
mod fault;
mod follower;
mod known;
mod log;
mod peer_lists;
mod peer_set;
mod router;
mod setup;
mod state;
mod tables;
mod topic_order;
mod watcher;

pub use fault::RouterFault;
pub use follower::{Followed, Follower};
pub use log::{LastRound, Retention, WholeTrace};
pub use router::Router;
pub use watcher::Watcher;
