//! A peer's whole run as a future that is polled by hand, over any ends of links.
#![tactic(auto)]

mod assignment;
mod boxes;
mod finished_task;
mod frames;
mod gate;
mod hearing;
mod inbox;
mod outbox;
mod outboxes;
mod phase;
mod player;
mod queue;
mod running;
mod task;

pub use assignment::Assignment;
pub use finished_task::{FinishedTask, PeerFault};
pub use gate::{Gate, NoGate};
pub use task::{PeerTask, Surroundings};
