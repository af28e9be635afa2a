//! What a peer does in its rounds: it follows its lines, lowers its counters and has its heartbeats, by one router.
#![tactic(auto)]

mod agenda;
mod calls;

pub use agenda::Agenda;
pub use calls::{decay_and_beat, follow_all, never_refused};
