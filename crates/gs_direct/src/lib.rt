//! A run of peers on one thread, without links. What a peer says in a round is handed to its neighbours as RPCs. No peer
//! waits for another, so a run ends.
#![tactic(auto)]

mod letter;
mod link_reader;
mod outlet;
mod outlets;
mod peer;
mod post;
mod run;
mod stages;

pub use run::{run_direct, run_observed};
pub use stages::{Gauge, NoGauge, Stage};
