//! Routers to test with: what is done to a router is a value in a table.
#![tactic(auto)]

mod calls;
mod cases;
mod play;
mod routers;
mod rpcs;

pub use calls::{Answer, act_of};
pub use cases::{Call, Case, CasePart, Kind, NOTHING};
pub use play::Player;
