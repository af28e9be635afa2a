//! The ends of a peer's links, by neighbour: either true ends of links, or lists in memory. A task relies only on what any ends
//! promise, so it can be tested without threads.
#![tactic(auto)]

mod ends;
mod inbound;
mod link_ends;
mod list_ends;
mod outbound;
mod position;

pub use ends::Ends;
pub use link_ends::LinkEnds;
pub use list_ends::ListEnds;
