//! What is simulated: the peers of a run, the dials between them, and what the peers are to do.
#![tactic(auto)]

mod limits;
mod plan;
mod words;

pub use limits::{LONGEST_INPUT, Limits, MOST_PEERS};
pub use plan::{
    Act, App, Dial, Explicit, HIGHEST_APP_SCORE, HIGHEST_PHASE, LONGEST_RAW, LONGEST_ROUND, Line,
    MOST_ROUNDS, Plan, PlannedPeer, are_joined, limits_of_plans,
};
pub use words::{HANG_UP, PUBLISH, RAW, SUBSCRIBE, UNSUBSCRIBE, what_word};
