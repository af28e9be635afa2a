//! How far each message of a run got, and in how many rounds.
#![tactic(auto)]

mod catalogue;
mod chosen;
mod distribution;
mod filing;
mod firsts;
mod keys;
mod laws;
mod linked;
mod listed;
mod listing;
mod messages;
mod pairs;
mod spread;
mod table;
mod tables;
mod verdict;

pub use chosen::{Chosen, accepted_pairs, chosen_messages, pairs_among};
pub use distribution::{Distribution, LIMITS, Within, distribution_of};
pub use laws::{
    a_percentile_has_its_rank, all_messages_are_by_a_group_or_by_others, more_rounds_reach_no_less,
    more_subscribers_take_no_fewer_rounds, publishers_are_no_subscribers,
    reached_and_missed_are_all,
};
pub use listed::{Appearance, Arrival, Change, Listed, Loss};
pub use listing::Listing;
pub use messages::{MessageReach, messages_of};
pub use pairs::{Pair, missed, reached, reached_within};
pub use spread::{Spread, spread_of};
