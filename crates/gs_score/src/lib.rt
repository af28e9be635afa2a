//! The scores of a gossipsub peer's neighbours (gossipsub v1.1, Peer Scoring), in fixed point: amounts,
//! weights and scores are whole millionths, so that 1,000,000 is one.
#![tactic(auto)]

mod accounts;
mod addresses;
mod counter;
mod laws;
mod millionths;
mod parts;
mod rulebook;
mod rules;
mod score;
mod scores;
mod standing;
mod topic_standings;

pub use addresses::{AddressEntry, Addresses};
pub use counter::{Counter, Decay, MOST_COUNTED};
pub use laws::{
    a_later_read_decays_on, a_standing_decays_by_its_counters, changes_name_all_that_is_named,
    limits_of_counters, named_topics_leave_none_out, parts_make_up_a_score,
    products_of_amounts_are_scaled, there_is_room_for_what_fits_a_list,
};
pub use millionths::{scaled, squared, times};
pub use parts::{Part, ScoreParts, TopicParts};
pub use rulebook::Rulebook;
pub use rules::TopicRules;
pub use score::score_of;
pub use scores::Scores;
pub use standing::{Kind, Raise, Standing};
pub use topic_standings::TopicStandings;
