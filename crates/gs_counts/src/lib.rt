//! What happened in a run, counted: by peer, by topic, by link, by round and in all. A run is one list of happenings. Each
//! number of a table is the sum of the amounts of the happenings in its row.
#![tactic(auto)]

mod changes;
mod counting;
mod counts;
mod exchange;
mod fate;
mod happening;
mod heard;
mod kind;
mod lane;
mod laws;
mod lengths;
mod memory;
mod meshes;
mod run;
mod said;
mod sent;
mod span;
mod tables;
mod topics;
mod traces;
mod verdicts;

pub use counting::Counting;
pub use counts::{Counts, no_counts};
pub use exchange::{
    rpcs_that_are_counted_are_said, rpcs_that_are_handled_came, rpcs_that_were_sent_came,
};
pub use fate::Fate;
pub use happening::Happening;
pub use kind::Kind;
pub use laws::{
    each_message_becomes_one_thing, fates_are_those_of_the_rule, members_are_those_of_meshes,
    rows_of_links_make_up_the_whole, rows_of_peers_make_up_the_whole,
    rows_of_rounds_make_up_the_whole, rows_of_topics_make_up_the_whole,
    subscribed_topics_are_joined,
};
pub use run::{LinkCounts, PeerCounts, RoundCounts, RunCounts, TopicCounts};
pub use said::{all_of_a_legal_trace_counts, bytes_that_are_counted_are_said};
pub use span::Span;
