//! What a gossipsub peer does, entry by entry: which entries may follow each other, by which choices, and what each round
//! asks for.
#![tactic(auto)]

mod event;
mod fallen;
mod laws;
mod member_laws;
mod outcome;
mod refusal;
mod stored;
mod trace;

pub use event::{BeatStep, Event, Loss, RpcPart};
pub use fallen::{Fallen, NoAnswer};
pub use laws::{
    a_broken_promise_is_charged, a_delivery_is_not_repeated, a_heartbeat_mends_gossips_and_ends,
    a_heartbeat_moves_a_mesh_a_step, a_part_with_nothing_left_is_whole, a_promise_is_charged_once,
    a_script_without_bytes_says_only_frames, each_mark_of_a_legal_trace_counts,
    gossip_is_of_what_is_kept, legal_entries_compose, nothing_changes_a_mesh_after_a_shut,
    nothing_changes_a_score_after_a_shut, nothing_is_gathered_after_a_cut,
    nothing_is_said_after_a_close, one_more_entry, only_a_cut_says_more_than_frames,
    own_topics_are_those_that_are_joined, what_is_given_draws_no_word, what_is_kept_is_gossiped,
    what_is_sent_is_spelled, what_was_said_is_handled, what_was_sent_is_handled,
    what_words_choose_is_legal, whoever_is_lost_counts_no_more_at_its_address,
    words_fix_the_next_entry, words_fix_what_follows_a_rule,
};
pub use member_laws::{
    a_member_was_not_in_backoff, explicit_neighbours_stay_outside, mesh_members_are_up,
    meshes_are_of_own_topics,
};
pub use outcome::{FanoutUse, GraftAnswer, GraftRefusal, Outcome};
pub use refusal::{Refusal, RefusedLine};
pub use stored::StoredEntry;
pub use trace::{Effects, Entry, Promise, Trace};
