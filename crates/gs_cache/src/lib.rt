//! What a gossipsub peer remembers about messages for a while. It remembers which ones it has seen, so that none is handled
//! twice. It keeps the latest ones whole, to offer them and to send them to neighbours that ask. It also keeps the
//! identifiers of the latest payloads.
//!
//! A call that would both answer and change something is split in two, such as `is_near` and `note`, or `answer_for` and
//! `count_answer`. A router makes an entry from what the first one answers, and the second one notes the entry.
#![tactic(auto)]

mod laws;
mod message_cache;
mod payloads;
mod seen;

pub use laws::{a_step_needs_only_what_counts, limit_of_announcements};
pub use message_cache::{Answer, MOST_ANNOUNCED, MessageCache};
pub use payloads::Payloads;
pub use seen::{SeenCache, Sighting};
