//! The trace of a run as JSON Lines: what each peer heard, decided, sent and remembered, entry by entry, and what came to nothing.
#![tactic(auto)]

mod entries;
mod events;
mod fallen;
mod fault;
mod head;
mod laws;
mod lines;
mod marks;
mod pages;
mod readers;
mod refusals;
mod rpcs;
mod spans;
mod texts;
mod topics;
mod turn;
mod wanted;

pub use events::push_word;
pub use fault::TraceFault;
pub use head::push_names;
pub use laws::{
    a_trace_tells_all, broken_promises_are_charged, each_identifier_is_answered_or_told,
    each_refused_line_is_told_once, wanting_all_tells_all, what_came_to_nothing_owes_no_parts,
};
pub use lines::write_trace;
pub use pages::{write_full, write_page};
pub use spans::rounds_in;
pub use texts::{Shown, push_code, push_list, push_number, push_peer, push_quoted};
pub use wanted::{RoundSpan, Wanted, Wish};
