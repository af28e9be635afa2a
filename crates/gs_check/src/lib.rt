//! What the program says about a scenario: what is wrong with it, in words, or that it is fine and what it plans.
#![tactic(auto)]

mod answer;
mod first_line;
mod program;
mod reasons;
mod shown;
mod summary;

pub use answer::{
    NO_MEMORY_ANSWER, Verdict, answer_without_memory, no_input_is_accepted_and_refused,
};
pub use first_line::plain_places_are_shown_as_they_stand;
pub use program::run;
