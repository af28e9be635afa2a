//! The parameters of gossipsub peers, random words, and the choices that they make.
#![tactic(auto)]

mod checks;
mod param_fault;
mod parameter;
mod params;
mod picks;
mod ranges;
mod seeded_words;
mod topic_params;
mod words;

pub use checks::{Check, CountRule, ScoreRule};
pub use param_fault::ParamFault;
pub use parameter::{Parameter, TopicParameter};
pub use params::{
    DEFAULT_DEGREES, DEFAULT_FACTORS, DEFAULT_FLOOD_PUBLISH, DEFAULT_THRESHOLDS, DEFAULT_TIMING,
    Degrees, Factors, Params, Thresholds, Timing, parameters_in_range_pass,
};
pub use picks::{a_pick_is_the_front_of_a_shuffle, pick, pick_one};
pub use seeded_words::{SeededWords, seeded_words_give_their_list_first};
pub use topic_params::{
    DEFAULT_TOPIC_FACTORS, DEFAULT_TOPIC_TIMING, TopicFactors, TopicParams, TopicTiming,
};
pub use words::Words;
