//! A summary of what peers score their neighbours over a run. For any two peers it has the lowest score and its first
//! moment. For each round it has the lowest score of all peers and of some groups.
#![tactic(auto)]

mod cells;
mod judging;
mod laws;
mod members;
mod opinion;
mod pairs;
mod run;
mod tables;
mod traces;

pub use judging::Judging;
pub use laws::the_lowest_is_the_first_that_none_is_below;
pub use opinion::{Lowest, Opinion};
pub use run::{Opinions, PairOpinion, RoundOpinions};
