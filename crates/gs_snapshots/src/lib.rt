//! The scores of a run over time, part by part: what each peer's neighbours score at its heartbeats, at its decays and at
//! its shutdown. For each neighbour, a summary states when it scored too little. It also states how much of what the
//! neighbour sent had no effect.
#![tactic(auto)]

mod amounts;
mod courses;
mod csv;
mod falls;
mod head;
mod json;
mod laws;
mod loads;
mod moments;
mod scores;
mod snapshot;
mod summaries;
mod summary;
mod summary_lines;
mod summary_writer;
mod wanted;

pub use courses::{Course, Crossing};
pub use falls::{Falls, RefusedGrafts, UnansweredIds};
pub use laws::{a_snapshot_adds_up, nothing_is_below_the_lowest};
pub use moments::{Moment, Occasion};
pub use scores::write_scores;
pub use snapshot::{OnTopic, Snapshot};
pub use summary::Summary;
pub use summary_writer::write_summary;
pub use wanted::{Form, Wanted};
