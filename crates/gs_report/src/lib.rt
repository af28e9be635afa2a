//! What a run of peers leaves, and the text of it.
#![tactic(auto)]

mod finished;
mod remains;
mod report;
mod text;

pub use finished::Finished;
pub use remains::Remains;
pub use report::Report;
pub use text::{name_of, push_millionths, report_text, word_of};
