//! Programs that read a scenario, run it and write a text about the run.
#![tactic(auto)]

mod arguments;
mod asked;
mod options;
mod printer;
mod program;
mod progress;
mod reading;
mod summary;
mod telling;

pub use arguments::{arguments_of, refuse_arguments, refuse_unread};
pub use asked::{LARGE, PROGRESS, limits_of, program_with, summary_with};
pub use options::{GivenOption, MOST_GIVEN, OptionRule, Options, look_ups_ignore_the_order};
pub use printer::{PrintFault, Printer, print_whole};
pub use program::Program;
pub use progress::Progress;
pub use summary::{Summarizer, SummaryProgram};
