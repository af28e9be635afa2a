//! Options that several commands take.
ghost use Rattle.std.specs.Prelude.{◌≡◌};
ghost use Rattle.gs_program.specs.Asked.{limits_for, limits_given, progress_given};
ghost use Rattle.gs_program.specs.Options.{options_of};

use crate::options::{OptionRule, Options};
use crate::printer::Printer;
use crate::program::Program;
use crate::summary::{Summarizer, SummaryProgram};
use gs_plan::Limits;
use std::alloc::Global;

/// The option for the large limits.
pub const LARGE: OptionRule = OptionRule {
    name: "--large",
    has_value: false,
    most: 1,
};

/// The option for lines about the progress of a run.
pub const PROGRESS: OptionRule = OptionRule {
    name: "--progress",
    has_value: false,
    most: 1,
};

/// Returns how large a scenario may be with these options.
pub fn limits_of(options: &Options<'_>) -> Limits
    ensures { result ≡ limits_given (options_of options.now) }
{
    limits_for(options.has("--large"))
}

fn limits_for(large: bool) -> Limits
    ensures { result ≡ limits_for large }
{
    if large {
        Limits::Large
    } else {
        Limits::Standard
    }
}

/// Returns the program for these options that makes its text by this printer.
pub fn program_with<P: Printer>(alloc: Global, options: &Options<'_>, printer: P) -> Program<P>
    ensures limits { result.limits ≡ limits_given (options_of options.now) }
    ensures progress { result.progress ≡ progress_given (options_of options.now) }
    ensures printer { result.printer ≡ printer }
{
    Program {
        alloc,
        limits: limits_of(options),
        progress: options.has("--progress"),
        printer,
    }
}

/// Returns the program for these options that makes its text while a run goes on.
pub fn summary_with<S: Summarizer>(
    alloc: Global,
    options: &Options<'_>,
    summarizer: S,
) -> SummaryProgram<S>
    ensures limits { result.limits ≡ limits_given (options_of options.now) }
    ensures progress { result.progress ≡ progress_given (options_of options.now) }
    ensures summarizer { result.summarizer ≡ summarizer }
{
    SummaryProgram {
        alloc,
        limits: limits_of(options),
        progress: options.has("--progress"),
        summarizer,
    }
}
