//! The command `scores`: it writes the scores of the scenario that it reads: what each peer's neighbours score at its heartbeats,
//! at its decays and at its shutdown, part by part.
ghost use Rattle.std.specs.Io.KnownBytes.{Appends};
ghost use Rattle.std.specs.Prelude.{◌≡◌, OnErr, OnOk, map, option_map, string_bytes, true};
ghost use Rattle.std.specs.Process.{exit_status};
ghost use Rattle.gs_plan.specs.Plans.{IsInRange};
ghost use Rattle.gs_program.specs.Arguments.{IsRefusedSo, wrong_arguments};
ghost use Rattle.gs_program.specs.Asked.{EndsWished};
ghost use Rattle.gs_program.specs.Options.{options_of};
ghost use Rattle.gs_seats.specs.Reports.{IsReport};
ghost use Rattle.gs_streams.specs.Streams.{AppendsFront};
ghost use Rattle.gossip_sim.specs.ScoresCommand.{EndsFor, asked_of, form_given, form_in, printed_for, usage, wishes_for};

use crate::trace::{as_printed, rounds_of, wish_for};
use gs_plan::Plan;
use gs_program::{
    LARGE, OptionRule, Options, PROGRESS, PrintFault, Printer, program_with, refuse_arguments,
};
use gs_report::Report;
use gs_snapshots::{Form, Wanted, write_scores, write_summary};
use gs_trace::TraceFault;
use std::alloc::Global;
use std::io::{Read, Write};
use std::process::ExitCode;

/// How the command is called.
pub const USAGE: &str =
    "usage: gossip_scores [--large] [--progress] [--peer NAME] [--neighbour NAME] [--rounds A..B] \
    [--format json|csv | --summary]\n";

/// The options that it takes.
const OPTIONS: [OptionRule; 7] = [
    LARGE,
    PROGRESS,
    OptionRule {
        name: "--peer",
        has_value: true,
        most: 1,
    },
    OptionRule {
        name: "--neighbour",
        has_value: true,
        most: 1,
    },
    OptionRule {
        name: "--rounds",
        has_value: true,
        most: 1,
    },
    OptionRule {
        name: "--format",
        has_value: true,
        most: 1,
    },
    OptionRule {
        name: "--summary",
        has_value: false,
        most: 1,
    },
];

/// What the options ask for.
#[derive(Clone, Copy, Debug, Drop)]
pub struct Asked<'a> {
    /// Which scores.
    pub wanted: Wanted<'a>,
    /// Whether they are summed up.
    pub is_summary: bool,
}

/// Makes the text of the scores that are asked for, or sums them up.
#[derive(Clone, Copy, Debug, Drop)]
struct ScoresOf<'a> {
    asked: Asked<'a>,
}

impl<'a> Printer for ScoresOf<'a> {
    ghost text = { λ printer plan report. printed_for (asked_of printer.asked) plan report };

    ghost in_parts = { true };

    fn print<W: Write>(
        &self,
        alloc: Global,
        plan: &Plan,
        report: &Report,
        output: &mut W,
    ) -> Result<(), PrintFault> {
        match write_asked(alloc, plan, report, &self.asked, output) {
            Ok(()) => Ok(()),
            Err(fault) => Err(as_printed(fault)),
        }
    }
}

/// Writes what is asked for.
fn write_asked<W: Write>(
    alloc: Global,
    plan: &Plan,
    report: &Report,
    asked: &Asked<'_>,
    output: &mut W,
) -> Result<(), TraceFault>
    requires range { IsInRange plan.now }
    requires run { IsReport plan.now report.now }
    ensures whole { OnOk result (Appends (W.contents output.old) (W.contents output.new)
        (printed_for (asked_of asked.now) plan.now report.now)) }
    ensures front { OnErr result (AppendsFront (W.contents output.old) (W.contents output.new)
        (printed_for (asked_of asked.now) plan.now report.now)) }
{
    if asked.is_summary {
        return write_summary(alloc, plan, report, &asked.wanted, output);
    }
    write_scores(alloc, plan, report, &asked.wanted, output)
}

/// Which scores these options ask for. None where a value is none that its option takes, or where a summary has a form.
fn asked_by<'a>(options: &Options<'a>) -> Option<Asked<'a>>
    ensures { option_map asked_of result ≡ wishes_for (options_of options.now) }
{
    let rounds = rounds_of(options.value("--rounds"))?;
    let form = form_of(options.value("--format"))?;
    let is_summary = options.has("--summary");
    if is_summary && form.is_some() {
        return None;
    }
    let wanted = Wanted {
        peer: wish_for(options.value("--peer")),
        neighbour: wish_for(options.value("--neighbour")),
        rounds,
        form,
    };
    Some(Asked { wanted, is_summary })
}

/// The form that the value of `--format` asks for. None where it names no form.
fn form_of(value: Option<&str>) -> Option<Option<Form>>
    ensures { result ≡ form_given (option_map (λ text. text.now) value.entry) }
{
    match value {
        None => Some(None),
        Some(word) => match form_in(word) {
            None => None,
            Some(form) => Some(Some(form)),
        },
    }
}

/// The form that a word names, if there is one.
fn form_in(word: &str) -> Option<Form>
    ensures { result ≡ form_in word.now }
{
    if word == "json" {
        return Some(Form::Json);
    }
    if word == "csv" {
        return Some(Form::Csv);
    }
    None
}

/// Runs the command with these arguments over these streams, and returns the exit status of its process.
/// Where the arguments ask for something, it ends as a run without links does, and its text has the scores that they ask for.
/// Otherwise it reads no input, writes the usage or a front of it to `errors`, and ends with 64.
pub fn run<R, W, E>(
    alloc: Global,
    arguments: &[String],
    input: &mut R,
    output: &mut W,
    errors: &mut E,
) -> ExitCode
where
    R: Read,
    W: Write,
    E: Write,
    ensures { EndsFor (map string_bytes arguments.now) (exit_status result)
        (R.remaining input.old) (R.remaining input.new)
        (W.contents output.old) (W.contents output.new) (E.contents errors.old) (E.contents errors.new) }
{
    match Options::of(&OPTIONS, arguments) {
        Some(options) => run_with(alloc, &options, input, output, errors),
        None => refuse(errors),
    }
}

/// Runs the command with these options.
fn run_with<R, W, E>(
    alloc: Global,
    options: &Options<'_>,
    input: &mut R,
    output: &mut W,
    errors: &mut E,
) -> ExitCode
where
    R: Read,
    W: Write,
    E: Write,
    ensures { EndsWished usage printed_for true (options_of options.now) (wishes_for (options_of options.now))
        (exit_status result) (R.remaining input.old) (R.remaining input.new)
        (W.contents output.old) (W.contents output.new) (E.contents errors.old) (E.contents errors.new) }
{
    match asked_by(options) {
        Some(asked) => {
            let program = program_with(alloc, options, ScoresOf { asked });
            program.run_to_exit(input, output, errors)
        }
        None => refuse(errors),
    }
}

/// Writes the usage, or a front of it, to `errors`, and returns the status for wrong arguments.
#[tactic(auto, unfolding(crate::specs::ScoresCommand::usage))]
fn refuse<E: Write>(errors: &mut E) -> ExitCode
    ensures { IsRefusedSo usage wrong_arguments (exit_status result) (E.contents errors.old) (E.contents errors.new) }
{
    refuse_arguments(errors, USAGE)
}
