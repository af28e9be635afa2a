//! The command `trace`: it writes the trace of the scenario that it reads: what each peer heard, decided, sent and remembered,
//! and what had no effect.
ghost use Rattle.std.specs.Prelude.{◌≡◌, map, option_map, string_bytes, true};
ghost use Rattle.std.specs.Process.{exit_status};
ghost use Rattle.gs_program.specs.Arguments.{IsRefusedSo, wrong_arguments};
ghost use Rattle.gs_program.specs.Asked.{EndsWished};
ghost use Rattle.gs_program.specs.Options.{options_of};
ghost use Rattle.gs_trace.specs.Wanted.{spelled, wanted_text, wishes_of};
ghost use Rattle.gossip_sim.specs.TraceCommand.{EndsFor, as_printed, rounds_given, usage, wishes_for};

use gs_plan::Plan;
use gs_program::{
    LARGE, OptionRule, Options, PROGRESS, PrintFault, Printer, program_with, refuse_arguments,
};
use gs_report::Report;
use gs_seats::traces_of_a_report_are_in_order;
use gs_trace::{RoundSpan, TraceFault, Wanted, Wish, rounds_in, write_trace};
use std::alloc::Global;
use std::io::{Read, Write};
use std::process::ExitCode;

/// How the command is called.
pub const USAGE: &str =
    "usage: gossip_trace [--large] [--progress] [--peer NAME] [--topic TOPIC] [--rounds A..B] [--events A,B,..]\n";

/// The options that it takes.
const OPTIONS: [OptionRule; 6] = [
    LARGE,
    PROGRESS,
    OptionRule {
        name: "--peer",
        has_value: true,
        most: 1,
    },
    OptionRule {
        name: "--topic",
        has_value: true,
        most: 1,
    },
    OptionRule {
        name: "--rounds",
        has_value: true,
        most: 1,
    },
    OptionRule {
        name: "--events",
        has_value: true,
        most: 1,
    },
];

/// Makes those lines of the trace of a run that are asked for.
#[derive(Clone, Copy, Debug, Drop)]
struct TraceOf<'a> {
    wanted: Wanted<'a>,
}

impl<'a> Printer for TraceOf<'a> {
    ghost text = { λ printer plan report. wanted_text (wishes_of printer.wanted) plan report };

    ghost in_parts = { true };

    fn print<W: Write>(
        &self,
        alloc: Global,
        plan: &Plan,
        report: &Report,
        output: &mut W,
    ) -> Result<(), PrintFault> {
        traces_of_a_report_are_in_order();
        match write_trace(alloc, plan, report, &self.wanted, output) {
            Ok(()) => Ok(()),
            Err(fault) => Err(as_printed(fault)),
        }
    }
}

/// What a fault of writing a trace means to a printer. A front of the text may have been written before memory ran out.
pub(crate) fn as_printed(fault: TraceFault) -> PrintFault
    ensures { result ≡ as_printed fault }
{
    match fault {
        TraceFault::NoMemory => PrintFault::CutOff,
        TraceFault::WriteFailed => PrintFault::WriteFailed,
    }
}

/// Which lines these options ask for. None where a value is none that its option takes.
fn wanted_by<'a>(options: &Options<'a>) -> Option<Wanted<'a>>
    ensures { option_map wishes_of result ≡ wishes_for (options_of options.now) }
{
    let rounds = rounds_of(options.value("--rounds"))?;
    Some(Wanted {
        peer: wish_for(options.value("--peer")),
        topic: wish_for(options.value("--topic")),
        rounds,
        events: wish_for(options.value("--events")),
    })
}

/// What the value of an option asks for. Without the option, any text will do.
pub(crate) fn wish_for(value: Option<&str>) -> Wish<'_>
    ensures { spelled result ≡ option_map (λ text. text.now) value.entry }
{
    match value {
        None => Wish::Any,
        Some(text) => Wish::Only(text),
    }
}

/// Which rounds the value of `--rounds` asks for. None where it spells no rounds.
pub(crate) fn rounds_of(value: Option<&str>) -> Option<Option<RoundSpan>>
    ensures { result ≡ rounds_given (option_map (λ text. text.now) value.entry) }
{
    match value {
        None => Some(None),
        Some(text) => match rounds_in(text.as_bytes()) {
            None => None,
            Some(rounds) => Some(Some(rounds)),
        },
    }
}

/// Runs the command with these arguments over these streams, and returns the exit status of its process.
/// Where the arguments ask for something, it ends as a run without links does, and its text has the lines that they ask for.
/// If it runs out of memory for the rest of them, a front of the text is on the output.
/// Otherwise it reads no input, writes the usage or a front of it to `errors`, and ends with 64.
pub fn run<R, W, E>(
    alloc: Global,
    arguments: &[String],
    input: &mut R,
    output: &mut W,
    errors: &mut E,
) -> ExitCode
where
    R: Read,
    W: Write,
    E: Write,
    ensures { EndsFor (map string_bytes arguments.now) (exit_status result)
        (R.remaining input.old) (R.remaining input.new)
        (W.contents output.old) (W.contents output.new) (E.contents errors.old) (E.contents errors.new) }
{
    match Options::of(&OPTIONS, arguments) {
        Some(options) => run_with(alloc, &options, input, output, errors),
        None => refuse(errors),
    }
}

/// Runs the command with these options.
fn run_with<R, W, E>(
    alloc: Global,
    options: &Options<'_>,
    input: &mut R,
    output: &mut W,
    errors: &mut E,
) -> ExitCode
where
    R: Read,
    W: Write,
    E: Write,
    ensures { EndsWished usage wanted_text true (options_of options.now) (wishes_for (options_of options.now))
        (exit_status result) (R.remaining input.old) (R.remaining input.new)
        (W.contents output.old) (W.contents output.new) (E.contents errors.old) (E.contents errors.new) }
{
    match wanted_by(options) {
        Some(wanted) => {
            let program = program_with(alloc, options, TraceOf { wanted });
            program.run_to_exit(input, output, errors)
        }
        None => refuse(errors),
    }
}

/// Writes the usage, or a front of it, to `errors`, and returns the status for wrong arguments.
#[tactic(auto, unfolding(crate::specs::TraceCommand::usage))]
fn refuse<E: Write>(errors: &mut E) -> ExitCode
    ensures { IsRefusedSo usage wrong_arguments (exit_status result) (E.contents errors.old) (E.contents errors.new) }
{
    refuse_arguments(errors, USAGE)
}
