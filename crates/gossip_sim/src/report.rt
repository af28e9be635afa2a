//! The command without a name: it writes the report of the scenario that it reads.
ghost use Rattle.std.specs.Prelude.{◌≡◌, false, map, string_bytes, true};
ghost use Rattle.std.specs.Process.{exit_status};
ghost use Rattle.gs_report.specs.Text.{report_text};
ghost use Rattle.gs_program.specs.Arguments.{IsRefusedSo, wrong_arguments};
ghost use Rattle.gs_program.specs.Options.{options_of};
ghost use Rattle.gs_program.specs.Program.{EndsAs};
ghost use Rattle.gs_program.specs.Progress.{EndsShowing};
ghost use Rattle.gossip_sim.specs.ReportCommand.{EndsFor, EndsIn, asked_for, usage, way_given};

use gs_net::run_net;
use gs_peer::{Gate, NoGate};
use gs_plan::{Limits, Plan};
use gs_program::{
    LARGE, OptionRule, Options, PROGRESS, PrintFault, Printer, Program, limits_of, print_whole,
    refuse_arguments,
};
use gs_report::{Report, report_text};
use gs_streams::ExitStatus;
use std::alloc::{AllocGlobal, Global};
use std::io::{Read, Write};
use std::process::ExitCode;
use std::random::RandomSource;
use std::sync::Wait;
use std::thread::Threads;

/// How the command is called.
pub const USAGE: &str =
    "usage: gossip_sim [--direct [--large] [--progress]]\n--large: up to 4096 peers; a run over links has up to 64\n";

/// The options that it takes.
const OPTIONS: [OptionRule; 3] = [
    OptionRule {
        name: "--direct",
        has_value: false,
        most: 1,
    },
    LARGE,
    PROGRESS,
];

/// How the peers of a scenario are run. Each way gives the same report.
#[derive(Clone, Copy, Debug, PartialEq, Eq)]
pub enum Way {
    /// On worker threads, over links.
    OverLinks,
    /// On one thread, without links.
    WithoutLinks(Direct),
}

/// How the program runs peers without links.
#[derive(Clone, Copy, Debug, PartialEq, Eq)]
pub struct Direct {
    /// How large a scenario may be.
    pub limits: Limits,
    /// Whether `errors` gets a line at the end of each round.
    pub progress: bool,
}

/// Returns how the arguments ask for peers to be run. Returns None where the arguments are wrong.
pub fn asked_by(arguments: &[String]) -> Option<Way>
    ensures { result ≡ asked_for (map string_bytes arguments.now) }
{
    match Options::of(&OPTIONS, arguments) {
        Some(options) => way_of(&options),
        None => None,
    }
}

/// How peers are run with these options. Only a run without links takes large scenarios, or shows its progress.
fn way_of(options: &Options<'_>) -> Option<Way>
    ensures { result ≡ way_given (options_of options.now) }
{
    if options.has("--direct") {
        return Some(Way::WithoutLinks(Direct {
            limits: limits_of(options),
            progress: options.has("--progress"),
        }));
    }
    if options.has("--large") || options.has("--progress") {
        return None;
    }
    Some(Way::OverLinks)
}

/// Writes the usage, or a front of it, to `errors`, and returns the status for wrong arguments.
fn refuse<E: Write>(errors: &mut E) -> ExitCode
    ensures { IsRefusedSo usage wrong_arguments (exit_status result) (E.contents errors.old) (E.contents errors.new) }
{
    refuse_arguments(errors, USAGE)
}

/// Makes the lines of a report.
#[derive(Clone, Copy, Debug, Drop)]
struct Lines;

impl Printer for Lines {
    ghost text = { λ _ plan report. report_text plan report };

    ghost in_parts = { false };

    fn print<W: Write>(
        &self,
        alloc: Global,
        plan: &Plan,
        report: &Report,
        output: &mut W,
    ) -> Result<(), PrintFault> {
        print_whole(report_text(alloc, plan, report), output)
    }
}

/// Runs the command with these arguments over these streams, and returns the exit status of its process. It runs peers over
/// links, or with `--direct` without links. With `--direct`, it takes the large limits for `--large`, and writes lines about
/// the run to `errors` for `--progress`. It refuses other arguments: then it reads no input, writes the usage or a front of it to
/// `errors`, and ends with 64.
pub fn run_for<T, R, W, E>(
    rt: &T,
    arguments: &[String],
    input: &mut R,
    output: &mut W,
    errors: &mut E,
) -> ExitCode
where
    T: Threads + Wait + RandomSource + AllocGlobal + Sync + Send + Copy,
    R: Read,
    W: Write,
    E: Write,
    ensures { EndsFor (asked_for (map string_bytes arguments.now)) (exit_status result)
        (R.remaining input.old) (R.remaining input.new)
        (W.contents output.old) (W.contents output.new) (E.contents errors.old) (E.contents errors.new) }
{
    match asked_by(arguments) {
        Some(way) => run_to_exit(rt, way, input, output, errors),
        None => refuse(errors),
    }
}

/// Runs the command over these streams with peers run in this way, and returns the exit status of its process.
pub fn run_to_exit<T, R, W, E>(
    rt: &T,
    way: Way,
    input: &mut R,
    output: &mut W,
    errors: &mut E,
) -> ExitCode
where
    T: Threads + Wait + RandomSource + AllocGlobal + Sync + Send + Copy,
    R: Read,
    W: Write,
    E: Write,
    ensures { EndsIn way (exit_status result)
        (R.remaining input.old) (R.remaining input.new)
        (W.contents output.old) (W.contents output.new) (E.contents errors.old) (E.contents errors.new) }
{
    match way {
        Way::OverLinks => ExitCode::from(run(rt, &NoGate, input, output, errors)),
        Way::WithoutLinks(direct) => {
            ExitCode::from(run_direct(rt.alloc(), direct, input, output, errors))
        },
    }
}

/// Reads a scenario from the input, runs it over links, and writes its report to the output after the run. Where there is no
/// report, it writes a line with the reason, or a front of that line, to `errors`. The gate is called for each round that a
/// peer begins. A refused scenario has its reason in the clauses. No clause is about the gate or about links, or says why
/// a run ends with a fault or a stream fails.
pub fn run<T, G, R, W, E>(
    rt: &T,
    gate: &G,
    input: &mut R,
    output: &mut W,
    errors: &mut E,
) -> ExitStatus
where
    T: Threads + Wait + RandomSource + AllocGlobal + Sync + Send + Copy,
    G: Gate + Sync,
    R: Read,
    W: Write,
    E: Write,
    ensures { EndsAs Limits.Standard report_text false true result (R.remaining input.old) (R.remaining input.new)
        (W.contents output.old) (W.contents output.new) (E.contents errors.old) (E.contents errors.new) }
{
    let program = Program {
        alloc: rt.alloc(),
        limits: Limits::Standard,
        progress: false,
        printer: Lines,
    };
    match program.read(input, errors) {
        Ok(plan) => {
            let ran = run_net(rt, &plan, gate);
            program.write(&plan, ran, output, errors)
        }
        Err(status) => status,
    }
}

/// Reads a scenario from the input, runs it without links, and writes its report to the output after the run. Where there is
/// no report, it writes a line with the reason, or a front of that line, to `errors`. If progress is wanted, it first
/// writes a line, or a front of it, for each of some first rounds to `errors`. After a whole run these are all rounds.
pub fn run_direct<R, W, E>(
    alloc: Global,
    direct: Direct,
    input: &mut R,
    output: &mut W,
    errors: &mut E,
) -> ExitStatus
where
    R: Read,
    W: Write,
    E: Write,
    ensures { EndsShowing direct.limits report_text false false direct.progress result
        (R.remaining input.old) (R.remaining input.new)
        (W.contents output.old) (W.contents output.new) (E.contents errors.old) (E.contents errors.new) }
{
    let program = Program {
        alloc,
        limits: direct.limits,
        progress: direct.progress,
        printer: Lines,
    };
    program.run(input, output, errors)
}
