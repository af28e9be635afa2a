//! The command `picture`: it draws the run of the scenario that it reads: the meshes of a topic, and how far its messages came.
ghost use Rattle.std.specs.Prelude.{◌≡◌, IfOk, false, map, option_map, string_bytes};
ghost use Rattle.std.specs.Process.{exit_status};
ghost use Rattle.gs_figure_sheets.specs.Choices.{spelled};
ghost use Rattle.gs_program.specs.Arguments.{IsRefusedSo, wrong_arguments};
ghost use Rattle.gs_program.specs.Asked.{EndsWished};
ghost use Rattle.gs_program.specs.Options.{options_of};
ghost use Rattle.gossip_sim.specs.PictureCommand.{EndsFor, name_in, printed, topic_in, usage, wishes_for, wishes_given, wishes_of};

use bytes::Bytes;
use gs_base::{Topic, clone_of};
use gs_figure_sheets::Choice;
use gs_picture::{first_topic, picture_svg};
use gs_plan::Plan;
use gs_program::{
    LARGE, OptionRule, Options, PROGRESS, PrintFault, Printer, print_whole, program_with,
    refuse_arguments,
};
use gs_report::Report;
use std::alloc::{AllocError, Global};
use std::io::{Read, Write};
use std::process::ExitCode;

/// How the command is called.
pub const USAGE: &str =
    "usage: gossip_picture [--large] [--progress] [--of PEERS] [--topic TOPIC]\n";

/// The options that it takes.
const OPTIONS: [OptionRule; 4] = [
    LARGE,
    PROGRESS,
    OptionRule {
        name: "--of",
        has_value: true,
        most: 1,
    },
    OptionRule {
        name: "--topic",
        has_value: true,
        most: 1,
    },
];

/// The topic that is asked for.
#[derive(Clone, Copy, Debug, Drop)]
pub enum Subject<'a> {
    /// The first one that the script subscribes to.
    First,
    /// This one.
    Named(&'a str),
}

/// The picture that is asked for.
#[derive(Clone, Copy, Debug, Drop)]
pub struct Asked<'a> {
    pub topic: Subject<'a>,
    /// The peers that count, both as those that give scores and as subscribers.
    pub among: Choice<'a>,
}

/// Makes the picture of a run that is asked for.
#[derive(Clone, Copy, Debug, Drop)]
pub struct PictureOf<'a> {
    /// The topic and the peers.
    pub asked: Asked<'a>,
}

impl<'a> Printer for PictureOf<'a> {
    ghost text = { λ printer plan report. printed (wishes_of printer.asked) plan report };

    ghost in_parts = { false };

    fn print<W: Write>(
        &self,
        alloc: Global,
        plan: &Plan,
        report: &Report,
        output: &mut W,
    ) -> Result<(), PrintFault> {
        print_whole(printed(alloc, self.asked, plan, report), output)
    }
}

/// The picture of a run, for the topic and the peers that are asked for.
fn printed(
    alloc: Global,
    asked: Asked<'_>,
    plan: &Plan,
    report: &Report,
) -> Result<Vec<u8>, AllocError>
    ensures { IfOk result (λ text. text.items ≡ printed (wishes_of asked.entry) plan.now report.now) }
{
    let topic = topic_in(alloc, plan, asked.topic)?;
    picture_svg(alloc, plan, report, &topic, asked.among)
}

/// The topic that is asked for. Where the script subscribes to no topic, the first topic is the empty one.
fn topic_in(alloc: Global, plan: &Plan, asked: Subject<'_>) -> Result<Topic, AllocError>
    ensures { IfOk result (λ topic. topic ≡ topic_in plan.now (name_in asked.entry)) }
{
    match asked {
        Subject::Named(name) => Ok(Topic(Bytes::copy_from_slice(alloc, name.as_bytes())?)),
        Subject::First => match first_topic(plan.script.as_slice()) {
            Some(topic) => clone_of(topic),
            None => Ok(Topic(Bytes::new())),
        },
    }
}

/// Which picture these options ask for: that of the first topic, by all peers, where there are none.
fn asked_by<'a>(options: &Options<'a>) -> Asked<'a>
    ensures { wishes_of result ≡ wishes_given (options_of options.now) }
{
    Asked {
        topic: subject_of(options.value("--topic")),
        among: choice_of(options.value("--of")),
    }
}

fn subject_of(value: Option<&str>) -> Subject<'_>
    ensures { name_in result ≡ option_map (λ text. text.now) value.entry }
{
    match value {
        None => Subject::First,
        Some(name) => Subject::Named(name),
    }
}

/// The peers that the value of an option names. Without the option, they are all peers.
pub(crate) fn choice_of(value: Option<&str>) -> Choice<'_>
    ensures { spelled result ≡ option_map (λ text. text.now) value.entry }
{
    match value {
        None => Choice::Any,
        Some(names) => Choice::Named(names),
    }
}

/// Runs the command with these arguments over these streams, and returns the exit status of its process.
/// Where the arguments ask for a picture, it ends as a run without links does, and its text is that picture.
/// Otherwise it reads no input, writes the usage or a front of it to `errors`, and ends with 64.
pub fn run<R, W, E>(
    alloc: Global,
    arguments: &[String],
    input: &mut R,
    output: &mut W,
    errors: &mut E,
) -> ExitCode
where
    R: Read,
    W: Write,
    E: Write,
    ensures { EndsFor (map string_bytes arguments.now) (exit_status result)
        (R.remaining input.old) (R.remaining input.new)
        (W.contents output.old) (W.contents output.new) (E.contents errors.old) (E.contents errors.new) }
{
    match Options::of(&OPTIONS, arguments) {
        Some(options) => run_with(alloc, &options, input, output, errors),
        None => refuse(errors),
    }
}

/// Runs the command with these options.
fn run_with<R, W, E>(
    alloc: Global,
    options: &Options<'_>,
    input: &mut R,
    output: &mut W,
    errors: &mut E,
) -> ExitCode
where
    R: Read,
    W: Write,
    E: Write,
    ensures { EndsWished usage printed false (options_of options.now) (wishes_for (options_of options.now))
        (exit_status result) (R.remaining input.old) (R.remaining input.new)
        (W.contents output.old) (W.contents output.new) (E.contents errors.old) (E.contents errors.new) }
{
    let asked = asked_by(options);
    program_with(alloc, options, PictureOf { asked }).run_to_exit(input, output, errors)
}

/// Writes the usage, or a front of it, to `errors`, and returns the status for wrong arguments.
#[tactic(auto, unfolding(crate::specs::PictureCommand::usage))]
fn refuse<E: Write>(errors: &mut E) -> ExitCode
    ensures { IsRefusedSo usage wrong_arguments (exit_status result) (E.contents errors.old) (E.contents errors.new) }
{
    refuse_arguments(errors, USAGE)
}
