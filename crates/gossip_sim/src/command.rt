//! The commands of the program, each named by the first argument.
ghost use Rattle.std.specs.Prelude.{◌≡◌, map, string_bytes};
ghost use Rattle.std.specs.Process.{exit_status};
ghost use Rattle.gossip_sim.specs.Commands.{EndsBy, EndsFor, call_in, command_named};

use crate::{check, edit, picture, report, scores, stats, trace};
use std::alloc::AllocGlobal;
use std::io::{Read, Write};
use std::process::ExitCode;
use std::random::RandomSource;
use std::sync::Wait;
use std::thread::Threads;

/// What the program does.
#[derive(Clone, Copy, Debug, PartialEq, Eq)]
pub enum Command {
    /// It reports what each peer delivered, with meshes and scores at the end.
    Report,
    /// It prints figures of a run.
    Stats,
    /// It prints each peer's trace.
    Trace,
    /// It prints scores over time.
    Scores,
    /// It draws a run.
    Picture,
    /// It says what is wrong with a scenario.
    Check,
    /// It sets keys of a scenario.
    Edit,
}

/// A command, and its own arguments.
#[derive(Clone, Copy, Debug)]
pub struct Call<'a> {
    pub command: Command,
    pub arguments: &'a [String],
}

/// Returns the command that the first argument names, with the others. Where it names none, the report is wanted.
pub fn call_in(arguments: &[String]) -> Call<'_>
    ensures command { result.command ≡ (call_in (map string_bytes arguments.now)).command }
    ensures arguments { map string_bytes result.arguments.now ≡ (call_in (map string_bytes arguments.now)).arguments }
{
    match arguments {
        [] => Call {
            command: Command::Report,
            arguments,
        },
        [first, more @ ..] => match command_named(first) {
            None => Call {
                command: Command::Report,
                arguments,
            },
            Some(command) => Call {
                command,
                arguments: more,
            },
        },
    }
}

fn command_named(word: &str) -> Option<Command>
    ensures { result ≡ command_named word.now }
{
    if word == "stats" {
        return Some(Command::Stats);
    }
    if word == "trace" {
        return Some(Command::Trace);
    }
    if word == "scores" {
        return Some(Command::Scores);
    }
    if word == "picture" {
        return Some(Command::Picture);
    }
    if word == "check" {
        return Some(Command::Check);
    }
    if word == "edit" {
        return Some(Command::Edit);
    }
    None
}

/// Runs the command that the arguments name over these streams, and returns the exit status of the process.
pub fn run_for<T, R, W, E>(
    rt: &T,
    arguments: &[String],
    input: &mut R,
    output: &mut W,
    errors: &mut E,
) -> ExitCode
where
    T: Threads + Wait + RandomSource + AllocGlobal + Sync + Send + Copy,
    R: Read,
    W: Write,
    E: Write,
    ensures { EndsFor (call_in (map string_bytes arguments.now)) (exit_status result)
        (R.remaining input.old) (R.remaining input.new)
        (W.contents output.old) (W.contents output.new) (E.contents errors.old) (E.contents errors.new) }
{
    run(rt, call_in(arguments), input, output, errors)
}

fn run<T, R, W, E>(
    rt: &T,
    call: Call<'_>,
    input: &mut R,
    output: &mut W,
    errors: &mut E,
) -> ExitCode
where
    T: Threads + Wait + RandomSource + AllocGlobal + Sync + Send + Copy,
    R: Read,
    W: Write,
    E: Write,
    ensures { EndsBy call.entry.command (map string_bytes call.entry.arguments.now) (exit_status result)
        (R.remaining input.old) (R.remaining input.new)
        (W.contents output.old) (W.contents output.new) (E.contents errors.old) (E.contents errors.new) }
{
    let arguments = call.arguments;
    match call.command {
        Command::Report => report::run_for(rt, arguments, input, output, errors),
        Command::Stats => stats::run(rt.alloc(), arguments, input, output, errors),
        Command::Trace => trace::run(rt.alloc(), arguments, input, output, errors),
        Command::Scores => scores::run(rt.alloc(), arguments, input, output, errors),
        Command::Picture => picture::run(rt.alloc(), arguments, input, output, errors),
        Command::Check => check::run(rt.alloc(), arguments, input, output, errors),
        Command::Edit => edit::run(rt.alloc(), arguments, input, output, errors),
    }
}
