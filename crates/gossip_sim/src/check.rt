//! The command `check`: it says in words what is wrong with the scenario that it reads, or that it is fine and what it plans.
ghost use Rattle.std.specs.Prelude.{map, string_bytes};
ghost use Rattle.std.specs.Process.{exit_status};
ghost use Rattle.gossip_sim.specs.CheckCommand.{EndsFor};

use gs_program::{LARGE, OptionRule, Options, limits_of, refuse_arguments};
use std::alloc::Global;
use std::io::{Read, Write};
use std::process::ExitCode;

/// How the command is called.
pub const USAGE: &str = "usage: gossip_check [--large]\n";

/// The options that it takes.
const OPTIONS: [OptionRule; 1] = [LARGE];

/// Runs the command with these arguments over these streams, and returns the exit status of its process. With arguments that it
/// does not take, it reads no input, writes the usage or a front of it to `errors`, and ends with 64.
pub fn run<R, W, E>(
    alloc: Global,
    arguments: &[String],
    input: &mut R,
    output: &mut W,
    errors: &mut E,
) -> ExitCode
where
    R: Read,
    W: Write,
    E: Write,
    ensures { EndsFor (map string_bytes arguments.now) (exit_status result)
        (R.remaining input.old) (R.remaining input.new)
        (W.contents output.old) (W.contents output.new) (E.contents errors.old) (E.contents errors.new) }
{
    match Options::of(&OPTIONS, arguments) {
        Some(options) => {
            let limits = limits_of(&options);
            ExitCode::from(gs_check::run(alloc, limits, input, output, errors))
        }
        None => refuse_arguments(errors, USAGE),
    }
}
