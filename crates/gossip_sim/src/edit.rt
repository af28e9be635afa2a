//! The command `edit`: it sets keys of the scenario that it reads, and writes the changed scenario.
ghost use Rattle.std.specs.Prelude.{map, string_bytes};
ghost use Rattle.std.specs.Process.{exit_status};
ghost use Rattle.gossip_sim.specs.EditCommand.{EndsFor};

use std::alloc::Global;
use std::io::{Read, Write};
use std::process::ExitCode;

/// Runs the command with these arguments over these streams, and returns the exit status of its process. With arguments that
/// are no edits, it reads no input and ends with 64.
pub fn run<R, W, E>(
    alloc: Global,
    arguments: &[String],
    input: &mut R,
    output: &mut W,
    errors: &mut E,
) -> ExitCode
where
    R: Read,
    W: Write,
    E: Write,
    ensures { EndsFor (map string_bytes arguments.now) (exit_status result)
        (R.remaining input.old) (R.remaining input.new)
        (W.contents output.old) (W.contents output.new) (E.contents errors.old) (E.contents errors.new) }
{
    ExitCode::from(gs_edit::run(alloc, arguments, input, output, errors))
}
