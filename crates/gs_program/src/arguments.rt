//! The arguments of a program.
ghost use Rattle.std.specs.Prelude.{◌≡◌, ◌≢◌};
ghost use Rattle.std.specs.Process.{exit_status};
ghost use Rattle.gs_program.specs.Arguments.{IsRefusedSo, no_memory, refused, wrong_arguments};

use gs_streams::{ExitStatus, try_to_write};
use std::alloc::AllocGlobal;
use std::env::{self, Env};
use std::io::{self, ErrorKind, Write};
use std::process::ExitCode;

/// Returns the arguments after the program's name. No clause says which they are, since the contracts of the standard
/// library don't.
///
/// # Errors
/// An error if an argument is not UTF-8, and `OutOfMemory` when out of memory for them.
pub fn arguments_of<T: Env + AllocGlobal>(rt: &T) -> io::Result<Vec<String>> {
    let mut arguments = Vec::new(rt.alloc());
    for argument in env::args(rt)?.skip(1) {
        arguments.push(argument)?;
    }
    Ok(arguments)
}

/// Writes how a program is called, or a front of that, and returns the status for wrong arguments.
pub fn refuse_arguments<E: Write>(errors: &mut E, usage: &str) -> ExitCode
    ensures { IsRefusedSo usage.now wrong_arguments (exit_status result) (E.contents errors.old) (E.contents errors.new) }
{
    try_to_write(errors, usage);
    ExitCode::from(ExitStatus::WrongArguments)
}

/// Refuses arguments that could not be read. Where memory ran out for them, it writes that, or a front of it, and returns
/// the status of a refused run. Where one is not UTF-8, it writes how the program is called, or a front of that, and
/// returns the status for wrong arguments.
pub fn refuse_unread<E: Write>(cause: ErrorKind, errors: &mut E, usage: &str) -> ExitCode
    ensures memory { cause ≡ ErrorKind.OutOfMemory
        → IsRefusedSo no_memory refused (exit_status result) (E.contents errors.old) (E.contents errors.new) }
    ensures text { cause ≢ ErrorKind.OutOfMemory
        → IsRefusedSo usage.now wrong_arguments (exit_status result) (E.contents errors.old) (E.contents errors.new) }
{
    if cause == ErrorKind::OutOfMemory {
        try_to_write(errors, "run refused: 24\n");
        return ExitCode::from(ExitStatus::Unfinished);
    }
    refuse_arguments(errors, usage)
}
