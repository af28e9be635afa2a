//! The program: what it reads, what it writes and how it ends.
ghost use Rattle.std.specs.Prelude.{◌≡◌, ◌↔◌, ◌⊎◌, Err, false, List, Option, map, string_bytes, ℕ};
ghost use Rattle.gs_edit.specs.Keys.{are_edits};
ghost use Rattle.gs_edit.specs.Program.{EndsAs, EndsFor, IsChanged, IsNotChanged, IsReading};

use crate::change::changed;
use crate::edits::NoChange;
use crate::keys::are_edits;
use crate::reasons::refusal_line;
use gs_plan::Limits;
use gs_streams::{ExitStatus, ReadFault, read_input, try_to_write, write_text};
use std::alloc::Global;
use std::io::{Read, Write};

/// What is written where the arguments are no edits.
pub const USAGE: &str = "usage: gossip_edit KEY=VALUE..\n";

/// What is written when out of memory.
pub const NO_MEMORY: &str = "edit refused: no memory\n";

/// Reads a scenario from the input, sets the key of each argument to the argument's value, and writes the changed scenario
/// to the output. The changed scenario has no comments, and the keys of each table ascend. Where there is no changed
/// scenario, a line on `errors` says why. Where that line can't be written, the status stays the same. Where the arguments
/// are no edits, the input is not read.
pub fn run<R, W, E>(
    alloc: Global,
    arguments: &[String],
    input: &mut R,
    output: &mut W,
    errors: &mut E,
) -> ExitStatus
where
    R: Read,
    W: Write,
    E: Write,
    ensures misused { are_edits (map string_bytes arguments.now) ≡ false → result ≡ ExitStatus.WrongArguments }
    ensures ends { EndsAs result (map string_bytes arguments.now) (R.remaining input.old) (R.remaining input.new)
        (W.contents output.old) (W.contents output.new) (E.contents errors.old) (E.contents errors.new) }
{
    if !are_edits(arguments) {
        try_to_write(errors, USAGE);
        return ExitStatus::WrongArguments;
    }
    let reading = read_input(alloc, Limits::Large, input);
    finish(alloc, arguments, reading, output, errors)
}

/// Changes what was read, and writes it or says why there is nothing to write.
fn finish<W, E>(
    alloc: Global,
    arguments: &[String],
    reading: Result<Vec<u8>, ReadFault>,
    output: &mut W,
    errors: &mut E,
) -> ExitStatus
where
    W: Write,
    E: Write,
    ensures failed { (result ≡ ExitStatus.InputFailed) ↔ (reading ≡ Err ReadFault.Failed) }
    ensures too_long { reading ≡ Err ReadFault.TooLong
        → (result ≡ ExitStatus.Refused) ⊎ (result ≡ ExitStatus.Unfinished) }
    ensures no_memory { reading ≡ Err ReadFault.NoMemory → result ≡ ExitStatus.Unfinished }
    ensures ends { (input input' : Option (List ℕ)) → IsReading input reading
        → EndsAs result (map string_bytes arguments.now) input input'
        (W.contents output.old) (W.contents output.new) (E.contents errors.old) (E.contents errors.new) }
{
    match changed(alloc, arguments, reading) {
        Ok(text) => write_changed(text.as_str(), output, errors),
        Err(cause) => tell_cause(alloc, arguments, cause, errors),
    }
}

fn write_changed<W, E>(text: &str, output: &mut W, errors: &mut E) -> ExitStatus
where
    W: Write,
    E: Write,
    ensures end { (result ≡ ExitStatus.Done) ⊎ (result ≡ ExitStatus.OutputFailed) }
    ensures ends { (arguments : List (List ℕ)) → (input input' : Option (List ℕ))
        → IsChanged arguments input text.now
        → EndsAs result arguments input input'
        (W.contents output.old) (W.contents output.new) (E.contents errors.old) (E.contents errors.new) }
{
    if write_text(output, text.as_bytes()).is_err() {
        try_to_write(errors, "output failed\n");
        return ExitStatus::OutputFailed;
    }
    ExitStatus::Done
}

/// Says why there is no changed scenario.
fn tell_cause<E: Write>(
    alloc: Global,
    arguments: &[String],
    cause: NoChange,
    errors: &mut E,
) -> ExitStatus
    ensures end { EndsFor cause (map string_bytes arguments.now) result (E.contents errors.old) (E.contents errors.new) }
    ensures ends { (input input' output : Option (List ℕ))
        → IsNotChanged (map string_bytes arguments.now) input cause
        → EndsAs result (map string_bytes arguments.now) input input' output output
        (E.contents errors.old) (E.contents errors.new) }
{
    match cause {
        NoChange::Refused(refusal) => match refusal_line(alloc, arguments, refusal) {
            Ok(line) => {
                try_to_write(errors, line.as_str());
                ExitStatus::Refused
            }
            Err(_) => {
                try_to_write(errors, NO_MEMORY);
                ExitStatus::Unfinished
            }
        },
        NoChange::InputFailed => {
            try_to_write(errors, "input failed\n");
            ExitStatus::InputFailed
        }
        NoChange::NoMemory => {
            try_to_write(errors, NO_MEMORY);
            ExitStatus::Unfinished
        }
    }
}
