//! The program: what it reads, what it writes and how it ends.
ghost use Rattle.std.specs.Prelude.{◌≡◌, ◌≤◌, ◌↔◌, ◌⊎◌, Err, IfOk, List, Option, ℕ, length};
ghost use Rattle.gs_plan.specs.Limits.{longest_input};
ghost use Rattle.gs_plan.specs.declared.limits.Limits.{Limits as LimitsValue};
ghost use Rattle.gs_check.specs.Program.{Answers, EndsAs, end_of};
ghost use Rattle.gs_check.specs.Readings.{EndsFor as EndsAfter, IsReading};

use crate::answer::{Answer, NO_MEMORY_ANSWER, NoAnswer, Verdict, answer_after};
use gs_plan::Limits;
use gs_streams::{ExitStatus, ReadFault, read_input, try_to_write, write_text};
use std::alloc::Global;
use std::io::{Read, Write};

/// Reads a scenario within these limits from the input, and writes the answer about it to the output. Where the input or the
/// output fails, it writes a line about that to `errors`. Where that line can't be written, the status stays the same.
pub fn run<R, W, E>(
    alloc: Global,
    limits: Limits,
    input: &mut R,
    output: &mut W,
    errors: &mut E,
) -> ExitStatus
where
    R: Read,
    W: Write,
    E: Write,
    ensures { EndsAs limits result (R.remaining input.old)
        (W.contents output.old) (W.contents output.new) (E.contents errors.old) (E.contents errors.new) }
{
    let reading = read_input(alloc, limits, input);
    finish(alloc, limits, reading, output, errors)
}

/// Writes the answer to what was read, or says why there is no answer.
fn finish<W, E>(
    alloc: Global,
    limits: Limits,
    reading: Result<Vec<u8>, ReadFault>,
    output: &mut W,
    errors: &mut E,
) -> ExitStatus
where
    W: Write,
    E: Write,
    requires short { IfOk reading (λ bytes. length bytes.items ≤ longest_input limits) }
    ensures failed { (result ≡ ExitStatus.InputFailed) ↔ (reading ≡ Err ReadFault.Failed) }
    ensures no_memory { reading ≡ Err ReadFault.NoMemory
        → (result ≡ ExitStatus.Unfinished) ⊎ (result ≡ ExitStatus.OutputFailed) }
    ensures ends { (input : Option (List ℕ)) → IsReading limits input reading → EndsAs limits result input
        (W.contents output.old) (W.contents output.new) (E.contents errors.old) (E.contents errors.new) }
{
    tell(answer_after(alloc, limits, reading), output, errors)
}

fn tell<W, E>(made: Result<Answer, NoAnswer>, output: &mut W, errors: &mut E) -> ExitStatus
where
    W: Write,
    E: Write,
    ensures end { EndsAfter made result }
    ensures ends { (limits : LimitsValue) (input : Option (List ℕ))
        → IfOk made (λ answer. Answers limits answer.verdict input answer.text.items) → EndsAs limits result input
        (W.contents output.old) (W.contents output.new) (E.contents errors.old) (E.contents errors.new) }
{
    match made {
        Ok(Answer { verdict, text }) => tell_answer(verdict, &text, output, errors),
        Err(NoAnswer::NoMemory) => {
            tell_answer(
                Verdict::NoMemory,
                NO_MEMORY_ANSWER.as_bytes(),
                output,
                errors,
            )
        }
        Err(NoAnswer::InputFailed) => {
            try_to_write(errors, "input failed\n");
            ExitStatus::InputFailed
        }
    }
}

fn tell_answer<W, E>(verdict: Verdict, answer: &[u8], output: &mut W, errors: &mut E) -> ExitStatus
where
    W: Write,
    E: Write,
    ensures end { (result ≡ end_of verdict) ⊎ (result ≡ ExitStatus.OutputFailed) }
    ensures ends { (limits : LimitsValue) (input : Option (List ℕ)) → Answers limits verdict input answer.now
        → EndsAs limits result input
        (W.contents output.old) (W.contents output.new) (E.contents errors.old) (E.contents errors.new) }
{
    if write_text(output, answer).is_err() {
        try_to_write(errors, "output failed\n");
        return ExitStatus::OutputFailed;
    }
    match verdict {
        Verdict::Accepted => ExitStatus::Done,
        Verdict::Refused => ExitStatus::Refused,
        Verdict::NoMemory => ExitStatus::Unfinished,
    }
}
