//! Reads a whole input, reads the plan that its bytes describe, writes a whole text, and says how a program ends.
#![tactic(auto)]

ghost use Rattle.std.specs.Prelude.{◌≡◌, ◌≤◌, ◌<◌, length, IfOk, IfSome, IsErrOf, List, OnErr, OnOk, ℕ};
ghost use Rattle.std.specs.Io.KnownBytes.{Appends, Consumes, IsAtEnd};
ghost use Rattle.gs_plan.specs.Limits.{longest_input};
ghost use Rattle.gs_streams.specs.Streams.{AppendsFront};
ghost use Rattle.gs_streams.specs.declared.ReadFault.TheVariants.{NoMemory};

mod exit_status;
pub mod fakes;
mod inputs;

pub use exit_status::ExitStatus;
use gs_plan::Limits;
pub use inputs::{input_too_long, plan_from};
use std::alloc::{AllocError, Global};
use std::io::{ErrorKind, Read, Write};

/// How often an input is read before it counts as one that never ends.
pub const MOST_READS: u32 = 10_000_000;

/// Why an input was not read to its end.
#[derive(Clone, Copy, Debug, PartialEq, Eq)]
pub enum ReadFault {
    /// A read failed for another reason than an interruption, or the input had not ended after `MOST_READS` reads. Nothing else
    /// gives this fault. No clause can say so, since a reader's contract doesn't say when a read fails.
    Failed,
    /// The input is longer than it may be.
    TooLong,
    /// Memory ran out.
    NoMemory,
}

impl From<AllocError> for ReadFault {
    ghost from_gives = { λ _ fault. fault ≡ NoMemory };

    fn from(_error: AllocError) -> ReadFault {
        ReadFault::NoMemory
    }
}

/// A write failed, or took nothing.
#[derive(Clone, Copy, Debug, PartialEq, Eq)]
pub struct WriteFailed;

/// Reads an input to its end, by at most `MOST_READS` reads. An interrupted read counts as one of them and is tried again.
///
/// # Errors
/// `TooLong` if there are more bytes than the limits allow. `Failed` if a read failed or the reads ran out. `NoMemory` if memory
/// runs out. After an error the reader stands after what was read.
pub fn read_input<R: Read>(
    alloc: Global,
    limits: Limits,
    input: &mut R,
) -> Result<Vec<u8>, ReadFault>
    ensures whole { IfOk result (λ text. IfSome (R.remaining input.old) (λ given. text.items ≡ given)) }
    ensures at_end { OnOk result (IsAtEnd (R.remaining input.new)) }
    ensures short { IfOk result (λ text. length text.items ≤ longest_input limits) }
    ensures too_long { IsErrOf result ReadFault.TooLong
        → IfSome (R.remaining input.old) (λ given. longest_input limits < length given) }
    ensures front { (front : List ℕ) × Consumes (R.remaining input.old) (R.remaining input.new) front }
{
    read_within(alloc, input, limits.longest_input(), MOST_READS)
}

/// Reads an input of at most `longest` bytes to its end, by at most `most_reads` reads.
///
/// # Errors
/// As at `read_input`.
fn read_within<R: Read>(
    alloc: Global,
    input: &mut R,
    longest: usize,
    most_reads: u32,
) -> Result<Vec<u8>, ReadFault>
    ensures whole { IfOk result (λ text. IfSome (R.remaining input.old) (λ given. text.items ≡ given)) }
    ensures at_end { OnOk result (IsAtEnd (R.remaining input.new)) }
    ensures short { IfOk result (λ text. length text.items ≤ longest) }
    ensures too_long { IsErrOf result ReadFault.TooLong
        → IfSome (R.remaining input.old) (λ given. longest < length given) }
    ensures front { (front : List ℕ) × Consumes (R.remaining input.old) (R.remaining input.new) front }
{
    let mut text = Vec::new(alloc);
    let mut chunk = [0u8; 8192];
    for _ in 0..most_reads {
        match input.read(&mut chunk) {
            Ok(0) => return Ok(text),
            Ok(count) => {
                if count > longest - text.len() {
                    return Err(ReadFault::TooLong);
                }
                text.extend_from_slice(&chunk[..count])?;
            }
            Err(fault) => {
                if fault.kind() != ErrorKind::Interrupted {
                    return Err(ReadFault::Failed);
                }
            }
        }
    }
    Err(ReadFault::Failed)
}

/// Writes a whole text, by as many writes as it takes.
///
/// # Errors
/// `WriteFailed` if a write takes nothing or fails; an interrupted write counts as failed. Only a front of the text has then
/// been written.
pub fn write_text<W: Write>(output: &mut W, text: &[u8]) -> Result<(), WriteFailed>
    ensures ok { OnOk result (Appends (W.contents output.old) (W.contents output.new) text.now) }
    ensures err { OnErr result (AppendsFront (W.contents output.old) (W.contents output.new) text.now) }
{
    let mut rest = text;
    while !rest.is_empty() {
        match output.write(rest) {
            Ok(0) => return Err(WriteFailed),
            Ok(count) => rest = &rest[count..],
            Err(_) => return Err(WriteFailed),
        }
    }
    Ok(())
}

/// Writes a line, or only a front of it. It reports no failure, since there is nobody left to report it to.
pub fn try_to_write<W: Write>(output: &mut W, line: &str)
    ensures { AppendsFront (W.contents output.old) (W.contents output.new) line.now }
{
    let _ = write_text(output, line.as_bytes());
}
