//! What makes a text from a run's report.
ghost use Rattle.std.specs.Prelude.{Bool, IfErr, IfOk, IsErrOf, List, ℕ, ◌≡◌, false};
ghost use Rattle.gs_plan.specs.declared.plan.Plan.{Plan as PlanValue};
ghost use Rattle.gs_report.specs.declared.report.Report.{Report as ReportValue};
ghost use Rattle.gs_plan.specs.Plans.{IsInRange};
ghost use Rattle.gs_seats.specs.Reports.{IsReport};
ghost use Rattle.gs_program.specs.Printing.{Prints};

use gs_plan::Plan;
use gs_report::Report;
use gs_streams::write_text;
use std::alloc::{AllocError, Global};
use std::io::Write;

/// A type that makes a text from a run's report.
pub trait Printer: Drop {
    // The text for the report of a plan's run.
    ghost text: { Self → PlanValue → ReportValue → List ℕ };

    // Whether the printer writes a part of its text before it has made the rest.
    ghost in_parts: { Bool };

    /// Makes the text for the report of a plan in range, and writes it to the output.
    ///
    /// # Errors
    /// An error if the text was not written to its end. Each error says what the output has then.
    fn print<W: Write>(
        &self,
        alloc: Global,
        plan: &Plan,
        report: &Report,
        output: &mut W,
    ) -> Result<(), PrintFault>
        requires in_range { IsInRange plan.now }
        requires report { IsReport plan.now report.now }
        ensures { Prints in_parts (text self.now plan.now report.now)
            (W.contents output.old) (W.contents output.new) result };
}

/// Why a text was not written to its end.
#[derive(Clone, Copy, Debug, PartialEq, Eq)]
pub enum PrintFault {
    /// Out of memory for the text. None of it was written.
    NoMemory,
    /// Out of memory for the rest of the text. A front of it was written.
    CutOff,
    /// A write failed, or took no bytes. A front of the text was written.
    WriteFailed,
}

/// Writes a text that was made as a whole, unless memory ran out for it.
///
/// # Errors
/// `NoMemory` when out of memory for the text. `WriteFailed` if a write failed, or took no bytes.
pub fn print_whole<W: Write>(
    made: Result<Vec<u8>, AllocError>,
    output: &mut W,
) -> Result<(), PrintFault>
    ensures made { (text : List ℕ) → IfOk made (λ bytes. bytes.items ≡ text)
        → Prints false text (W.contents output.old) (W.contents output.new) result }
    ensures unmade { IfErr made (λ fault. IsErrOf result PrintFault.NoMemory) }
{
    match made {
        Ok(text) => write_made(&text, output),
        Err(_) => Err(PrintFault::NoMemory),
    }
}

/// Writes a text that was made as a whole.
fn write_made<W: Write>(text: &[u8], output: &mut W) -> Result<(), PrintFault>
    ensures { Prints false text.now (W.contents output.old) (W.contents output.new) result }
{
    match write_text(output, text) {
        Ok(()) => Ok(()),
        Err(_) => Err(PrintFault::WriteFailed),
    }
}
