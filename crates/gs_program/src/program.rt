//! A program's run: what it reads, what it writes and how it ends.
ghost use Rattle.std.specs.Io.KnownBytes.{IsAtEnd};
ghost use Rattle.std.specs.Prelude.{◌≡◌, Bool, false, true, IfErr, IfOk, is_ok, List, OnOk, Option, ℕ};
ghost use Rattle.std.specs.Process.{exit_status};
ghost use Rattle.gs_plan.specs.Plans.{IsInRange};
ghost use Rattle.gs_seats.specs.Faults.{number_of};
ghost use Rattle.gs_seats.specs.Reports.{IsReport};
ghost use Rattle.gs_streams.specs.Inputs.{IsScenario};
ghost use Rattle.gs_report.specs.declared.report.Report.{Report as ReportValue};
ghost use Rattle.gs_program.specs.Endings.{EndsPrinted, EndsUnprinted};
ghost use Rattle.gs_program.specs.Printing.{Prints, StopsPrinting};
ghost use Rattle.gs_program.specs.Program.{EndsAs, MayMeet, TellsFault};
ghost use Rattle.gs_program.specs.Progress.{EndsShowing, ExitsShowing, HasProgress, has_begun};

use crate::printer::{PrintFault, Printer};
use crate::progress::Progress;
use crate::reading::plan_after;
use crate::telling::tell_fault;
use gs_direct::run_direct;
use gs_plan::{Limits, Plan};
use gs_report::Report;
use gs_seats::NetFault;
use gs_streams::{ExitStatus, read_input, try_to_write};
use std::alloc::Global;
use std::io::{Read, Write};
use std::mem;
use std::process::ExitCode;

/// A program that runs a scenario, and writes a text about the run.
#[derive(Drop)]
pub struct Program<P> {
    /// What its memory comes from.
    pub alloc: Global,
    /// How large a scenario may be.
    pub limits: Limits,
    /// Whether `errors` gets a line at the end of each round of a run without links.
    pub progress: bool,
    /// Makes the text.
    pub printer: P,
}

impl<P: Printer> Program<P> {
    /// Reads a scenario from the input, runs it on this thread without links, and then writes a text about its report to the
    /// output. Where there is no text, a line on `errors`, or a front of it, says why. If progress is wanted, it
    /// first writes a line, or a front of it, for each of some first rounds to `errors`. After a whole run these are
    /// all rounds.
    pub fn run<R, W, E>(&self, input: &mut R, output: &mut W, errors: &mut E) -> ExitStatus
    where
        R: Read,
        W: Write,
        E: Write,
        ensures { EndsShowing self.now.limits (P.text self.now.printer) P.in_parts false self.now.progress result
            (R.remaining input.old) (R.remaining input.new)
            (W.contents output.old) (W.contents output.new) (E.contents errors.old) (E.contents errors.new) }
    {
        match self.read(input, errors) {
            Ok(plan) => {
                let ran = self.ran(&plan, errors);
                self.write(&plan, ran, output, errors)
            }
            Err(status) => status,
        }
    }

    /// Runs the program over these streams, and returns the status with which its process ends.
    pub fn run_to_exit<R, W, E>(&self, input: &mut R, output: &mut W, errors: &mut E) -> ExitCode
    where
        R: Read,
        W: Write,
        E: Write,
        ensures { ExitsShowing self.now.limits (P.text self.now.printer) P.in_parts false self.now.progress
            (exit_status result)
            (R.remaining input.old) (R.remaining input.new)
            (W.contents output.old) (W.contents output.new) (E.contents errors.old) (E.contents errors.new) }
    {
        ExitCode::from(self.run(input, output, errors))
    }

    /// Reads a scenario from the input. Where there is none to run, `errors` has a line that says why, or a front of it.
    ///
    /// # Errors
    /// How the program ends in that case.
    pub fn read<R, E>(&self, input: &mut R, errors: &mut E) -> Result<Plan, ExitStatus>
    where
        R: Read,
        E: Write,
        ensures found { IfOk result (λ plan. IsScenario self.now.limits (R.remaining input.old) plan) }
        ensures at_end { OnOk result (IsAtEnd (R.remaining input.new)) }
        ensures in_range { IfOk result (λ plan. IsInRange plan) }
        ensures silent { OnOk result (E.contents errors.new ≡ E.contents errors.old) }
        ensures refused { IfErr result (λ status. (needs : Bool) (output : Option (List ℕ))
            → EndsAs self.now.limits (P.text self.now.printer) P.in_parts needs status
            (R.remaining input.old) (R.remaining input.new)
            output output (E.contents errors.old) (E.contents errors.new)) }
        ensures unread { IfErr result (λ status. has_begun status ≡ false) }
    {
        let reading = read_input(self.alloc, self.limits, input);
        plan_after(self.alloc, self.limits, reading, errors)
    }

    /// Runs a plan on this thread without links. If progress is wanted, `errors` gets a line at the end of each round.
    fn ran<E: Write>(&self, plan: &Plan, errors: &mut E) -> Result<Report, NetFault>
        requires { IsInRange plan.now }
        ensures report { IfOk result (IsReport plan.now) }
        ensures memory { IfErr result (λ fault. number_of fault ≡ 24) }
        ensures progress { HasProgress self.now.progress plan.now (is_ok result)
            (E.contents errors.old) (E.contents errors.new) }
    {
        let mut progress = Progress {
            errors,
            alloc: self.alloc,
            wanted: self.progress,
            rounds: plan.rounds,
        };
        run_direct(self.alloc, plan, &mut progress)
    }

    /// Writes a text about the report of a run of this plan, which is in range, to the output. Where the run left no report,
    /// or memory ran out for the text, `errors` has a line that says why, or a front of it.
    pub fn write<W, E>(
        &self,
        plan: &Plan,
        ran: Result<Report, NetFault>,
        output: &mut W,
        errors: &mut E,
    ) -> ExitStatus
    where
        W: Write,
        E: Write,
        requires in_range { IsInRange plan.now }
        requires report { IfOk ran (IsReport plan.now) }
        ensures fault { IfErr ran (λ fault. (result ≡ ExitStatus.Unfinished)
            × TellsFault plan.now fault (E.contents errors.old) (E.contents errors.new)) }
        ensures begun { has_begun result ≡ true }
        ensures ends { (needs : Bool) → IfErr ran (MayMeet needs)
            → (input input' : Option (List ℕ)) → IsScenario self.now.limits input plan.now → IsAtEnd input'
            → EndsAs self.now.limits (P.text self.now.printer) P.in_parts needs result input input'
            (W.contents output.old) (W.contents output.new) (E.contents errors.old) (E.contents errors.new) }
    {
        match ran {
            Ok(report) => {
                let printed = self.printer.print(self.alloc, plan, &report, output);
                // The program ends after its text, and then its memory is given back as a whole. Dropping the traces first,
                // entry by entry, would take a tenth of a run.
                mem::forget(report);
                self.tell_end(plan, printed, errors)
            }
            Err(fault) => {
                tell_fault(self.alloc, errors, plan, fault);
                ExitStatus::Unfinished
            }
        }
    }

    /// Writes to `errors` why the text was not printed, unless it was, and returns how the program ends.
    fn tell_end<E: Write>(
        &self,
        plan: &Plan,
        printed: Result<(), PrintFault>,
        errors: &mut E,
    ) -> ExitStatus
        ensures end { EndsPrinted plan.now printed result (E.contents errors.old) (E.contents errors.new) }
        ensures begun { has_begun result ≡ true }
        ensures ends { (needs : Bool) (report : ReportValue) → IsReport plan.now report
            → (output output' : Option (List ℕ))
            → Prints P.in_parts (P.text self.now.printer plan.now report) output output' printed
            → (input input' : Option (List ℕ)) → IsScenario self.now.limits input plan.now → IsAtEnd input'
            → EndsAs self.now.limits (P.text self.now.printer) P.in_parts needs result input input' output output'
            (E.contents errors.old) (E.contents errors.new) }
    {
        match printed {
            Ok(()) => ExitStatus::Done,
            Err(fault) => self.tell_unprinted(plan, fault, errors),
        }
    }

    /// Writes to `errors` why the text was not printed to its end.
    fn tell_unprinted<E: Write>(&self, plan: &Plan, fault: PrintFault, errors: &mut E) -> ExitStatus
        ensures end { EndsUnprinted plan.now fault result (E.contents errors.old) (E.contents errors.new) }
        ensures begun { has_begun result ≡ true }
        ensures ends { (needs : Bool) (report : ReportValue) → IsReport plan.now report
            → (output output' : Option (List ℕ))
            → StopsPrinting P.in_parts (P.text self.now.printer plan.now report) output output' fault
            → (input input' : Option (List ℕ)) → IsScenario self.now.limits input plan.now
            → EndsAs self.now.limits (P.text self.now.printer) P.in_parts needs result input input' output output'
            (E.contents errors.old) (E.contents errors.new) }
    {
        match fault {
            PrintFault::NoMemory => {
                tell_fault(self.alloc, errors, plan, NetFault::NoMemory(None));
                ExitStatus::Unfinished
            }
            PrintFault::CutOff => {
                try_to_write(errors, "run refused: 24\n");
                ExitStatus::CutOff
            }
            PrintFault::WriteFailed => {
                try_to_write(errors, "output failed\n");
                ExitStatus::OutputFailed
            }
        }
    }
}
