//! A program that makes its text while a run goes on.
ghost use Rattle.std.specs.Io.KnownBytes.{IsAtEnd};
ghost use Rattle.std.specs.Prelude.{◌≡◌, false, true, IfErr, IfOk, is_ok, List, OnErr, OnOk, Option, ℕ};
ghost use Rattle.std.specs.Process.{exit_status};
ghost use Rattle.gs_plan.specs.Plans.{IsInRange};
ghost use Rattle.gs_plan.specs.declared.plan.Plan.{Plan as PlanValue};
ghost use Rattle.gs_report.specs.declared.report.Report.{Report as ReportValue};
ghost use Rattle.gs_seats.specs.Reports.{IsReport};
ghost use Rattle.gs_streams.specs.Inputs.{IsScenario};
ghost use Rattle.gs_direct.specs.Stages.{HasShownAll, HasShownFirst};
ghost use Rattle.gs_program.specs.Program.{EndsAs};
ghost use Rattle.gs_program.specs.Progress.{EndsShowing, ExitsShowing, HasProgress, has_begun};
ghost use Rattle.gs_program.specs.Summaries.{IsSummary};

use crate::progress::Progress;
use crate::reading::plan_after;
use crate::telling::tell_fault;
use gs_direct::Gauge;
use gs_plan::{Limits, Plan};
use gs_seats::NetFault;
use gs_streams::{ExitStatus, read_input, try_to_write, write_text};
use std::alloc::{AllocError, Global};
use std::io::{Read, Write};
use std::process::ExitCode;

/// A type that runs a plan, and makes a text about the report of the run. It needs no report for that.
pub trait Summarizer: Drop {
    // The text for the report of a plan's run.
    ghost text: { Self → PlanValue → ReportValue → List ℕ };

    /// Runs a plan in range on this thread without links, and makes the text about its report. A gauge shows how far the run
    /// is, at the end of each round.
    ///
    /// # Errors
    /// `AllocError` when out of memory. The gauge has shown some first rounds by then.
    fn summarize<G: Gauge>(
        &self,
        alloc: Global,
        plan: &Plan,
        gauge: &mut G,
    ) -> Result<Vec<u8>, AllocError>
        requires { IsInRange plan.now }
        ensures text { IfOk result (λ bytes. IsSummary (text self.now) plan.now bytes.items) }
        ensures shown { IfOk result (λ bytes. (report : ReportValue)
            × IsReport plan.now report × HasShownAll G.has_shown gauge.old gauge.new plan.now report) }
        ensures stopped { OnErr result (HasShownFirst G.has_shown gauge.old gauge.new plan.now) };
}

/// A program that runs a scenario, and writes a text about the run that was made meanwhile.
#[derive(Drop)]
pub struct SummaryProgram<S> {
    /// What its memory comes from.
    pub alloc: Global,
    /// How large a scenario may be.
    pub limits: Limits,
    /// Whether `errors` gets a line at the end of each round.
    pub progress: bool,
    /// Makes the text.
    pub summarizer: S,
}

impl<S: Summarizer> SummaryProgram<S> {
    /// Reads a scenario from the input, runs it on this thread without links, and then writes a text about its report to the
    /// output. Where there is no text, a line on `errors`, or a front of it, says why. If progress is wanted, it
    /// first writes a line, or a front of it, for each of some first rounds to `errors`. After a whole run these are
    /// all rounds.
    pub fn run<R, W, E>(&self, input: &mut R, output: &mut W, errors: &mut E) -> ExitStatus
    where
        R: Read,
        W: Write,
        E: Write,
        ensures { EndsShowing self.now.limits (S.text self.now.summarizer) false false self.now.progress result
            (R.remaining input.old) (R.remaining input.new)
            (W.contents output.old) (W.contents output.new) (E.contents errors.old) (E.contents errors.new) }
    {
        match self.read(input, errors) {
            Ok(plan) => self.write(&plan, output, errors),
            Err(status) => status,
        }
    }

    /// Runs the program over these streams, and returns the status with which its process ends.
    pub fn run_to_exit<R, W, E>(&self, input: &mut R, output: &mut W, errors: &mut E) -> ExitCode
    where
        R: Read,
        W: Write,
        E: Write,
        ensures { ExitsShowing self.now.limits (S.text self.now.summarizer) false false self.now.progress
            (exit_status result)
            (R.remaining input.old) (R.remaining input.new)
            (W.contents output.old) (W.contents output.new) (E.contents errors.old) (E.contents errors.new) }
    {
        ExitCode::from(self.run(input, output, errors))
    }

    /// Reads a scenario from the input. Where there is none to run, `errors` has a line that says why, or a front of it.
    fn read<R, E>(&self, input: &mut R, errors: &mut E) -> Result<Plan, ExitStatus>
    where
        R: Read,
        E: Write,
        ensures found { IfOk result (λ plan. IsScenario self.now.limits (R.remaining input.old) plan) }
        ensures at_end { OnOk result (IsAtEnd (R.remaining input.new)) }
        ensures in_range { IfOk result (λ plan. IsInRange plan) }
        ensures silent { OnOk result (E.contents errors.new ≡ E.contents errors.old) }
        ensures refused { IfErr result (λ status. (output : Option (List ℕ))
            → EndsAs self.now.limits (S.text self.now.summarizer) false false status
            (R.remaining input.old) (R.remaining input.new)
            output output (E.contents errors.old) (E.contents errors.new)) }
        ensures unread { IfErr result (λ status. has_begun status ≡ false) }
    {
        let reading = read_input(self.alloc, self.limits, input);
        plan_after(self.alloc, self.limits, reading, errors)
    }

    /// Runs a plan, and writes the text about its report.
    fn write<W: Write, E: Write>(&self, plan: &Plan, output: &mut W, errors: &mut E) -> ExitStatus
        requires { IsInRange plan.now }
        ensures begun { has_begun result ≡ true }
        ensures ends { (input input' : Option (List ℕ)) → IsScenario self.now.limits input plan.now → IsAtEnd input'
            → EndsShowing self.now.limits (S.text self.now.summarizer) false false self.now.progress result input input'
            (W.contents output.old) (W.contents output.new) (E.contents errors.old) (E.contents errors.new) }
    {
        match self.summarize(plan, errors) {
            Ok(text) => self.write_summary(plan, &text, output, errors),
            Err(_) => {
                tell_fault(self.alloc, errors, plan, NetFault::NoMemory(None));
                ExitStatus::Unfinished
            }
        }
    }

    /// Runs a plan, and makes the text about its report. If progress is wanted, `errors` gets a line at the end of each round.
    fn summarize<E: Write>(&self, plan: &Plan, errors: &mut E) -> Result<Vec<u8>, AllocError>
        requires { IsInRange plan.now }
        ensures text { IfOk result (λ bytes. IsSummary (S.text self.now.summarizer) plan.now bytes.items) }
        ensures progress { HasProgress self.now.progress plan.now (is_ok result)
            (E.contents errors.old) (E.contents errors.new) }
    {
        let mut progress = Progress {
            errors,
            alloc: self.alloc,
            wanted: self.progress,
            rounds: plan.rounds,
        };
        self.summarizer.summarize(self.alloc, plan, &mut progress)
    }

    /// Writes the text about the report of a plan's run.
    fn write_summary<W: Write, E: Write>(
        &self,
        plan: &Plan,
        text: &[u8],
        output: &mut W,
        errors: &mut E,
    ) -> ExitStatus
        requires { IsSummary (S.text self.now.summarizer) plan.now text.now }
        ensures begun { has_begun result ≡ true }
        ensures ends { (input input' : Option (List ℕ)) → IsScenario self.now.limits input plan.now → IsAtEnd input'
            → EndsAs self.now.limits (S.text self.now.summarizer) false false result input input'
            (W.contents output.old) (W.contents output.new) (E.contents errors.old) (E.contents errors.new) }
    {
        match write_text(output, text) {
            Ok(()) => ExitStatus::Done,
            Err(_) => {
                try_to_write(errors, "output failed\n");
                ExitStatus::OutputFailed
            }
        }
    }
}
