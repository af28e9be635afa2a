//! The command `stats`: it writes figures of the scenario that it reads: how far each message came, and what each peer and each
//! group heard, sent and scored; or what happened in each round, on each topic or over each link.
ghost use Rattle.std.specs.Prelude.{◌≡◌, IfOk, OnErr, false, map, string_bytes};
ghost use Rattle.std.specs.Process.{exit_status};
ghost use Rattle.gs_direct.specs.Stages.{HasShownAll, HasShownFirst};
ghost use Rattle.gs_figure_sheets.specs.FigureSheets.{sheets_of};
ghost use Rattle.gs_figure_sheets.specs.Parties.{group_wish};
ghost use Rattle.gs_figure_sheets.specs.Wishes.{wishes_of as sheet_wishes_of};
ghost use Rattle.gs_plan.specs.Plans.{IsInRange};
ghost use Rattle.gs_program.specs.Arguments.{IsRefusedSo, wrong_arguments};
ghost use Rattle.gs_program.specs.Asked.{EndsWished};
ghost use Rattle.gs_program.specs.Options.{options_of};
ghost use Rattle.gs_report.specs.declared.report.Report.{Report as ReportValue};
ghost use Rattle.gs_seats.specs.Reports.{IsReport};
ghost use Rattle.gossip_sim.specs.StatsCommand.{EndsFor, layout_for, printed, sheets_wished, subject_or_run, written};
ghost use Rattle.gossip_sim.specs.StatsWishes.{group_of, usage, wishes_for, wishes_of};

mod wishes;

use crate::stats::wishes::{Asked, Form, Named, OPTIONS, USAGE, asked_by};
use gs_base::Seq;
use gs_direct::{Gauge, run_observed};
use gs_figure_sheets::{Gathering, Group, Inquiry, Layout, Subject, Wanted};
use gs_plan::Plan;
use gs_program::{Options, Summarizer, refuse_arguments, summary_with};
use gs_sheets::{Sheet, sheets_csv, sheets_json, sheets_table};
use std::alloc::{AllocError, Global};
use std::io::{Read, Write};
use std::process::ExitCode;

/// Makes the figures of a run that are asked for.
#[derive(Drop)]
struct FiguresOf<'a> {
    asked: Asked<'a>,
}

impl<'a> Summarizer for FiguresOf<'a> {
    ghost text = { λ figures plan report. printed (wishes_of figures.asked) plan report };

    fn summarize<G: Gauge>(
        &self,
        alloc: Global,
        plan: &Plan,
        gauge: &mut G,
    ) -> Result<Vec<u8>, AllocError> {
        let wanted = wanted_by(alloc, &self.asked)?;
        let inquiry = Inquiry::of(alloc, plan, &wanted)?;
        let sheets = sheets_for(alloc, plan, &inquiry, gauge)?;
        let text = written(alloc, self.asked.form, sheets.as_slice())?;
        Ok(text)
    }
}

/// The sheets of a run that answer what is asked. A gauge shows how far the run is.
fn sheets_for<G: Gauge>(
    alloc: Global,
    plan: &Plan,
    inquiry: &Inquiry,
    gauge: &mut G,
) -> Result<Seq<Sheet>, AllocError>
    requires { IsInRange plan.now }
    ensures answers { IfOk result (λ sheets. (report : ReportValue)
        × IsReport plan.now report
        × (sheets ≡ sheets_of plan.now inquiry.now report)
        × HasShownAll G.has_shown gauge.old gauge.new plan.now report) }
    ensures stopped { OnErr result (HasShownFirst G.has_shown gauge.old gauge.new plan.now) }
{
    let mut gathering = Gathering::new(alloc, plan, inquiry)?;
    match run_observed(alloc, plan, &mut gathering, gauge) {
        Ok(remains) => {
            let sheets = gathering.sheets(alloc, remains)?;
            Ok(sheets)
        }
        Err(_) => Err(AllocError),
    }
}

/// The sheets that are asked for.
fn wanted_by<'a>(alloc: Global, asked: &Asked<'a>) -> Result<Wanted<'a>, AllocError>
    ensures { IfOk result (λ wanted. sheet_wishes_of wanted ≡ sheets_wished (wishes_of asked.now)) }
{
    let groups = groups_of(alloc, asked.groups.as_slice())?;
    Ok(Wanted {
        by: asked.by,
        among: asked.among,
        groups,
        subject: subject_or_run(asked.subject),
        layout: layout_for(asked.form),
    })
}

/// The groups that are asked for, in the form that sheets need.
fn groups_of<'a>(alloc: Global, named: &[Named<'a>]) -> Result<Seq<Group<'a>>, AllocError>
    ensures { IfOk result (λ groups. map group_wish groups ≡ map group_of named.now) }
{
    let mut groups = Seq::new(alloc);
    for group in named {
        groups.push(Group {
            name: group.name,
            peers: group.peers,
        })?;
    }
    Ok(groups)
}

fn subject_or_run(subject: Option<Subject>) -> Subject
    ensures { result ≡ subject_or_run subject }
{
    match subject {
        None => Subject::Run,
        Some(subject) => subject,
    }
}

fn layout_for(form: Option<Form>) -> Layout
    ensures { result ≡ layout_for form }
{
    match form {
        None => Layout::Person,
        Some(_) => Layout::Data,
    }
}

fn written(alloc: Global, form: Option<Form>, sheets: &[Sheet]) -> Result<Vec<u8>, AllocError>
    ensures { IfOk result (λ text. text.items ≡ written form sheets.now) }
{
    match form {
        None => sheets_table(alloc, sheets),
        Some(Form::Csv) => sheets_csv(alloc, sheets),
        Some(Form::Json) => sheets_json(alloc, sheets),
    }
}

/// Runs the command with these arguments over these streams, and returns the exit status of its process.
/// Where the arguments ask for something, it ends as a run without links does, and its text has the figures that they ask for.
/// Otherwise it reads no input, writes the usage or a front of it to `errors`, and ends with 64.
pub fn run<R, W, E>(
    alloc: Global,
    arguments: &[String],
    input: &mut R,
    output: &mut W,
    errors: &mut E,
) -> ExitCode
where
    R: Read,
    W: Write,
    E: Write,
    ensures { EndsFor (map string_bytes arguments.now) (exit_status result)
        (R.remaining input.old) (R.remaining input.new)
        (W.contents output.old) (W.contents output.new) (E.contents errors.old) (E.contents errors.new) }
{
    match Options::of(&OPTIONS, arguments) {
        Some(options) => run_with(alloc, &options, input, output, errors),
        None => refuse(errors),
    }
}

/// Runs the command with these options.
fn run_with<R, W, E>(
    alloc: Global,
    options: &Options<'_>,
    input: &mut R,
    output: &mut W,
    errors: &mut E,
) -> ExitCode
where
    R: Read,
    W: Write,
    E: Write,
    ensures { EndsWished usage printed false (options_of options.now) (wishes_for (options_of options.now))
        (exit_status result) (R.remaining input.old) (R.remaining input.new)
        (W.contents output.old) (W.contents output.new) (E.contents errors.old) (E.contents errors.new) }
{
    match asked_by(options) {
        Some(asked) => {
            let program = summary_with(alloc, options, FiguresOf { asked });
            program.run_to_exit(input, output, errors)
        }
        None => refuse(errors),
    }
}

/// Writes the usage, or a front of it, to `errors`, and returns the status for wrong arguments.
#[tactic(auto, unfolding(crate::specs::StatsWishes::usage))]
fn refuse<E: Write>(errors: &mut E) -> ExitCode
    ensures { IsRefusedSo usage wrong_arguments (exit_status result) (E.contents errors.old) (E.contents errors.new) }
{
    refuse_arguments(errors, USAGE)
}
