//! The trace's line for a line of the script that a peer refused.
ghost use Rattle.std.specs.Prelude.{◌≡◌, ◌++◌, decimal, OnOk};
ghost use Rattle.gs_rules.specs.Refusals.{number_of};
ghost use Rattle.gs_report.specs.Text.{word_of};
ghost use Rattle.gs_trace.specs.Texts.{quoted};
ghost use Rattle.gs_trace.specs.Lines.{is_refused_in, line_text, refusal_members};
ghost use Rattle.gs_trace.specs.Lines.Told.{Refused};
ghost use Rattle.gs_trace.specs.Turns.{refusal_line};

use crate::entries::push_start;
use crate::events::push_word;
use crate::pages::Told;
use crate::texts::{push_code, push_number, push_quoted, push_size};
use crate::turn::Turn;
use crate::wanted::is_refusal_wanted;
use gs_plan::Plan;
use gs_report::word_of;
use gs_rules::{Refusal, RefusedLine};
use std::alloc::AllocError;

impl Told for RefusedLine {
    ghost line = { refusal_line };

    fn push(&self, turn: &Turn<'_>, page: &mut Vec<u8>) -> Result<(), AllocError> {
        if is_refused_in(turn.plan.round_ms, turn.round, *self) && is_refusal_wanted(turn, *self) {
            return push_refusal(turn, page, *self);
        }
        Ok(())
    }
}

/// Whether a line was refused at the moment of a round.
fn is_refused_in(round_ms: u64, round: u64, refusal: RefusedLine) -> bool
    ensures { result ≡ is_refused_in round_ms round refusal }
{
    match round.checked_mul(round_ms) {
        Some(moment) => refusal.at.0 == moment,
        None => false,
    }
}

/// Adds the trace's line for a line of the script that was refused.
fn push_refusal(turn: &Turn<'_>, out: &mut Vec<u8>, refusal: RefusedLine) -> Result<(), AllocError>
    ensures { OnOk result (out.new.items
        ≡ out.old.items ++ line_text turn.now.plan.now (Refused turn.now.round turn.now.peer refusal)) }
{
    push_start(turn, out, refusal.at)?;
    push_refused(turn.plan, out, refusal)?;
    push_code(out, b"}\n")
}

fn push_refused(plan: &Plan, out: &mut Vec<u8>, refusal: RefusedLine) -> Result<(), AllocError>
    ensures { OnOk result (out.new.items ≡ out.old.items ++ refusal_members plan.now refusal) }
{
    push_word(out, b"refused")?;
    push_code(out, b",\"line\":")?;
    push_size(out, refusal.line)?;
    push_code(out, b",\"what\":")?;
    push_what(plan, out, refusal.line)?;
    push_code(out, b",\"number\":")?;
    push_why(out, refusal.why)
}

/// Adds what a line of the script asks for.
fn push_what(plan: &Plan, out: &mut Vec<u8>, line: usize) -> Result<(), AllocError>
    ensures { OnOk result (out.new.items ≡ out.old.items ++ quoted (word_of plan.now line)) }
{
    push_quoted(out, word_of(plan, line).as_bytes())
}

/// Adds the number of a refusal.
fn push_why(out: &mut Vec<u8>, why: Refusal) -> Result<(), AllocError>
    ensures { OnOk result (out.new.items ≡ out.old.items ++ decimal (number_of why)) }
{
    push_number(out, why.number() as u64)
}
