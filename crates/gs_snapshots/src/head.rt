//! Writes the first line of the text of scores.
ghost use Rattle.std.specs.Prelude.{◌≡◌, ◌++◌, OnOk};
ghost use Rattle.gs_snapshots.specs.Csv.{csv_head};
ghost use Rattle.gs_snapshots.specs.Json.{json_head, thresholds_text};
ghost use Rattle.gs_snapshots.specs.Forms.{head_text};

use crate::amounts::push_threshold;
use crate::wanted::Form;
use gs_params::Thresholds;
use gs_plan::Plan;
use gs_trace::{push_code, push_names, push_number};
use std::alloc::AllocError;

/// Appends the first line of the text in a form.
pub(crate) fn push_head(
    plan: &Plan,
    form: Option<Form>,
    out: &mut Vec<u8>,
) -> Result<(), AllocError>
    ensures { OnOk result (out.new.items ≡ out.old.items ++ head_text form plan.now) }
{
    match form {
        None => push_json_head(plan, out),
        Some(Form::Json) => push_json_head(plan, out),
        Some(Form::Csv) => push_csv_head(out),
    }
}

/// Appends the names of the columns.
fn push_csv_head(out: &mut Vec<u8>) -> Result<(), AllocError>
    ensures { OnOk result (out.new.items ≡ out.old.items ++ csv_head) }
{
    push_code(
        out,
        b"round,at,peer,event,neighbour,topic,part,counted,weighed\n",
    )
}

/// Appends the first line: the names of the peers, the length of a round, the last round, and the thresholds.
fn push_json_head(plan: &Plan, out: &mut Vec<u8>) -> Result<(), AllocError>
    ensures { OnOk result (out.new.items ≡ out.old.items ++ json_head plan.now) }
{
    push_code(out, b"{\"peers\":")?;
    push_names(plan, out)?;
    push_code(out, b",\"round_ms\":")?;
    push_number(out, plan.round_ms)?;
    push_code(out, b",\"last_round\":")?;
    push_number(out, plan.rounds)?;
    push_code(out, b",\"thresholds\":")?;
    push_thresholds(out, &plan.params.thresholds)?;
    push_code(out, b"}\n")
}

/// Appends the thresholds: the scores that neighbours need.
fn push_thresholds(out: &mut Vec<u8>, thresholds: &Thresholds) -> Result<(), AllocError>
    ensures { OnOk result (out.new.items ≡ out.old.items ++ thresholds_text thresholds.now) }
{
    push_code(out, b"{\"gossip_threshold\":")?;
    push_threshold(out, &thresholds.gossip_threshold)?;
    push_code(out, b",\"publish_threshold\":")?;
    push_threshold(out, &thresholds.publish_threshold)?;
    push_code(out, b",\"graylist_threshold\":")?;
    push_threshold(out, &thresholds.graylist_threshold)?;
    push_code(out, b"}")
}
