//! The first line of a trace: the names of the peers, the length of a round, the last round, and the dials.
ghost use Rattle.std.specs.Prelude.{◌≡◌, ◌++◌, OnOk};
ghost use Rattle.gs_trace.specs.Texts.{list_text, names_of, quoted};
ghost use Rattle.gs_trace.specs.Lines.{dial_text, head_text};

use crate::texts::{Shown, push_code, push_list, push_number, push_quoted};
use gs_plan::{Dial, Plan, PlannedPeer};
use std::alloc::AllocError;

/// Adds the first line.
pub(crate) fn push_head(plan: &Plan, out: &mut Vec<u8>) -> Result<(), AllocError>
    ensures { OnOk result (out.new.items ≡ out.old.items ++ head_text plan.now) }
{
    push_code(out, b"{\"peers\":")?;
    push_names(plan, out)?;
    push_code(out, b",\"round_ms\":")?;
    push_number(out, plan.round_ms)?;
    push_code(out, b",\"last_round\":")?;
    push_number(out, plan.rounds)?;
    push_code(out, b",\"dials\":")?;
    push_dials(plan, out)?;
    push_code(out, b"}\n")
}

/// Adds the names of all peers, as a list.
///
/// # Errors
/// `AllocError` when out of memory. A part of the text may have been added then.
pub fn push_names(plan: &Plan, out: &mut Vec<u8>) -> Result<(), AllocError>
    ensures { OnOk result (out.new.items ≡ out.old.items ++ list_text quoted (names_of plan.now)) }
{
    push_list(plan, out, plan.peers.as_slice())
}

/// Adds the dials.
fn push_dials(plan: &Plan, out: &mut Vec<u8>) -> Result<(), AllocError>
    ensures { OnOk result (out.new.items ≡ out.old.items ++ list_text (dial_text (names_of plan.now)) plan.now.dials) }
{
    push_list(plan, out, plan.dials.as_slice())
}

impl Shown for PlannedPeer {
    ghost text = { λ names planned. quoted planned.name };

    fn push(&self, _plan: &Plan, out: &mut Vec<u8>) -> Result<(), AllocError> {
        push_quoted(out, self.name.as_str().as_bytes())
    }
}

impl Shown for Dial {
    ghost text = { dial_text };

    fn push(&self, plan: &Plan, out: &mut Vec<u8>) -> Result<(), AllocError> {
        push_code(out, b"{\"from\":")?;
        self.from.push(plan, out)?;
        push_code(out, b",\"to\":")?;
        self.to.push(plan, out)?;
        push_code(out, b"}")
    }
}
