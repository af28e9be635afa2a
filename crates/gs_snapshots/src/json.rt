//! Writes the score of a neighbour as a line of JSON.
ghost use Rattle.std.specs.Prelude.{◌≡◌, ◌++◌, OnOk};
ghost use Rattle.gs_trace.specs.Events.{event_text};
ghost use Rattle.gs_trace.specs.Lines.{line_start};
ghost use Rattle.gs_trace.specs.Texts.{list_text, names_of};
ghost use Rattle.gs_snapshots.specs.Json.{amount_member, colocation_member, json_line, part_member, score_parts_members, topic_object, topic_parts_members};
ghost use Rattle.gs_snapshots.specs.Moments.{occasion_word};

use crate::amounts::push_shown;
use crate::moments::{Moment, occasion_word};
use crate::snapshot::{OnTopic, Snapshot};
use gs_plan::Plan;
use gs_score::{Part, ScoreParts, TopicParts};
use gs_trace::{Shown, push_code, push_list, push_number, push_peer, push_word};
use std::alloc::AllocError;

/// Appends the line of a snapshot.
pub(crate) fn push_line(
    plan: &Plan,
    out: &mut Vec<u8>,
    snapshot: &Snapshot,
) -> Result<(), AllocError>
    ensures { OnOk result (out.new.items ≡ out.old.items ++ json_line plan.now snapshot.now) }
{
    push_moment(plan, out, snapshot.moment)?;
    push_occasion(out, snapshot.moment)?;
    push_code(out, b",\"neighbour\":")?;
    push_peer(plan, out, snapshot.neighbour)?;
    push_amount(out, b"score", &snapshot.parts.score)?;
    push_code(out, b",\"topics\":")?;
    push_topics(plan, out, snapshot)?;
    push_score_parts(out, &snapshot.parts)?;
    push_code(out, b"}\n")
}

/// Appends the start of the line.
fn push_moment(plan: &Plan, out: &mut Vec<u8>, moment: Moment) -> Result<(), AllocError>
    ensures { OnOk result (out.new.items
        ≡ out.old.items ++ line_start (names_of plan.now) moment.round moment.at moment.peer) }
{
    push_code(out, b"{\"round\":")?;
    push_number(out, moment.round)?;
    push_code(out, b",\"at\":")?;
    push_number(out, moment.at.0)?;
    push_code(out, b",\"peer\":")?;
    push_peer(plan, out, moment.peer)?;
    push_code(out, b",")
}

/// Appends what happened at a moment.
fn push_occasion(out: &mut Vec<u8>, moment: Moment) -> Result<(), AllocError>
    ensures { OnOk result (out.new.items ≡ out.old.items ++ event_text (occasion_word moment.occasion)) }
{
    push_word(out, occasion_word(moment.occasion))
}

fn push_topics(plan: &Plan, out: &mut Vec<u8>, snapshot: &Snapshot) -> Result<(), AllocError>
    ensures { OnOk result (out.new.items ≡ out.old.items ++ list_text topic_object snapshot.now.topics) }
{
    push_list(plan, out, snapshot.topics.as_slice())
}

impl Shown for OnTopic {
    ghost text = { λ names told. topic_object told };

    fn push(&self, plan: &Plan, out: &mut Vec<u8>) -> Result<(), AllocError> {
        push_code(out, b"{\"topic\":")?;
        self.topic.push(plan, out)?;
        push_topic_parts(out, &self.parts)?;
        push_code(out, b"}")
    }
}

fn push_topic_parts(out: &mut Vec<u8>, parts: &TopicParts) -> Result<(), AllocError>
    ensures { OnOk result (out.new.items ≡ out.old.items ++ topic_parts_members parts.now) }
{
    push_part(out, b"time_in_mesh", &parts.time_in_mesh)?;
    push_part(
        out,
        b"first_message_deliveries",
        &parts.first_message_deliveries,
    )?;
    push_part(
        out,
        b"mesh_message_deliveries",
        &parts.mesh_message_deliveries,
    )?;
    push_part(out, b"mesh_failure_penalty", &parts.mesh_failure_penalty)?;
    push_part(
        out,
        b"invalid_message_deliveries",
        &parts.invalid_message_deliveries,
    )?;
    push_amount(out, b"topic_score", &parts.topic_score)
}

/// Appends the parts that belong to no single topic.
fn push_score_parts(out: &mut Vec<u8>, parts: &ScoreParts) -> Result<(), AllocError>
    ensures { OnOk result (out.new.items ≡ out.old.items ++ score_parts_members parts.now) }
{
    push_amount(out, b"topic_sum", &parts.topic_sum)?;
    push_amount(out, b"capped_topic_sum", &parts.capped_topic_sum)?;
    push_part(out, b"app_specific_score", &parts.app_specific_score)?;
    push_colocation(
        out,
        parts.neighbours_at_address,
        &parts.ip_colocation_factor,
    )?;
    push_part(out, b"behaviour_penalty", &parts.behaviour_penalty)
}

/// Appends how many neighbours are at the address, and the weighted amount of that.
fn push_colocation(out: &mut Vec<u8>, neighbours: u64, weighed: &i128) -> Result<(), AllocError>
    ensures { OnOk result (out.new.items ≡ out.old.items ++ colocation_member neighbours weighed.now) }
{
    push_code(out, b",\"ip_colocation_factor\":{\"neighbours\":")?;
    push_number(out, neighbours)?;
    push_code(out, b",\"weighed\":")?;
    push_shown(out, weighed)?;
    push_code(out, b"}")
}

/// Appends an amount, after its name.
fn push_amount(out: &mut Vec<u8>, name: &[u8], amount: &i128) -> Result<(), AllocError>
    ensures { OnOk result (out.new.items ≡ out.old.items ++ amount_member name.now amount.now) }
{
    push_code(out, b",\"")?;
    push_code(out, name)?;
    push_code(out, b"\":")?;
    push_shown(out, amount)
}

/// Appends a part: what is counted, and its weighted amount.
fn push_part(out: &mut Vec<u8>, name: &[u8], part: &Part) -> Result<(), AllocError>
    ensures { OnOk result (out.new.items ≡ out.old.items ++ part_member name.now part.now) }
{
    push_code(out, b",\"")?;
    push_code(out, name)?;
    push_code(out, b"\":{\"counted\":")?;
    push_shown(out, &part.counted)?;
    push_code(out, b",\"weighed\":")?;
    push_shown(out, &part.weighed)?;
    push_code(out, b"}")
}
