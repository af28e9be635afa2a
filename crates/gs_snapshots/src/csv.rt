//! Writes the score of a neighbour as rows of CSV.
ghost use Rattle.std.specs.Prelude.{◌≡◌, ◌++◌, IfOk, OnOk, codes, decimal};
ghost use Rattle.std.specs.List.{flat_map};
ghost use Rattle.gs_trace.specs.Texts.{topic_text};
ghost use Rattle.gs_snapshots.specs.Moments.{occasion_word};
ghost use Rattle.gs_snapshots.specs.Csv.{amount_row, csv_rows, part_row, row, row_start, rows_from, score_parts_rows, topic_parts_rows, topic_rows};

use crate::amounts::push_shown;
use crate::moments::{Moment, occasion_word};
use crate::snapshot::{OnTopic, Snapshot};
use gs_base::Topic;
use gs_plan::Plan;
use gs_score::{Part, ScoreParts, TopicParts};
use gs_trace::{push_code, push_number, push_peer, push_quoted};
use std::alloc::{AllocError, Global};

/// Appends the rows of a snapshot.
pub(crate) fn push_rows(
    plan: &Plan,
    out: &mut Vec<u8>,
    snapshot: &Snapshot,
) -> Result<(), AllocError>
    ensures { OnOk result (out.new.items ≡ out.old.items ++ csv_rows plan.now snapshot.now) }
{
    let start = row_start(*out.allocator(), plan, snapshot)?;
    push_rows_from(out, &start, snapshot)
}

/// Appends the rows of a snapshot, each after this start.
fn push_rows_from(out: &mut Vec<u8>, start: &[u8], snapshot: &Snapshot) -> Result<(), AllocError>
    ensures { OnOk result (out.new.items ≡ out.old.items ++ rows_from start.now snapshot.now) }
{
    push_amount_row(out, start, b"score", &snapshot.parts.score)?;
    push_each_topic(out, start, snapshot)?;
    push_score_parts(out, start, &snapshot.parts)
}

/// Appends the rows of the topics of a snapshot.
fn push_each_topic(out: &mut Vec<u8>, start: &[u8], snapshot: &Snapshot) -> Result<(), AllocError>
    ensures { OnOk result (out.new.items ≡ out.old.items ++ flat_map (topic_rows start.now) snapshot.now.topics) }
{
    push_topics(out, start, snapshot.topics.as_slice())
}

/// Returns what each row of a snapshot begins with.
fn row_start(alloc: Global, plan: &Plan, snapshot: &Snapshot) -> Result<Vec<u8>, AllocError>
    ensures { IfOk result (λ start. start.items ≡ row_start plan.now snapshot.now) }
{
    let mut start = Vec::new(alloc);
    push_row_start(plan, &mut start, snapshot)?;
    Ok(start)
}

/// Appends what each row of a snapshot begins with.
fn push_row_start(plan: &Plan, out: &mut Vec<u8>, snapshot: &Snapshot) -> Result<(), AllocError>
    ensures { OnOk result (out.new.items ≡ out.old.items ++ row_start plan.now snapshot.now) }
{
    push_number(out, snapshot.moment.round)?;
    push_code(out, b",")?;
    push_number(out, snapshot.moment.at.0)?;
    push_code(out, b",")?;
    push_peer(plan, out, snapshot.moment.peer)?;
    push_code(out, b",")?;
    push_occasion(out, snapshot.moment)?;
    push_code(out, b",")?;
    push_peer(plan, out, snapshot.neighbour)?;
    push_code(out, b",")
}

/// Appends what happened at a moment.
fn push_occasion(out: &mut Vec<u8>, moment: Moment) -> Result<(), AllocError>
    ensures { OnOk result (out.new.items ≡ out.old.items ++ occasion_word moment.occasion) }
{
    push_code(out, occasion_word(moment.occasion))
}

/// Appends the rows of each topic.
fn push_topics(out: &mut Vec<u8>, start: &[u8], topics: &[OnTopic]) -> Result<(), AllocError>
    ensures { OnOk result (out.new.items ≡ out.old.items ++ flat_map (topic_rows start.now) topics.now) }
{
    for told in topics {
        push_topic(out, start, told)?;
    }
    Ok(())
}

/// Appends the rows of a topic.
#[tactic(auto, unfolding(crate::specs::Csv::topic_rows))]
fn push_topic(out: &mut Vec<u8>, start: &[u8], told: &OnTopic) -> Result<(), AllocError>
    ensures { OnOk result (out.new.items ≡ out.old.items ++ topic_rows start.now told.now) }
{
    let on_topic = topic_start(*out.allocator(), start, &told.topic)?;
    push_topic_parts(out, &on_topic, &told.parts)
}

/// Returns what each row of a topic begins with.
fn topic_start(alloc: Global, start: &[u8], topic: &Topic) -> Result<Vec<u8>, AllocError>
    ensures { IfOk result (λ longer. longer.items ≡ start.now ++ topic_text topic.now) }
{
    let mut longer = start.to_vec(alloc)?;
    push_quoted(&mut longer, topic.0.as_slice())?;
    Ok(longer)
}

fn push_topic_parts(out: &mut Vec<u8>, start: &[u8], parts: &TopicParts) -> Result<(), AllocError>
    ensures { OnOk result (out.new.items ≡ out.old.items ++ topic_parts_rows start.now parts.now) }
{
    push_part_row(out, start, b"time_in_mesh", &parts.time_in_mesh)?;
    push_part_row(
        out,
        start,
        b"first_message_deliveries",
        &parts.first_message_deliveries,
    )?;
    push_part_row(
        out,
        start,
        b"mesh_message_deliveries",
        &parts.mesh_message_deliveries,
    )?;
    push_part_row(
        out,
        start,
        b"mesh_failure_penalty",
        &parts.mesh_failure_penalty,
    )?;
    push_part_row(
        out,
        start,
        b"invalid_message_deliveries",
        &parts.invalid_message_deliveries,
    )?;
    push_amount_row(out, start, b"topic_score", &parts.topic_score)
}

/// Appends the rows of the parts that belong to no single topic.
fn push_score_parts(out: &mut Vec<u8>, start: &[u8], parts: &ScoreParts) -> Result<(), AllocError>
    ensures { OnOk result (out.new.items ≡ out.old.items ++ score_parts_rows start.now parts.now) }
{
    push_amount_row(out, start, b"topic_sum", &parts.topic_sum)?;
    push_amount_row(out, start, b"capped_topic_sum", &parts.capped_topic_sum)?;
    push_part_row(out, start, b"app_specific_score", &parts.app_specific_score)?;
    push_colocation_row(
        out,
        start,
        parts.neighbours_at_address,
        &parts.ip_colocation_factor,
    )?;
    push_part_row(out, start, b"behaviour_penalty", &parts.behaviour_penalty)
}

/// Appends the row of a part: what is counted, and its weighted amount.
fn push_part_row(
    out: &mut Vec<u8>,
    start: &[u8],
    name: &[u8],
    part: &Part,
) -> Result<(), AllocError>
    ensures { OnOk result (out.new.items ≡ out.old.items ++ part_row start.now name.now part.now) }
{
    let mut counted = Vec::new(*out.allocator());
    push_shown(&mut counted, &part.counted)?;
    push_row(out, start, name, &counted, &part.weighed)
}

/// Appends the row for how many neighbours are at the address, and the weighted amount of that.
fn push_colocation_row(
    out: &mut Vec<u8>,
    start: &[u8],
    neighbours: u64,
    weighed: &i128,
) -> Result<(), AllocError>
    ensures { OnOk result (out.new.items
        ≡ out.old.items ++ row start.now (codes "ip_colocation_factor") (decimal neighbours) weighed.now) }
{
    let counted = format!(in *out.allocator(); "{neighbours}")?;
    push_row(
        out,
        start,
        b"ip_colocation_factor",
        counted.as_bytes(),
        weighed,
    )
}

/// Appends the row of an amount. Nothing is counted for it.
fn push_amount_row(
    out: &mut Vec<u8>,
    start: &[u8],
    name: &[u8],
    amount: &i128,
) -> Result<(), AllocError>
    ensures { OnOk result (out.new.items ≡ out.old.items ++ amount_row start.now name.now amount.now) }
{
    push_row(out, start, name, b"", amount)
}

/// Appends a row that begins with this start.
fn push_row(
    out: &mut Vec<u8>,
    start: &[u8],
    name: &[u8],
    counted: &[u8],
    weighed: &i128,
) -> Result<(), AllocError>
    ensures { OnOk result (out.new.items ≡ out.old.items ++ row start.now name.now counted.now weighed.now) }
{
    push_code(out, start)?;
    push_code(out, b",")?;
    push_code(out, name)?;
    push_code(out, b",")?;
    push_code(out, counted)?;
    push_code(out, b",")?;
    push_shown(out, weighed)?;
    push_code(out, b"\n")
}
