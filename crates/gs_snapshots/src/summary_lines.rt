//! Writes a summary as lines for people.
ghost use Rattle.std.specs.Prelude.{◌≡◌, [], ◌∷◌, ◌++◌, List, OnOk, Some, codes, filter, option_copied};
ghost use Rattle.std.specs.List.{flat_map};
ghost use Rattle.gs_report.specs.Text.{score_text};
ghost use Rattle.gs_snapshots.specs.SummaryText.{Count, bounds_lines, comma_after, crossing_text, falls_lines, graft_counts, counts_line, line_after, load_text, lowest_line, lowest_text, of_word, is_any, joined, lowest_if, open_text, promise_counts, request_counts, side_word, summary_lines, threshold_line, times_text, topic_of_load, unheard_counts, zero_line};
ghost use Rattle.gs_snapshots.specs.Loads.{heaviest, load_of};
ghost use Rattle.gs_trace.specs.Texts.{topic_text};

use crate::amounts::{push_shown, push_threshold};
use crate::courses::{Course, Crossing};
use crate::falls::{Falls, RefusedGrafts, UnansweredIds};
use crate::loads::{Load, heaviest, part_word};
use crate::snapshot::Snapshot;
use crate::summary::Summary;
use gs_base::Topic;
use gs_params::Thresholds;
use gs_score::Rulebook;
use gs_trace::{push_code, push_number, push_quoted};
use std::alloc::AllocError;

/// Appends the lines of a summary. There is no line if there is nothing to report.
pub(crate) fn push_lines(
    rules: &Rulebook,
    out: &mut Vec<u8>,
    summary: &Summary,
) -> Result<(), AllocError>
    ensures { OnOk result (out.new.items ≡ out.old.items ++ summary_lines rules.now summary.now) }
{
    push_bounds(&rules.params().thresholds, out, summary)?;
    push_lowest_of(rules, out, &summary.lowest)?;
    push_falls(out, &summary.falls)
}

/// Appends when a score was below each bound.
fn push_bounds(
    thresholds: &Thresholds,
    out: &mut Vec<u8>,
    summary: &Summary,
) -> Result<(), AllocError>
    ensures { OnOk result (out.new.items ≡ out.old.items ++ bounds_lines thresholds.now summary.now) }
{
    push_zero(out, &summary.zero)?;
    push_below(
        out,
        b"gossip_threshold",
        &thresholds.gossip_threshold,
        &summary.gossip,
    )?;
    push_below(
        out,
        b"publish_threshold",
        &thresholds.publish_threshold,
        &summary.publish,
    )?;
    push_below(
        out,
        b"graylist_threshold",
        &thresholds.graylist_threshold,
        &summary.graylist,
    )
}

/// Appends when a score was below 0.
fn push_zero(out: &mut Vec<u8>, course: &Course) -> Result<(), AllocError>
    ensures { OnOk result (out.new.items ≡ out.old.items ++ zero_line course.now) }
{
    let mut times = Vec::new(*out.allocator());
    push_times(&mut times, course)?;
    push_after(out, b"below 0", &times)
}

/// Appends when a score was below a threshold.
fn push_below(
    out: &mut Vec<u8>,
    name: &[u8],
    threshold: &i64,
    course: &Course,
) -> Result<(), AllocError>
    ensures { OnOk result (out.new.items ≡ out.old.items ++ threshold_line name.now threshold.now course.now) }
{
    let mut label = Vec::new(*out.allocator());
    push_label(&mut label, name, threshold)?;
    let mut times = Vec::new(*out.allocator());
    push_times(&mut times, course)?;
    push_after(out, &label, &times)
}

/// Appends the name and the value of a threshold.
fn push_label(out: &mut Vec<u8>, name: &[u8], threshold: &i64) -> Result<(), AllocError>
    ensures { OnOk result (out.new.items
        ≡ out.old.items ++ (codes "below " ++ name.now ++ codes " (" ++ score_text threshold.now ++ codes ")")) }
{
    push_code(out, b"below ")?;
    push_code(out, name)?;
    push_code(out, b" (")?;
    push_threshold(out, threshold)?;
    push_code(out, b")")
}

/// Appends from when to when a score was below a bound.
fn push_times(out: &mut Vec<u8>, course: &Course) -> Result<(), AllocError>
    ensures { OnOk result (out.new.items ≡ out.old.items ++ times_text course.now) }
{
    push_crossings(out, course.crossings.as_slice())?;
    push_open(out, course.is_below)
}

fn push_crossings(out: &mut Vec<u8>, crossings: &[Crossing]) -> Result<(), AllocError>
    ensures { OnOk result (out.new.items ≡ out.old.items ++ flat_map crossing_text crossings.now) }
{
    for crossing in crossings {
        push_crossing(out, *crossing)?;
    }
    Ok(())
}

fn push_crossing(out: &mut Vec<u8>, crossing: Crossing) -> Result<(), AllocError>
    ensures { OnOk result (out.new.items ≡ out.old.items ++ crossing_text crossing) }
{
    push_code(out, side_word(crossing.is_below))?;
    push_number(out, crossing.at.0)?;
    push_code(out, b" ms")
}

fn side_word(is_below: bool) -> &'static [u8]
    ensures { result.now ≡ side_word is_below }
{
    if is_below { b", from " } else { b" to " }
}

fn push_open(out: &mut Vec<u8>, is_below: bool) -> Result<(), AllocError>
    ensures { OnOk result (out.new.items ≡ out.old.items ++ open_text is_below) }
{
    if is_below {
        return push_code(out, b" on");
    }
    Ok(())
}

/// Appends a line with a label and a text, if the text is not empty.
fn push_after(out: &mut Vec<u8>, label: &[u8], text: &[u8]) -> Result<(), AllocError>
    ensures { OnOk result (out.new.items ≡ out.old.items ++ line_after label.now text.now) }
{
    if text.is_empty() {
        return Ok(());
    }
    push_code(out, b"  ")?;
    push_code(out, label)?;
    push_code(out, text)?;
    push_code(out, b"\n")
}

/// Appends the lowest score of a neighbour, if it is below 0.
fn push_lowest_of(
    rules: &Rulebook,
    out: &mut Vec<u8>,
    lowest: &Option<Snapshot>,
) -> Result<(), AllocError>
    ensures { OnOk result (out.new.items ≡ out.old.items ++ lowest_line rules.now lowest.now) }
{
    match lowest {
        None => Ok(()),
        Some(snapshot) => push_lowest_if(rules, out, snapshot),
    }
}

fn push_lowest_if(
    rules: &Rulebook,
    out: &mut Vec<u8>,
    snapshot: &Snapshot,
) -> Result<(), AllocError>
    ensures { OnOk result (out.new.items ≡ out.old.items ++ lowest_if rules.now snapshot.now) }
{
    if snapshot.parts.score < 0 {
        return push_lowest(rules, out, snapshot);
    }
    Ok(())
}

/// Appends the lowest score of a neighbour, and the part that adds least to it.
fn push_lowest(rules: &Rulebook, out: &mut Vec<u8>, snapshot: &Snapshot) -> Result<(), AllocError>
    ensures { OnOk result (out.new.items ≡ out.old.items ++ lowest_text rules.now snapshot.now) }
{
    push_code(out, b"  lowest ")?;
    push_shown(out, &snapshot.parts.score)?;
    push_code(out, b", at ")?;
    push_number(out, snapshot.moment.at.0)?;
    push_code(out, b" ms")?;
    push_heaviest(rules, out, snapshot)?;
    push_code(out, b"\n")
}

fn push_heaviest(rules: &Rulebook, out: &mut Vec<u8>, snapshot: &Snapshot) -> Result<(), AllocError>
    ensures { OnOk result (out.new.items ≡ out.old.items ++ load_text (heaviest rules.now snapshot.now)) }
{
    match heaviest(rules, snapshot) {
        Some(load) => push_load(out, &load),
        None => Ok(()),
    }
}

fn push_load(out: &mut Vec<u8>, load: &Load<'_>) -> Result<(), AllocError>
    ensures { OnOk result (out.new.items ≡ out.old.items ++ load_text (Some (load_of load.now))) }
{
    push_code(out, b": ")?;
    push_code(out, part_word(load.part))?;
    push_topic(out, load.topic)?;
    push_code(out, b" weighs ")?;
    push_shown(out, &load.amount)
}

fn push_topic(out: &mut Vec<u8>, topic: Option<&Topic>) -> Result<(), AllocError>
    ensures { OnOk result (out.new.items
        ≡ out.old.items ++ topic_of_load (option_copied topic.entry)) }
{
    match topic {
        Some(topic) => push_on_topic(out, topic),
        None => Ok(()),
    }
}

fn push_on_topic(out: &mut Vec<u8>, topic: &Topic) -> Result<(), AllocError>
    ensures { OnOk result (out.new.items ≡ out.old.items ++ (codes " on " ++ topic_text topic.now)) }
{
    push_code(out, b" on ")?;
    push_quoted(out, topic.0.as_slice())
}

/// Appends how much of what a neighbour sent or promised had no effect.
fn push_falls(out: &mut Vec<u8>, falls: &Falls) -> Result<(), AllocError>
    ensures { OnOk result (out.new.items ≡ out.old.items ++ falls_lines falls.now) }
{
    push_unheard(out, falls)?;
    push_grafts(out, &falls.grafts)?;
    push_requests(out, &falls.requests)?;
    push_promises(out, falls)
}

fn push_unheard(out: &mut Vec<u8>, falls: &Falls) -> Result<(), AllocError>
    ensures { OnOk result (out.new.items
        ≡ out.old.items ++ counts_line (codes "RPCs not heard: ") (unheard_counts falls.now)) }
{
    let mut counts = Vec::new(*out.allocator());
    push_count(&mut counts, falls.graylisted, b"graylisted")?;
    push_count(&mut counts, falls.late, b"late")?;
    push_after(out, b"RPCs not heard: ", &counts)
}

fn push_grafts(out: &mut Vec<u8>, grafts: &RefusedGrafts) -> Result<(), AllocError>
    ensures { OnOk result (out.new.items
        ≡ out.old.items ++ counts_line (codes "GRAFTs refused: ") (graft_counts grafts.now)) }
{
    let mut counts = Vec::new(*out.allocator());
    push_count(&mut counts, grafts.explicit, b"explicit")?;
    push_count(&mut counts, grafts.backoff, b"backoff")?;
    push_count(&mut counts, grafts.score, b"score")?;
    push_count(&mut counts, grafts.full, b"full")?;
    push_after(out, b"GRAFTs refused: ", &counts)
}

fn push_requests(out: &mut Vec<u8>, requests: &UnansweredIds) -> Result<(), AllocError>
    ensures { OnOk result (out.new.items
        ≡ out.old.items ++ counts_line (codes "requested identifiers not answered: ") (request_counts requests.now)) }
{
    let mut counts = Vec::new(*out.allocator());
    push_count(&mut counts, requests.score, b"score")?;
    push_count(&mut counts, requests.too_often, b"too_often")?;
    push_count(&mut counts, requests.not_kept, b"not_kept")?;
    push_after(out, b"requested identifiers not answered: ", &counts)
}

fn push_promises(out: &mut Vec<u8>, falls: &Falls) -> Result<(), AllocError>
    ensures { OnOk result (out.new.items
        ≡ out.old.items ++ counts_line (codes "promises: ") (promise_counts falls.now)) }
{
    let mut counts = Vec::new(*out.allocator());
    push_count(&mut counts, falls.promises, b"broken")?;
    push_after(out, b"promises: ", &counts)
}

/// Appends a count after others, if it is not 0.
fn push_count(counts: &mut Vec<u8>, number: u64, word: &[u8]) -> Result<(), AllocError>
    ensures { OnOk result ((before : List Count)
        → counts.old.items ≡ joined (filter is_any before)
        → counts.new.items ≡ joined (filter is_any (before ++ of_word number word.now ∷ []))) }
{
    if number == 0 {
        return Ok(());
    }
    push_comma(counts)?;
    push_number(counts, number)?;
    push_code(counts, b" ")?;
    push_code(counts, word)
}

/// Appends a comma, if something stands before it.
fn push_comma(counts: &mut Vec<u8>) -> Result<(), AllocError>
    ensures { OnOk result (counts.new.items ≡ counts.old.items ++ comma_after counts.old.items) }
{
    if counts.is_empty() {
        return Ok(());
    }
    push_code(counts, b", ")
}
