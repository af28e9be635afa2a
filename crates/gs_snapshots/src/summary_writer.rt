//! Writes the summaries of a run: by peer, then by neighbour.
ghost use Rattle.std.specs.Io.KnownBytes.{Appends};
ghost use Rattle.std.specs.Prelude.{◌≡◌, ◌<◌, ◌++◌, IfOk, OnErr, OnOk, length, nat_lt};
ghost use Rattle.std.specs.List.{flat_map, AllByRecursion};
ghost use Rattle.gs_base.specs.declared.names.PeerNo.{PeerNo as PeerNoValue};
ghost use Rattle.gs_plan.specs.Plans.{IsInRange};
ghost use Rattle.gs_report.specs.declared.finished.Finished.{Finished as FinishedValue};
ghost use Rattle.gs_router.specs.Following.{AreInOrder};
ghost use Rattle.gs_seats.specs.Reports.{IsReport};
ghost use Rattle.gs_streams.specs.Streams.{AppendsFront};
ghost use Rattle.gs_trace.specs.Pages.{Adds};
ghost use Rattle.gs_snapshots.specs.Summing.{is_text, line_unless, summaries_if};
ghost use Rattle.gs_snapshots.specs.SummaryText.{summaries_of_peer, summary_block, summary_text, under_names};
ghost use Rattle.gs_snapshots.specs.Wishes.{wishes_of};

use crate::summaries::summaries_of;
use crate::summary::Summary;
use crate::summary_lines::push_lines;
use crate::wanted::{Wanted, has_name};
use gs_base::PeerNo;
use gs_plan::Plan;
use gs_report::{Finished, Report, name_of};
use gs_score::Rulebook;
use gs_seats::traces_of_a_report_are_in_order;
use gs_trace::{TraceFault, push_code, write_full, write_page};
use std::alloc::{AllocError, Global};
use std::io::Write;

/// Writes a summary of the scores of a run that are wanted, by peer and then by neighbour. docs/OUTPUTS.md explains each
/// line. For each neighbour, the summary states when it scored below 0 and below each threshold. It states the lowest score
/// and its cause, and how much of what the neighbour sent or promised had no effect. The form in `wanted` does not matter.
/// It buffers at most about 64 KiB of text, plus the text of one peer.
///
/// # Errors
/// A `TraceFault` when out of memory, or when a write failed. By then a prefix of the text has been written.
pub fn write_summary<W: Write>(
    alloc: Global,
    plan: &Plan,
    report: &Report,
    wanted: &Wanted<'_>,
    output: &mut W,
) -> Result<(), TraceFault>
    requires range { IsInRange plan.now }
    requires run { IsReport plan.now report.now }
    ensures whole { OnOk result (Appends (W.contents output.old) (W.contents output.new)
        (summary_text (wishes_of wanted.now) plan.now report.now)) }
    ensures front { OnErr result (AppendsFront (W.contents output.old) (W.contents output.new)
        (summary_text (wishes_of wanted.now) plan.now report.now)) }
{
    traces_of_a_report_are_in_order();
    let mut page = Vec::new(alloc);
    let is_any = write_peers(plan, wanted, &report.peers, &mut page, output)?;
    push_line_unless(is_any, &mut page)?;
    write_page(&mut page, output)?;
    Ok(())
}

/// Appends the line that says that there is nothing to report, unless something was reported.
fn push_line_unless(is_any: bool, out: &mut Vec<u8>) -> Result<(), AllocError>
    ensures { OnOk result (out.new.items ≡ out.old.items ++ line_unless is_any) }
{
    if is_any {
        return Ok(());
    }
    push_code(
        out,
        b"no neighbour scored below 0, and nothing came to nothing\n",
    )
}

/// Writes the summaries of each peer that is wanted, and returns whether there is one.
fn write_peers<W: Write>(
    plan: &Plan,
    wanted: &Wanted<'_>,
    peers: &[(PeerNo, Finished)],
    page: &mut Vec<u8>,
    output: &mut W,
) -> Result<bool, TraceFault>
    requires range { IsInRange plan.now }
    requires order { AllByRecursion (λ (x : PeerNoValue × FinishedValue). AreInOrder x.1.trace) peers.now }
    ensures any { IfOk result (λ is_any. is_any ≡ is_text (flat_map (summaries_if (wishes_of wanted.now) plan.now) peers.now)) }
    ensures added { OnOk result (Adds (flat_map (summaries_if (wishes_of wanted.now) plan.now) peers.now)
        page.old.items page.new.items (W.contents output.old) (W.contents output.new)) }
    ensures front { OnErr result (AppendsFront (W.contents output.old) (W.contents output.new)
        (page.old.items ++ flat_map (summaries_if (wishes_of wanted.now) plan.now) peers.now)) }
{
    let mut is_any = false;
    for peer in peers {
        let is_said = push_peer_if(plan, wanted, peer, page)?;
        write_full(page, output)?;
        is_any = is_any || is_said;
    }
    Ok(is_any)
}

/// Appends the summaries of a peer, if it is wanted, and returns whether there is one.
fn push_peer_if(
    plan: &Plan,
    wanted: &Wanted<'_>,
    peer: &(PeerNo, Finished),
    out: &mut Vec<u8>,
) -> Result<bool, AllocError>
    requires range { IsInRange plan.now }
    requires order { AreInOrder peer.now.1.trace }
    ensures any { IfOk result (λ is_any. is_any ≡ is_text (summaries_if (wishes_of wanted.now) plan.now peer.now)) }
    ensures added { OnOk result (out.new.items ≡ out.old.items ++ summaries_if (wishes_of wanted.now) plan.now peer.now) }
{
    if has_name(wanted.peer, plan, peer.0) {
        return push_wanted(plan, wanted, peer, out);
    }
    Ok(false)
}

/// Appends the summaries of a peer that is wanted, and returns whether there is one.
fn push_wanted(
    plan: &Plan,
    wanted: &Wanted<'_>,
    peer: &(PeerNo, Finished),
    out: &mut Vec<u8>,
) -> Result<bool, AllocError>
    requires range { IsInRange plan.now }
    requires order { AreInOrder peer.now.1.trace }
    ensures any { IfOk result (λ is_any. is_any ≡ is_text (summaries_of_peer (wishes_of wanted.now) plan.now peer.now)) }
    ensures added { OnOk result (out.new.items ≡ out.old.items ++ summaries_of_peer (wishes_of wanted.now) plan.now peer.now) }
{
    let before = out.len();
    push_peer(plan, wanted, peer, out)?;
    Ok(before < out.len())
}

/// Appends the summaries of a peer.
fn push_peer(
    plan: &Plan,
    wanted: &Wanted<'_>,
    peer: &(PeerNo, Finished),
    out: &mut Vec<u8>,
) -> Result<(), AllocError>
    requires range { IsInRange plan.now }
    requires order { AreInOrder peer.now.1.trace }
    ensures { OnOk result (out.new.items ≡ out.old.items ++ summaries_of_peer (wishes_of wanted.now) plan.now peer.now) }
{
    let alloc = *out.allocator();
    let summaries = summaries_of(alloc, plan, wanted, peer)?;
    let rules = Rulebook::new(alloc, &plan.params)?;
    push_blocks(plan, &rules, peer.0, out, &summaries)
}

/// Appends the summaries of a peer's neighbours.
fn push_blocks(
    plan: &Plan,
    rules: &Rulebook,
    peer: PeerNo,
    out: &mut Vec<u8>,
    summaries: &[Summary],
) -> Result<(), AllocError>
    requires { rules.now ≡ plan.now.params }
    ensures { OnOk result (out.new.items ≡ out.old.items ++ flat_map (summary_block plan.now peer) summaries.now) }
{
    for summary in summaries {
        push_block(plan, rules, peer, out, summary)?;
    }
    Ok(())
}

/// Appends the summary of a neighbour.
fn push_block(
    plan: &Plan,
    rules: &Rulebook,
    peer: PeerNo,
    out: &mut Vec<u8>,
    summary: &Summary,
) -> Result<(), AllocError>
    requires { rules.now ≡ plan.now.params }
    ensures { OnOk result (out.new.items ≡ out.old.items ++ summary_block plan.now peer summary.now) }
{
    let mut lines = Vec::new(*out.allocator());
    push_lines(rules, &mut lines, summary)?;
    push_under_names(plan, peer, summary.neighbour, out, &lines)
}

/// Appends lines below a heading that names the peer and the neighbour, if there are lines.
fn push_under_names(
    plan: &Plan,
    peer: PeerNo,
    neighbour: PeerNo,
    out: &mut Vec<u8>,
    lines: &[u8],
) -> Result<(), AllocError>
    ensures { OnOk result (out.new.items ≡ out.old.items ++ under_names plan.now peer neighbour lines.now) }
{
    if lines.is_empty() {
        return Ok(());
    }
    push_code(out, name_of(plan, peer).as_bytes())?;
    push_code(out, b" scores ")?;
    push_code(out, name_of(plan, neighbour).as_bytes())?;
    push_code(out, b"\n")?;
    push_code(out, lines)
}
