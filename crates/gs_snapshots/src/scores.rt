//! Writes the scores of a run over time: by peer, by moment, by neighbour.
ghost use Rattle.std.specs.Io.KnownBytes.{Appends};
ghost use Rattle.std.specs.Prelude.{◌≡◌, ◌<◌, ◌++◌, ◌∷◌, [], IfOk, List, OnErr, OnOk, filter, reverse};
ghost use Rattle.std.specs.List.{flat_map, AllByRecursion};
ghost use Rattle.gs_base.specs.declared.names.PeerNo.{PeerNo as PeerNoValue};
ghost use Rattle.gs_plan.specs.Plans.{IsInRange};
ghost use Rattle.gs_report.specs.declared.finished.Finished.{Finished as FinishedValue};
ghost use Rattle.gs_router.specs.Following.{AreInOrder, Follows, Reading};
ghost use Rattle.gs_rules.specs.declared.trace.Entry.{Entry as EntryValue};
ghost use Rattle.gs_rules.specs.Peers.{Peer};
ghost use Rattle.gs_rules.specs.Tables.{Entries};
ghost use Rattle.gs_seats.specs.Reports.{IsReport};
ghost use Rattle.gs_streams.specs.Streams.{AppendsFront};
ghost use Rattle.gs_trace.specs.Pages.{Adds};
ghost use Rattle.gs_snapshots.specs.Forms.{snapshot_text};
ghost use Rattle.gs_snapshots.specs.Scores.{scores_text, text_of_peer, wanted_neighbours};
ghost use Rattle.gs_snapshots.specs.Telling.{FollowsPeer, text_if, told_at, told_newest, told_of, told_of_each};
ghost use Rattle.gs_snapshots.specs.Wishes.{wishes_of};

use crate::csv::push_rows;
use crate::head::push_head;
use crate::json::push_line;
use crate::moments::{Moment, moment_of};
use crate::snapshot::{Snapshot, snapshot_of};
use crate::wanted::{Form, Wanted, has_name, is_in_rounds};
use gs_base::PeerNo;
use gs_plan::Plan;
use gs_report::{Finished, Report};
use gs_router::Follower;
use gs_rules::StoredEntry;
use gs_seats::{follower_of, neighbours_of, traces_of_a_report_are_in_order};
use gs_trace::{RoundSpan, TraceFault, write_full, write_page};
use std::alloc::{AllocError, Global};
use std::io::Write;

/// What is reported about one peer of a plan.
#[derive(Drop)]
struct Asked<'a> {
    plan: &'a Plan,
    peer: PeerNo,
    /// The neighbours that are reported, by number.
    neighbours: Vec<PeerNo>,
    /// The rounds that are reported. None stands for all.
    rounds: Option<RoundSpan>,
    /// The form of the text.
    form: Option<Form>,
}

/// Writes the scores of a run that are wanted, by peer, then by moment, then by neighbour. docs/OUTPUTS.md explains each
/// field. Each score is the one after what the peer did at that moment. It buffers at most about 64 KiB of text, plus the
/// text of one moment.
///
/// # Errors
/// A `TraceFault` when out of memory, or when a write failed. By then a prefix of the text has been written.
pub fn write_scores<W: Write>(
    alloc: Global,
    plan: &Plan,
    report: &Report,
    wanted: &Wanted<'_>,
    output: &mut W,
) -> Result<(), TraceFault>
    requires range { IsInRange plan.now }
    requires run { IsReport plan.now report.now }
    ensures whole { OnOk result (Appends (W.contents output.old) (W.contents output.new)
        (scores_text (wishes_of wanted.now) plan.now report.now)) }
    ensures front { OnErr result (AppendsFront (W.contents output.old) (W.contents output.new)
        (scores_text (wishes_of wanted.now) plan.now report.now)) }
{
    traces_of_a_report_are_in_order();
    let mut page = Vec::new(alloc);
    push_head(plan, wanted.form, &mut page)?;
    write_peers(plan, wanted, &report.peers, &mut page, output)?;
    write_page(&mut page, output)?;
    Ok(())
}

/// Writes the scores that each wanted peer gives.
fn write_peers<W: Write>(
    plan: &Plan,
    wanted: &Wanted<'_>,
    peers: &[(PeerNo, Finished)],
    page: &mut Vec<u8>,
    output: &mut W,
) -> Result<(), TraceFault>
    requires range { IsInRange plan.now }
    requires order { AllByRecursion (λ (x : PeerNoValue × FinishedValue). AreInOrder x.1.trace) peers.now }
    ensures added { OnOk result (Adds (flat_map (text_if (wishes_of wanted.now) plan.now) peers.now)
        page.old.items page.new.items (W.contents output.old) (W.contents output.new)) }
    ensures front { OnErr result (AppendsFront (W.contents output.old) (W.contents output.new)
        (page.old.items ++ flat_map (text_if (wishes_of wanted.now) plan.now) peers.now)) }
{
    for peer in peers {
        write_peer_if(plan, wanted, peer, page, output)?;
    }
    Ok(())
}

/// Writes the scores that a peer gives, if it is wanted.
fn write_peer_if<W: Write>(
    plan: &Plan,
    wanted: &Wanted<'_>,
    peer: &(PeerNo, Finished),
    page: &mut Vec<u8>,
    output: &mut W,
) -> Result<(), TraceFault>
    requires range { IsInRange plan.now }
    requires order { AreInOrder peer.now.1.trace }
    ensures added { OnOk result (Adds (text_if (wishes_of wanted.now) plan.now peer.now)
        page.old.items page.new.items (W.contents output.old) (W.contents output.new)) }
    ensures front { OnErr result (AppendsFront (W.contents output.old) (W.contents output.new)
        (page.old.items ++ text_if (wishes_of wanted.now) plan.now peer.now)) }
{
    if has_name(wanted.peer, plan, peer.0) {
        return write_peer(plan, wanted, peer, page, output);
    }
    Ok(())
}

/// Writes the scores that a peer gives.
fn write_peer<W: Write>(
    plan: &Plan,
    wanted: &Wanted<'_>,
    peer: &(PeerNo, Finished),
    page: &mut Vec<u8>,
    output: &mut W,
) -> Result<(), TraceFault>
    requires range { IsInRange plan.now }
    requires order { AreInOrder peer.now.1.trace }
    ensures added { OnOk result (Adds (text_of_peer (wishes_of wanted.now) plan.now peer.now)
        page.old.items page.new.items (W.contents output.old) (W.contents output.new)) }
    ensures front { OnErr result (AppendsFront (W.contents output.old) (W.contents output.new)
        (page.old.items ++ text_of_peer (wishes_of wanted.now) plan.now peer.now)) }
{
    let (number, life) = peer;
    let alloc = *page.allocator();
    let asked = Asked {
        plan,
        peer: *number,
        neighbours: wanted_neighbours(alloc, plan, wanted, *number)?,
        rounds: wanted.rounds,
        form: wanted.form,
    };
    let mut follower = follower_of(alloc, plan, *number, &life.trace)?;
    write_entries(&asked, &mut follower, life.trace.entries(), page, output)
}

/// Returns the neighbours of a peer that are wanted, by number.
pub(crate) fn wanted_neighbours(
    alloc: Global,
    plan: &Plan,
    wanted: &Wanted<'_>,
    number: PeerNo,
) -> Result<Vec<PeerNo>, AllocError>
    requires { IsInRange plan.now }
    ensures { IfOk result (λ list. list.items ≡ wanted_neighbours (wishes_of wanted.now) plan.now number) }
{
    let neighbours = neighbours_of(alloc, plan, number)?;
    let mut list = Vec::new(alloc);
    for neighbour in &neighbours {
        if has_name(wanted.neighbour, plan, neighbour.peer) {
            list.push(neighbour.peer)?;
        }
    }
    Ok(list)
}

/// Writes the scores that a peer gives at those of its entries at which scores are reported, if their rounds are wanted. The
/// reader has seen none of these entries yet.
fn write_entries<W: Write>(
    asked: &Asked<'_>,
    follower: &mut Follower<'_>,
    entries: &[StoredEntry],
    page: &mut Vec<u8>,
    output: &mut W,
) -> Result<(), TraceFault>
    requires range { 0 < asked.now.plan.now.round_ms }
    requires follows { FollowsPeer follower.old asked.now.plan.now asked.now.peer [] entries.now }
    ensures added { OnOk result (Adds (told_at asked.now (reverse entries.now))
        page.old.items page.new.items (W.contents output.old) (W.contents output.new)) }
    ensures front { OnErr result (AppendsFront (W.contents output.old) (W.contents output.new)
        (page.old.items ++ told_at asked.now (reverse entries.now))) }
{
    for entry in entries {
        see_next(follower)?;
        push_entry(asked, page, follower, entry)?;
        write_full(page, output)?;
    }
    Ok(())
}

/// Advances a reader to the next entry.
fn see_next(follower: &mut Follower<'_>) -> Result<(), AllocError>
    requires { (v : Reading) × Follows follower.old v }
    ensures { OnOk result ((p : Peer) (L : Entries) (e : EntryValue) (left : List EntryValue)
        → Follows follower.old (record { peer = p; before = L; left = e ∷ left })
        → Follows follower.new (record { peer = p; before = e ∷ L; left = left })) }
{
    follower.advance()?;
    Ok(())
}

/// Appends the scores at an entry, if scores are reported then and its round is wanted. The entry is the newest one that the
/// peer's reader has seen.
fn push_entry(
    asked: &Asked<'_>,
    out: &mut Vec<u8>,
    follower: &Follower<'_>,
    entry: &StoredEntry,
) -> Result<(), AllocError>
    requires { 0 < asked.now.plan.now.round_ms }
    ensures { OnOk result ((L : Entries) (left : List EntryValue)
        → FollowsPeer follower.now asked.now.plan.now asked.now.peer (entry.now ∷ L) left
        → out.new.items ≡ out.old.items ++ told_newest asked.now (entry.now ∷ L)) }
{
    match moment_of(asked.plan, asked.peer, entry) {
        Some(moment) => push_moment_if(asked, out, follower, moment),
        None => Ok(()),
    }
}

/// Appends the scores at a moment, if its round is wanted.
fn push_moment_if(
    asked: &Asked<'_>,
    out: &mut Vec<u8>,
    follower: &Follower<'_>,
    moment: Moment,
) -> Result<(), AllocError>
    ensures { OnOk result ((L : Entries) (left : List EntryValue)
        → FollowsPeer follower.now asked.now.plan.now moment.peer L left
        → out.new.items ≡ out.old.items ++ told_of_each asked.now ((moment, L) ∷ [])) }
{
    if is_in_rounds(asked.rounds, moment.round) {
        return push_moment(asked, out, follower, moment);
    }
    Ok(())
}

/// Appends the score of each wanted neighbour at a moment.
fn push_moment(
    asked: &Asked<'_>,
    out: &mut Vec<u8>,
    follower: &Follower<'_>,
    moment: Moment,
) -> Result<(), AllocError>
    ensures { OnOk result ((L : Entries) (left : List EntryValue)
        → FollowsPeer follower.now asked.now.plan.now moment.peer L left
        → out.new.items ≡ out.old.items ++ told_of asked.now (moment, L)) }
{
    for neighbour in &asked.neighbours {
        let snapshot = snapshot_of(*out.allocator(), follower, moment, *neighbour)?;
        push_snapshot(asked.plan, asked.form, out, &snapshot)?;
    }
    Ok(())
}

/// Appends a snapshot in a form.
#[tactic(auto, unfolding(crate::specs::Forms::snapshot_text))]
fn push_snapshot(
    plan: &Plan,
    form: Option<Form>,
    out: &mut Vec<u8>,
    snapshot: &Snapshot,
) -> Result<(), AllocError>
    ensures { OnOk result (out.new.items ≡ out.old.items ++ snapshot_text form plan.now snapshot.now) }
{
    match form {
        None => push_line(plan, out, snapshot),
        Some(Form::Json) => push_line(plan, out, snapshot),
        Some(Form::Csv) => push_rows(plan, out, snapshot),
    }
}
