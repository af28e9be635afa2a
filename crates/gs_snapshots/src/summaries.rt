//! Summarizes each neighbour of a peer, from the peer's trace.
ghost use Rattle.std.specs.Prelude.{◌≡◌, ◌<◌, ◌/◌, ◌∷◌, [], IfOk, List, OnOk, map, reverse};
ghost use Rattle.gs_base.specs.declared.names.PeerNo.{PeerNo as PeerNoValue};
ghost use Rattle.gs_params.specs.declared.params.Thresholds.{Thresholds as ThresholdsValue};
ghost use Rattle.gs_plan.specs.Plans.{IsInRange};
ghost use Rattle.gs_router.specs.Following.{AreInOrder};
ghost use Rattle.gs_rules.specs.FellAway.{fell_away};
ghost use Rattle.gs_rules.specs.declared.trace.Entry.{Entry as EntryValue};
ghost use Rattle.gs_rules.specs.Tables.{Entries};
ghost use Rattle.gs_seats.specs.Rounds.{peer_in};
ghost use Rattle.gs_snapshots.specs.Moments.{newest_moment};
ghost use Rattle.gs_snapshots.specs.Noting.{with_each, with_fallen};
ghost use Rattle.gs_snapshots.specs.Scores.{wanted_neighbours};
ghost use Rattle.gs_snapshots.specs.Summary.{summary_of};
ghost use Rattle.gs_snapshots.specs.Summing.{SumsUp, summaries_in, with_moment, with_moments};
ghost use Rattle.gs_snapshots.specs.Telling.{FollowsPeer};
ghost use Rattle.gs_snapshots.specs.TraceSummaries.{summary_in};
ghost use Rattle.gs_snapshots.specs.Wishes.{wishes_of};

use crate::moments::{Moment, moment_of};
use crate::scores::wanted_neighbours;
use crate::snapshot::snapshot_of;
use crate::summary::Summary;
use crate::wanted::{Wanted, is_in_rounds};
use gs_base::PeerNo;
use gs_plan::Plan;
use gs_report::Finished;
use gs_router::{Followed, Follower};
use gs_rules::Fallen;
use gs_seats::follower_of;
use gs_trace::RoundSpan;
use std::alloc::{AllocError, Global};

/// The peer and the rounds that a summary is about.
#[derive(Clone, Copy, Drop)]
struct Summed<'a> {
    alloc: Global,
    plan: &'a Plan,
    peer: PeerNo,
    rounds: Option<RoundSpan>,
}

/// Returns a summary for each wanted neighbour of a peer, over the wanted rounds.
pub(crate) fn summaries_of(
    alloc: Global,
    plan: &Plan,
    wanted: &Wanted<'_>,
    peer: &(PeerNo, Finished),
) -> Result<Vec<Summary>, AllocError>
    requires range { IsInRange plan.now }
    requires order { AreInOrder peer.now.1.trace }
    ensures { IfOk result (λ list. list.items
        ≡ map (summary_in (wishes_of wanted.now).rounds plan.now peer.now.0 peer.now.1.trace)
        (wanted_neighbours (wishes_of wanted.now) plan.now peer.now.0)) }
{
    let (number, life) = peer;
    let summed = Summed {
        alloc,
        plan,
        peer: *number,
        rounds: wanted.rounds,
    };
    let neighbours = wanted_neighbours(alloc, plan, wanted, *number)?;
    let mut summaries = new_summaries(alloc, &neighbours)?;
    let mut follower = follower_of(alloc, plan, *number, &life.trace)?;
    sum_up(summed, &mut follower, &mut summaries)?;
    Ok(summaries)
}

/// Returns an empty summary for each of these neighbours.
fn new_summaries(alloc: Global, neighbours: &[PeerNo]) -> Result<Vec<Summary>, AllocError>
    ensures { IfOk result (λ list. (thresholds : ThresholdsValue)
        → list.items ≡ map (λ (q : PeerNoValue). summary_of thresholds q [] []) neighbours.now) }
{
    let mut summaries = Vec::new(alloc);
    for neighbour in neighbours {
        summaries.push(Summary::new(alloc, *neighbour))?;
    }
    Ok(summaries)
}

/// Notes all entries that a reader has not seen yet.
fn sum_up(
    summed: Summed<'_>,
    follower: &mut Follower<'_>,
    summaries: &mut [Summary],
) -> Result<(), AllocError>
    requires range { 0 < summed.plan.now.round_ms }
    requires follows { (v : Entries × List EntryValue) × FollowsPeer follower.old summed.plan.now summed.peer v.0 v.1 }
    ensures { OnOk result ((v : Entries × List EntryValue)
        → FollowsPeer follower.old summed.entry.plan.now summed.entry.peer v.0 v.1
        → SumsUp summed.entry v summaries.old summaries.new) }
{
    while let Some(seen) = follower.advance()? {
        note_entry(summed, follower, &seen, summaries)?;
    }
    Ok(())
}

/// Notes the newest entry that a reader has seen, if its round is wanted.
fn note_entry(
    summed: Summed<'_>,
    follower: &Follower<'_>,
    seen: &Followed<'_>,
    summaries: &mut [Summary],
) -> Result<(), AllocError>
    requires { 0 < summed.plan.now.round_ms }
    ensures { OnOk result ((L : Entries) (left : List EntryValue)
        → FollowsPeer follower.now summed.entry.plan.now summed.entry.peer (seen.now.entry.now ∷ L) left
        → seen.now.fallen.items
        ≡ fell_away (peer_in summed.entry.plan.now summed.entry.peer) L seen.now.entry.now.at seen.now.entry.now.event
        → (qs : List PeerNoValue)
        → summaries.old ≡ summaries_in summed.entry qs L
        → summaries.new ≡ summaries_in summed.entry qs (seen.now.entry.now ∷ L)) }
{
    let round = seen.entry.at().0 / summed.plan.round_ms;
    if is_in_rounds(summed.rounds, round) {
        return note_wanted(summed, follower, seen, summaries);
    }
    Ok(())
}

/// Notes the newest entry. Its round is wanted.
fn note_wanted(
    summed: Summed<'_>,
    follower: &Follower<'_>,
    seen: &Followed<'_>,
    summaries: &mut [Summary],
) -> Result<(), AllocError>
    requires { 0 < summed.plan.now.round_ms }
    ensures { OnOk result ((L : Entries) (left : List EntryValue)
        → FollowsPeer follower.now summed.entry.plan.now summed.entry.peer (seen.now.entry.now ∷ L) left
        → summaries.new ≡ with_each seen.now.fallen.items (with_moments summed.entry
        (newest_moment summed.entry.plan.now summed.entry.peer (seen.now.entry.now ∷ L)) summaries.old)) }
{
    note_moment_of(summed, follower, seen, summaries)?;
    note_each(&seen.fallen, summaries);
    Ok(())
}

/// Notes the scores at an entry, if scores are reported then.
fn note_moment_of(
    summed: Summed<'_>,
    follower: &Follower<'_>,
    seen: &Followed<'_>,
    summaries: &mut [Summary],
) -> Result<(), AllocError>
    requires { 0 < summed.plan.now.round_ms }
    ensures { OnOk result ((L : Entries) (left : List EntryValue)
        → FollowsPeer follower.now summed.entry.plan.now summed.entry.peer (seen.now.entry.now ∷ L) left
        → summaries.new
        ≡ with_moments summed.entry (newest_moment summed.entry.plan.now summed.entry.peer (seen.now.entry.now ∷ L)) summaries.old) }
{
    match moment_of(summed.plan, summed.peer, seen.entry) {
        Some(moment) => note_moment(summed, follower, moment, summaries),
        None => Ok(()),
    }
}

/// Notes what each neighbour scores at a moment.
fn note_moment(
    summed: Summed<'_>,
    follower: &Follower<'_>,
    moment: Moment,
    summaries: &mut [Summary],
) -> Result<(), AllocError>
    ensures { OnOk result ((L : Entries) (left : List EntryValue)
        → FollowsPeer follower.now summed.entry.plan.now summed.entry.peer L left
        → summaries.new ≡ map (with_moment summed.entry.plan.now summed.entry.peer (moment, L)) summaries.old) }
{
    for summary in summaries.iter_mut() {
        note_score(summed, follower, moment, summary)?;
    }
    Ok(())
}

/// Notes what a neighbour scores at a moment.
fn note_score(
    summed: Summed<'_>,
    follower: &Follower<'_>,
    moment: Moment,
    summary: &mut Summary,
) -> Result<(), AllocError>
    ensures { OnOk result ((L : Entries) (left : List EntryValue)
        → FollowsPeer follower.now summed.entry.plan.now summed.entry.peer L left
        → summary.new ≡ with_moment summed.entry.plan.now summed.entry.peer (moment, L) summary.old) }
{
    let alloc = summed.alloc;
    let snapshot = snapshot_of(alloc, follower, moment, summary.neighbour)?;
    summary.note_snapshot(&summed.plan.params.thresholds, snapshot)
}

/// Notes each thing that had no effect at an entry.
fn note_each(all: &[Fallen], summaries: &mut [Summary])
    ensures { summaries.new ≡ with_each all.now summaries.old }
{
    for fallen in all {
        note_fallen(fallen, summaries);
    }
}

/// Notes one thing that had no effect.
fn note_fallen(fallen: &Fallen, summaries: &mut [Summary])
    ensures { summaries.new ≡ map (with_fallen fallen.now) summaries.old }
{
    for summary in summaries.iter_mut() {
        summary.note_fallen(fallen);
    }
}
