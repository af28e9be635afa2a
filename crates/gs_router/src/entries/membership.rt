//! What is remembered when neighbours come into meshes and leave them.
ghost use Rattle.std.specs.Prelude.{◌≡◌, ◌+◌, ◌*◌, ◌++◌, min, IfOk, OnOk, map};
ghost use Rattle.std.specs.List.{flat_map};
ghost use Rattle.gs_base.specs.declared.names.PeerNo.{PeerNo as PeerNoValue};
ghost use Rattle.gs_base.specs.declared.names.Topic.{Topic as TopicValue};
ghost use Rattle.gs_base.specs.declared.mark.Mark.TheVariants.{Pruned};
ghost use Rattle.gs_rules.specs.Tables.{Entries, last_millis};
ghost use Rattle.gs_rules.specs.Membership.{barring, deficit_marks, each_on, entering, fanning, leaving, meshes_with, unfanning};
ghost use Rattle.gs_router.specs.Tables.{Agrees};
ghost use Rattle.gs_router.specs.Known.{Knows, peer_with};

use crate::known::Known;
use gs_base::{Mark, Millis, PeerNo, Seq, Topic, clone_of};
use std::alloc::{AllocError, Global};

/// Returns these neighbours, each with one topic.
pub fn each_on(
    alloc: Global,
    topic: &Topic,
    peers: &[PeerNo],
) -> Result<Vec<(PeerNo, Topic)>, AllocError>
    ensures { IfOk result (λ pairs. pairs.items ≡ each_on topic.now peers.now) }
{
    let mut pairs = Vec::new(alloc);
    for peer in peers {
        pairs.push((*peer, clone_of(topic)?))?;
    }
    Ok(pairs)
}

/// Returns a neighbour with each of these topics that has it in its mesh.
pub fn meshes_with(
    known: &Known,
    peer: PeerNo,
    topics: &[Topic],
) -> Result<Vec<(PeerNo, Topic)>, AllocError>
    ensures { IfOk result (λ pairs. (L : Entries)
        → Agrees known.now.tables L
        → pairs.items ≡ meshes_with L peer topics.now) }
{
    let mut pairs = Vec::new(known.alloc);
    for topic in topics {
        if known.tables.memberships.is_member(peer, topic) {
            pairs.push((peer, clone_of(topic)?))?;
        }
    }
    Ok(pairs)
}

/// Adds marks by which these neighbours come into these meshes.
pub fn enter(marks: &mut Seq<Mark>, pairs: &[(PeerNo, Topic)]) -> Result<(), AllocError>
    ensures { OnOk result (marks.new ≡ marks.old ++ entering pairs.now) }
{
    for pair in pairs {
        marks.push(Mark::Grafted(pair.0, clone_of(&pair.1)?))?;
    }
    Ok(())
}

/// Adds marks by which these neighbours leave these meshes. Each is charged with what is missing of its deliveries there.
pub fn leave(
    known: &Known,
    marks: &mut Seq<Mark>,
    pairs: &[(PeerNo, Topic)],
    now: Millis,
) -> Result<(), AllocError>
    ensures { OnOk result ((L : Entries)
        → Knows known.now now.0 L
        → marks.new ≡ marks.old ++ leaving (peer_with known.now.setup) L now.0 pairs.now) }
{
    prune(marks, pairs)?;
    charge_deficits(known, marks, pairs, now)?;
    Ok(())
}

fn prune(marks: &mut Seq<Mark>, pairs: &[(PeerNo, Topic)]) -> Result<(), AllocError>
    ensures { OnOk result (marks.new
        ≡ marks.old ++ map (λ (x : PeerNoValue × TopicValue). Pruned x.0 x.1) pairs.now) }
{
    for pair in pairs {
        marks.push(Mark::Pruned(pair.0, clone_of(&pair.1)?))?;
    }
    Ok(())
}

/// Charges each of these with what is missing of its deliveries in a mesh.
fn charge_deficits(
    known: &Known,
    marks: &mut Seq<Mark>,
    pairs: &[(PeerNo, Topic)],
    now: Millis,
) -> Result<(), AllocError>
    ensures { OnOk result ((L : Entries)
        → Knows known.now now.0 L
        → marks.new ≡ marks.old ++ flat_map (deficit_marks (peer_with known.now.setup) L now.0) pairs.now) }
{
    for pair in pairs {
        charge_deficit(known, marks, pair, now)?;
    }
    Ok(())
}

/// Charges a neighbour with what is missing of its deliveries in a mesh, if anything is.
fn charge_deficit(
    known: &Known,
    marks: &mut Seq<Mark>,
    pair: &(PeerNo, Topic),
    now: Millis,
) -> Result<(), AllocError>
    ensures { OnOk result ((L : Entries)
        → Knows known.now now.0 L
        → marks.new ≡ marks.old ++ deficit_marks (peer_with known.now.setup) L now.0 pair.now) }
{
    let missing = known.tables.standings.missing(pair.0, &pair.1, now);
    if missing == 0 {
        return Ok(());
    }
    marks.push(Mark::Deficit(pair.0, clone_of(&pair.1)?, i128::from(missing)))?;
    Ok(())
}

/// Adds marks by which these neighbours may not come back for a number of seconds.
pub fn bar(
    marks: &mut Seq<Mark>,
    pairs: &[(PeerNo, Topic)],
    seconds: u64,
    now: Millis,
) -> Result<(), AllocError>
    ensures { OnOk result (marks.new ≡ marks.old ++ barring now.0 seconds pairs.now) }
{
    let end = end_of(now, seconds);
    for pair in pairs {
        marks.push(Mark::Backoff(pair.0, clone_of(&pair.1)?, end))?;
    }
    Ok(())
}

/// Returns the moment that is a number of seconds later, or the last one that there is.
fn end_of(now: Millis, seconds: u64) -> Millis
    ensures { result.0 ≡ min last_millis (now.0 + 1_000 * seconds) }
{
    Millis(now.0.saturating_add(seconds.saturating_mul(1_000)))
}

/// Adds marks by which these neighbours come into the fanout of a topic.
pub fn fan(marks: &mut Seq<Mark>, topic: &Topic, peers: &[PeerNo]) -> Result<(), AllocError>
    ensures { OnOk result (marks.new ≡ marks.old ++ fanning topic.now peers.now) }
{
    for peer in peers {
        marks.push(Mark::Fanned(*peer, clone_of(topic)?))?;
    }
    Ok(())
}

/// Adds marks by which these neighbours leave the fanout of a topic.
pub fn unfan(marks: &mut Seq<Mark>, topic: &Topic, peers: &[PeerNo]) -> Result<(), AllocError>
    ensures { OnOk result (marks.new ≡ marks.old ++ unfanning topic.now peers.now) }
{
    for peer in peers {
        marks.push(Mark::Unfanned(*peer, clone_of(topic)?))?;
    }
    Ok(())
}
