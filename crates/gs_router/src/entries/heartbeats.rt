//! Heartbeats: broken promises count against the neighbours that made them, and neighbours are sent gossip.
ghost use Rattle.std.specs.Prelude.{◌≡◌, ◌++◌, ◌&&◌, ◌||◌, [], ◌∷◌, IfOk, OnOk, if◌then◌else◌, map, nat_le};
ghost use Rattle.gs_base.specs.Names.{same_peer};
ghost use Rattle.gs_base.specs.declared.mark.Mark.TheVariants.{Misbehaviour};
ghost use Rattle.gs_rules.specs.Tables.{Entries};
ghost use Rattle.gs_rules.specs.Gossip.{all_charges, charges, gossip_size};
ghost use Rattle.gs_base.specs.declared.names.PeerNo.{PeerNo as PeerNoValue};
ghost use Rattle.gs_mesh.specs.Peers.{is_among};
ghost use Rattle.gs_rules.specs.Meshes.{fanout, mesh};
ghost use Rattle.gs_rules.specs.Rules.{beat_begin_rule, gossip_candidates, gossip_rule, gossiping, without};
ghost use Rattle.gs_rules.specs.Modes.{Follows, exact};
ghost use Rattle.gs_router.specs.Tables.{Agrees, AreMadeFor};
ghost use Rattle.gs_router.specs.Known.{IsFit, Knows, peer_with};

use crate::entries::selection::ordinary_listeners;
use crate::entries::sends::to_each;
use crate::entries::thresholds;
use crate::known::Known;
use crate::setup::Setup;
use gs_base::{Mark, Millis, PeerNo, Rpc, Seq, Topic};
use gs_params::{Words, pick};
use gs_rules::{Effects, Promise};
use std::alloc::AllocError;

// ---- promises

/// Returns the effects of the beginning of a heartbeat.
pub fn beat_begin(known: &Known, now: Millis) -> Result<Effects, AllocError>
    ensures { IfOk result (λ effects. (L : Entries)
        → Agrees known.now.tables L
        → effects ≡ beat_begin_rule (peer_with known.now.setup) L now) }
{
    let marks = all_charges(known, now)?;
    Ok(Effects {
        marks,
        ..Effects::none(known.alloc)
    })
}

/// Returns a mark for each broken promise of a neighbour that is up.
fn all_charges(known: &Known, now: Millis) -> Result<Seq<Mark>, AllocError>
    ensures { IfOk result (λ list. (L : Entries)
        → Agrees known.now.tables L
        → list ≡ all_charges (peer_with known.now.setup) L now.0) }
{
    let mut marks = Seq::new(known.alloc);
    for neighbour in &known.setup.neighbours {
        charge_broken_promises(known, &mut marks, neighbour.peer, now)?;
    }
    Ok(marks)
}

/// Adds a mark for each broken promise of a neighbour, if that is up.
fn charge_broken_promises(
    known: &Known,
    marks: &mut Seq<Mark>,
    peer: PeerNo,
    now: Millis,
) -> Result<(), AllocError>
    ensures { OnOk result ((L : Entries)
        → Agrees known.now.tables L
        → marks.new ≡ marks.old ++ charges L now.0 peer) }
{
    if !known.tables.neighbours.is_up(peer) {
        return Ok(());
    }
    for promise in known.tables.promises.waiting() {
        charge_for(marks, promise, peer, now)?;
    }
    Ok(())
}

/// Adds a mark for a promise, if it is a neighbour's and its time has come.
fn charge_for(
    marks: &mut Seq<Mark>,
    promise: &Promise,
    peer: PeerNo,
    now: Millis,
) -> Result<(), AllocError>
    ensures { OnOk result (marks.new
        ≡ marks.old
        ++ (if same_peer promise.now.from peer && nat_le promise.now.until.0 now.0
        then Misbehaviour peer ∷ []
        else [])) }
{
    if promise.from == peer && promise.until.0 <= now.0 {
        marks.push(Mark::Misbehaviour(peer))?;
        return Ok(());
    }
    Ok(())
}

// ---- gossip

/// Returns the effects of gossip on a topic.
pub fn gossip<W: Words>(
    known: &Known,
    topic: &Topic,
    now: Millis,
    words: &mut W,
) -> Result<Effects, AllocError>
    requires fit { IsFit known.now.setup }
    requires knows { (L : Entries) × Knows known.now now.0 L }
    ensures { IfOk result (λ effects. (L : Entries)
        → Knows known.now now.0 L
        → Follows (exact W.word W.after) (gossip_rule (peer_with known.now.setup) L now topic.now)
        words.old effects words.new) }
{
    let gossip_candidates = gossip_candidates(known, topic, now)?;
    let size = gossip_size(&known.setup, gossip_candidates.len());
    let chosen = pick(known.alloc, &gossip_candidates, size, words)?;
    let effects = gossiping(known, topic, &chosen)?;
    Ok(effects)
}

/// Returns the neighbours that may be sent gossip on a topic.
fn gossip_candidates(known: &Known, topic: &Topic, now: Millis) -> Result<Vec<PeerNo>, AllocError>
    ensures { IfOk result (λ found. (L : Entries)
        → Knows known.now now.0 L
        → found.items ≡ gossip_candidates (peer_with known.now.setup) L now.0 topic.now) }
{
    let listeners = ordinary_listeners(known, topic)?;
    let outside = outside_mesh_and_fanout(known, topic, &listeners)?;
    let threshold = known.setup.params.thresholds.gossip_threshold;
    let gossip_candidates = thresholds::not_below(known, threshold, &outside, now)?;
    Ok(gossip_candidates)
}

/// Those of these neighbours that are neither in the mesh of a topic nor in its fanout.
fn outside_mesh_and_fanout(
    known: &Known,
    topic: &Topic,
    peers: &[PeerNo],
) -> Result<Vec<PeerNo>, AllocError>
    ensures { IfOk result (λ found. (L : Entries)
        → Agrees known.now.tables L
        → found.items
        ≡ without (λ (q : PeerNoValue). is_among (mesh L topic.now) q || is_among (fanout L topic.now) q) peers.now) }
{
    let mut found = Vec::new(known.alloc);
    for peer in peers {
        if !is_inside(known, topic, *peer) {
            found.push(*peer)?;
        }
    }
    Ok(found)
}

fn is_inside(known: &Known, topic: &Topic, peer: PeerNo) -> bool
    ensures { (L : Entries)
        → Agrees known.now.tables L
        → result ≡ (is_among (mesh L topic.now) peer || is_among (fanout L topic.now) peer) }
{
    known.tables.memberships.is_member(peer, topic)
        || known.tables.memberships.is_fanned(peer, topic)
}

/// Returns how many of `count` neighbours are sent gossip.
fn gossip_size(setup: &Setup, count: usize) -> usize
    ensures { result ≡ gossip_size (peer_with setup.now) count }
{
    let part = u128::from(setup.params.factors.gossip_factor) * (count as u128) / 1_000_000;
    let size = part.max(u128::from(setup.params.degrees.d_lazy));
    size.min(count as u128) as usize
}

/// Returns the effects of gossip on a topic that is sent to these neighbours.
fn gossiping(known: &Known, topic: &Topic, chosen: &[PeerNo]) -> Result<Effects, AllocError>
    ensures { IfOk result (λ effects. (L : Entries)
        → Agrees known.now.tables L
        → AreMadeFor known.now.tables (peer_with known.now.setup)
        → effects ≡ gossiping (peer_with known.now.setup) L topic.now chosen.now) }
{
    // (listed here and not before, so that no list waits while other topics are gossiped)
    let ids = known.tables.messages.gossip_ids(topic)?;
    let rpc = Rpc::offering(known.alloc, topic, ids.as_slice())?;
    let sends = to_each(known.alloc, rpc, chosen)?;
    Ok(Effects {
        sends,
        ..Effects::none(known.alloc)
    })
}
