//! Which neighbours may be sent something, and which may be grafted.
ghost use Rattle.std.specs.Prelude.{◌≡◌, ◌&&◌, IfOk, filter};
ghost use Rattle.gs_rules.specs.Peers.{is_explicit, links_of};
ghost use Rattle.gs_rules.specs.Tables.{Entries, up};
ghost use Rattle.gs_rules.specs.Membership.{candidates, is_candidate, is_outbound};
ghost use Rattle.gs_rules.specs.MeshRules.{receivers as receivers_of};
ghost use Rattle.gs_rules.specs.Rules.{explicit_listeners, listeners, ordinary_listeners, up_neighbours, without};
ghost use Rattle.gs_rules.specs.Scoring.{is_passed_over};
ghost use Rattle.gs_router.specs.PeerSets.{has};
ghost use Rattle.gs_router.specs.Tables.{Agrees};
ghost use Rattle.gs_router.specs.Known.{Knows, ListsExplicit, peer_with};

use crate::entries::thresholds;
use crate::known::Known;
use crate::peer_lists::those_outside;
use crate::peer_set::PeerSet;
use gs_base::{Millis, PeerNo, Topic};
use std::alloc::AllocError;

// ---- which neighbours may be sent something

/// Returns the neighbours that are up, ascending by number.
pub fn up_neighbours(known: &Known) -> Result<Vec<PeerNo>, AllocError>
    ensures { IfOk result (λ receivers. (L : Entries)
        → Agrees known.now.tables L
        → receivers.items ≡ up_neighbours (peer_with known.now.setup) L) }
{
    let mut receivers = Vec::new(known.alloc);
    for neighbour in &known.setup.neighbours {
        if known.tables.neighbours.is_up(neighbour.peer) {
            receivers.push(neighbour.peer)?;
        }
    }
    Ok(receivers)
}

/// Returns the neighbours that are up and on a topic.
pub fn listeners(known: &Known, topic: &Topic) -> Result<Vec<PeerNo>, AllocError>
    ensures { IfOk result (λ receivers. (L : Entries)
        → Agrees known.now.tables L
        → receivers.items ≡ listeners (peer_with known.now.setup) L topic.now) }
{
    match known.tables.listeners.of(topic) {
        Some(set) => {
            let receivers = up_among(known, set)?;
            Ok(receivers)
        }
        None => Ok(Vec::new(known.alloc)),
    }
}

fn up_among(known: &Known, set: &PeerSet) -> Result<Vec<PeerNo>, AllocError>
    ensures { IfOk result (λ receivers. (L : Entries)
        → Agrees known.now.tables L
        → receivers.items ≡ filter (λ q. up L q && has set.now q) (links_of (peer_with known.now.setup))) }
{
    let mut receivers = Vec::new(known.alloc);
    for neighbour in &known.setup.neighbours {
        if known.tables.neighbours.is_up(neighbour.peer) && set.contains(neighbour.peer) {
            receivers.push(neighbour.peer)?;
        }
    }
    Ok(receivers)
}

/// Says whether a neighbour is explicit (gossipsub v1.1, "Explicit Peering Agreements").
pub fn is_explicit(known: &Known, peer: PeerNo) -> bool
    ensures { ListsExplicit known.now.setup → result ≡ is_explicit (peer_with known.now.setup) peer }
{
    known.setup.explicit.contains(&peer)
}

/// Returns the explicit neighbours that are up and on a topic.
pub fn explicit_listeners(known: &Known, topic: &Topic) -> Result<Vec<PeerNo>, AllocError>
    ensures { IfOk result (λ found. (L : Entries)
        → Agrees known.now.tables L
        → ListsExplicit known.now.setup
        → found.items ≡ explicit_listeners (peer_with known.now.setup) L topic.now) }
{
    let mut found = Vec::new(known.alloc);
    for peer in &known.setup.explicit {
        if known.tables.neighbours.is_up(*peer) && known.tables.listeners.is_on(*peer, topic) {
            found.push(*peer)?;
        }
    }
    Ok(found)
}

/// Returns the neighbours that are up and on a topic, without the explicit ones.
pub fn ordinary_listeners(known: &Known, topic: &Topic) -> Result<Vec<PeerNo>, AllocError>
    ensures { IfOk result (λ found. (L : Entries)
        → Agrees known.now.tables L
        → ListsExplicit known.now.setup
        → found.items ≡ ordinary_listeners (peer_with known.now.setup) L topic.now) }
{
    let listeners = listeners(known, topic)?;
    let explicit = known.setup.explicit.as_slice();
    if explicit.is_empty() {
        return Ok(listeners);
    }
    let found = those_outside(known.alloc, explicit, &listeners)?;
    Ok(found)
}

/// Returns the neighbours that may be in the fanout of a topic.
pub fn receivers(known: &Known, topic: &Topic, now: Millis) -> Result<Vec<PeerNo>, AllocError>
    ensures { IfOk result (λ receivers. (L : Entries)
        → Knows known.now now.0 L
        → receivers.items ≡ receivers_of (peer_with known.now.setup) L now.0 topic.now) }
{
    let listeners = ordinary_listeners(known, topic)?;
    let receivers = not_passed_over(known, &listeners, now)?;
    Ok(receivers)
}

/// Returns those of these neighbours that are not below the threshold.
pub fn not_passed_over(
    known: &Known,
    peers: &[PeerNo],
    now: Millis,
) -> Result<Vec<PeerNo>, AllocError>
    ensures { IfOk result (λ receivers. (L : Entries)
        → Knows known.now now.0 L
        → receivers.items ≡ without (is_passed_over (peer_with known.now.setup) L now.0) peers.now) }
{
    let threshold = known.setup.params.thresholds.publish_threshold;
    let receivers = thresholds::not_below(known, threshold, peers, now)?;
    Ok(receivers)
}

// ---- who may be grafted

/// Says whether this side dialled a neighbour (gossipsub v1.1, "Outbound Mesh Quotas").
pub fn is_outbound(known: &Known, peer: PeerNo) -> bool
    ensures { result ≡ is_outbound (peer_with known.now.setup) peer }
{
    known
        .setup
        .neighbours
        .iter()
        .any(|neighbour| peer == neighbour.peer && neighbour.outbound)
}

/// Whether a neighbour may be grafted to the mesh of a topic.
fn is_candidate(known: &Known, peer: PeerNo, topic: &Topic, now: Millis) -> bool
    ensures { (L : Entries)
        → Knows known.now now.0 L
        → result ≡ is_candidate (peer_with known.now.setup) L now.0 topic.now peer }
{
    !is_explicit(known, peer)
        && known.tables.neighbours.is_up(peer)
        && known.tables.listeners.is_on(peer, topic)
        && !known.tables.memberships.is_member(peer, topic)
        && known.tables.memberships.backoff_until(peer, topic).0 <= now.0
        && !thresholds::is_negative(known, peer, now)
}

/// Returns the neighbours that may be grafted to the mesh of a topic.
pub fn candidates(known: &Known, topic: &Topic, now: Millis) -> Result<Vec<PeerNo>, AllocError>
    ensures { IfOk result (λ found. (L : Entries)
        → Knows known.now now.0 L
        → found.items ≡ candidates (peer_with known.now.setup) L now.0 topic.now) }
{
    let mut found = Vec::new(known.alloc);
    for neighbour in &known.setup.neighbours {
        if is_candidate(known, neighbour.peer, topic, now) {
            found.push(neighbour.peer)?;
        }
    }
    Ok(found)
}
