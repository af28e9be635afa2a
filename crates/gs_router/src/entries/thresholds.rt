//! Which neighbours have lost some of their standing (gossipsub v1.1, Peer Scoring, "Score Thresholds").
ghost use Rattle.std.specs.Prelude.{◌≡◌, IfOk};
ghost use Rattle.gs_base.specs.declared.names.PeerNo.{PeerNo as PeerNoValue};
ghost use Rattle.gs_rules.specs.Tables.{Entries};
ghost use Rattle.gs_rules.specs.Membership.{is_negative};
ghost use Rattle.gs_rules.specs.Scoring.{is_below, is_graylisted, is_ignored, score};
ghost use Rattle.gs_rules.specs.Rules.{without};
ghost use Rattle.gs_router.specs.Known.{Knows, peer_with};

use crate::entries::selection::is_explicit;
use crate::known::Known;
use gs_base::{Millis, PeerNo};
use std::alloc::AllocError;

/// Says whether the score of a neighbour is below a threshold, in millionths.
pub fn is_below(known: &Known, threshold: i64, peer: PeerNo, now: Millis) -> bool
    ensures { (L : Entries)
        → Knows known.now now.0 L
        → result ≡ is_below threshold (score (peer_with known.now.setup) L now.0 peer) }
{
    known.tables.standings.score(peer, now) < i128::from(threshold)
}

/// Says whether a neighbour scores below 0, and so may neither stay in a mesh nor come into one (gossipsub v1.1, "Heartbeat
/// Maintenance").
pub fn is_negative(known: &Known, peer: PeerNo, now: Millis) -> bool
    ensures { (L : Entries)
        → Knows known.now now.0 L
        → result ≡ is_negative (peer_with known.now.setup) L now.0 peer }
{
    is_below(known, 0, peer, now)
}

/// Says whether the offers and the requests of a neighbour are ignored.
pub fn is_ignored(known: &Known, peer: PeerNo, now: Millis) -> bool
    ensures { (L : Entries)
        → Knows known.now now.0 L
        → result ≡ is_ignored (peer_with known.now.setup) L now.0 peer }
{
    is_below(
        known,
        known.setup.params.thresholds.gossip_threshold,
        peer,
        now,
    )
}

/// Says whether nothing that a neighbour sends counts. The graylist has no explicit neighbour (gossipsub v1.1, "Explicit
/// Peering Agreements").
pub fn is_graylisted(known: &Known, peer: PeerNo, now: Millis) -> bool
    ensures { (L : Entries)
        → Knows known.now now.0 L
        → result ≡ is_graylisted (peer_with known.now.setup) L now.0 peer }
{
    !is_explicit(known, peer)
        && is_below(
            known,
            known.setup.params.thresholds.graylist_threshold,
            peer,
            now,
        )
}

/// Returns those of these neighbours that do not score below a threshold, in millionths.
pub fn not_below(
    known: &Known,
    threshold: i64,
    peers: &[PeerNo],
    now: Millis,
) -> Result<Vec<PeerNo>, AllocError>
    ensures { IfOk result (λ found. (L : Entries)
        → Knows known.now now.0 L
        → found.items
        ≡ without (λ (q : PeerNoValue). is_below threshold (score (peer_with known.now.setup) L now.0 q)) peers.now) }
{
    let mut found = Vec::new(known.alloc);
    for peer in peers {
        if !is_below(known, threshold, *peer, now) {
            found.push(*peer)?;
        }
    }
    Ok(found)
}
