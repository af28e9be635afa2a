//! Neighbours that subscribe to a topic, or leave it (gossipsub v1.0, "Topic Membership").
ghost use Rattle.std.specs.Prelude.{◌≡◌, IfOk};
ghost use Rattle.gs_rules.specs.Tables.{Entries};
ghost use Rattle.gs_rules.specs.MeshRules.{fanned_of, left_by, sub_rule};
ghost use Rattle.gs_router.specs.Tables.{Agrees};
ghost use Rattle.gs_router.specs.Known.{Knows, peer_with};

use crate::entries::membership;
use crate::known::Known;
use gs_base::{Millis, PeerNo, Seq, SubOpt, Topic, clone_of};
use gs_rules::Effects;
use std::alloc::AllocError;

/// Returns the effects of a neighbour that subscribes to a topic, or leaves it.
pub fn effects_of(
    known: &Known,
    from: PeerNo,
    sub: &SubOpt,
    now: Millis,
) -> Result<Effects, AllocError>
    ensures { IfOk result (λ effects. (L : Entries)
        → Knows known.now now.0 L
        → effects ≡ sub_rule (peer_with known.now.setup) L now from sub.now) }
{
    if sub.subscribe.unwrap_or(false) {
        return Ok(Effects::none(known.alloc));
    }
    let effects = leaving(known, from, sub, now)?;
    Ok(effects)
}

/// Returns the effects of a neighbour that leaves a topic. It leaves the mesh and the fanout.
fn leaving(known: &Known, from: PeerNo, sub: &SubOpt, now: Millis) -> Result<Effects, AllocError>
    ensures { IfOk result (λ effects. (L : Entries)
        → Knows known.now now.0 L
        → effects ≡ left_by (peer_with known.now.setup) L now from sub.now) }
{
    let topic = sub.topic_or_empty()?;
    let mut marks = Seq::new(known.alloc);
    let left = membership::meshes_with(known, from, &[clone_of(&topic)?])?;
    membership::leave(known, &mut marks, left.as_slice(), now)?;
    let fanned = fanned_of(known, &topic, from)?;
    membership::unfan(&mut marks, &topic, &fanned)?;
    Ok(Effects {
        marks,
        ..Effects::none(known.alloc)
    })
}

fn fanned_of(known: &Known, topic: &Topic, peer: PeerNo) -> Result<Vec<PeerNo>, AllocError>
    ensures { IfOk result (λ found. (L : Entries)
        → Agrees known.now.tables L
        → found.items ≡ fanned_of L topic.now peer) }
{
    let mut found = Vec::new(known.alloc);
    if known.tables.memberships.is_fanned(peer, topic) {
        found.push(peer)?;
        return Ok(found);
    }
    Ok(found)
}
