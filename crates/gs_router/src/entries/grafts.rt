//! What neighbours say about their meshes (gossipsub v1.0, "Control messages", GRAFT and PRUNE; v1.1, "Prune Backoff").
ghost use Rattle.std.specs.Prelude.{◌≡◌, IfOk};
ghost use Rattle.gs_base.specs.Names.{topic_or_empty};
ghost use Rattle.gs_rules.specs.Tables.{Entries};
ghost use Rattle.gs_rules.specs.Membership.{is_negative, is_outbound};
ghost use Rattle.gs_rules.specs.MeshRules.{asked_backoff, charged, graft_answer, graft_effects, graft_rule, is_full_for, prune_rule, pruned_by, refusing, taking};
ghost use Rattle.gs_router.specs.Tables.{Agrees};
ghost use Rattle.gs_router.specs.Known.{Knows, peer_with};

use crate::entries::membership;
use crate::entries::selection::{is_explicit, is_outbound};
use crate::entries::thresholds::is_negative;
use crate::known::Known;
use gs_base::{Graft, LONGEST_BACKOFF, Mark, Millis, PeerNo, Prune, Rpc, Seq, Shared, Topic};
use gs_rules::{Effects, GraftAnswer, GraftRefusal};
use std::alloc::{AllocError, Global};

/// Says whether the mesh of a topic has no room for a neighbour that was not dialled.
fn is_full_for(known: &Known, peer: PeerNo, topic: &Topic) -> bool
    ensures { (L : Entries)
        → Agrees known.now.tables L
        → result ≡ is_full_for (peer_with known.now.setup) L peer topic.now }
{
    if known.setup.params.degrees.d_high <= known.tables.memberships.members(topic).len() as u64 {
        return !is_outbound(known, peer);
    }
    false
}

// ---- a GRAFT

/// Returns what becomes of a GRAFT on a topic.
pub fn graft_answer(known: &Known, from: PeerNo, topic: &Topic, now: Millis) -> GraftAnswer
    ensures { (L : Entries)
        → Knows known.now now.0 L
        → result ≡ graft_answer (peer_with known.now.setup) L now.0 from topic.now }
{
    if !known.tables.topics.is_joined(topic) {
        return GraftAnswer::PassedOver;
    }
    if known.tables.memberships.is_member(from, topic) {
        return GraftAnswer::PassedOver;
    }
    if is_explicit(known, from) {
        return GraftAnswer::Refused(GraftRefusal::Explicit);
    }
    if now.0 < known.tables.memberships.backoff_until(from, topic).0 {
        return GraftAnswer::Refused(GraftRefusal::TooSoon);
    }
    if is_negative(known, from, now) {
        return GraftAnswer::Refused(GraftRefusal::Negative);
    }
    if is_full_for(known, from, topic) {
        return GraftAnswer::Refused(GraftRefusal::Full);
    }
    GraftAnswer::Taken
}

/// Refuses a GRAFT: its sender gets a PRUNE, and may not come back for a while.
fn refusing(
    known: &Known,
    from: PeerNo,
    topic: &Topic,
    charged: Seq<Mark>,
    now: Millis,
) -> Result<Effects, AllocError>
    ensures { IfOk result (λ effects. effects ≡ refusing (peer_with known.now.setup) now from topic.now charged) }
{
    let seconds = known.setup.params.timing.prune_backoff_s;
    let rpc = Shared::new(known.alloc, Rpc::pruning(known.alloc, topic, seconds)?)?;
    let sends = Seq::only(known.alloc, (from, rpc))?;
    let pairs = membership::each_on(known.alloc, topic, &[from])?;
    let mut marks = charged;
    membership::bar(&mut marks, pairs.as_slice(), seconds, now)?;
    Ok(Effects {
        sends,
        marks,
        ..Effects::none(known.alloc)
    })
}

/// Lets the sender of a GRAFT come into the mesh.
fn taking(alloc: Global, from: PeerNo, topic: &Topic) -> Result<Effects, AllocError>
    ensures { IfOk result (λ effects. effects ≡ taking from topic.now) }
{
    let pairs = membership::each_on(alloc, topic, &[from])?;
    let mut marks = Seq::new(alloc);
    membership::enter(&mut marks, pairs.as_slice())?;
    Ok(Effects {
        marks,
        ..Effects::none(alloc)
    })
}

/// Returns what counts against the sender of a GRAFT that is refused.
fn charged(alloc: Global, from: PeerNo, why: GraftRefusal) -> Result<Seq<Mark>, AllocError>
    ensures { IfOk result (λ marks. marks ≡ charged from why) }
{
    match why {
        GraftRefusal::Explicit => Ok(Seq::new(alloc)),
        GraftRefusal::TooSoon => Seq::only(alloc, Mark::Misbehaviour(from)),
        GraftRefusal::Negative => Ok(Seq::new(alloc)),
        GraftRefusal::Full => Ok(Seq::new(alloc)),
    }
}

/// Returns the effects of a GRAFT with this answer.
fn graft_effects(
    known: &Known,
    from: PeerNo,
    topic: &Topic,
    answer: GraftAnswer,
    now: Millis,
) -> Result<Effects, AllocError>
    ensures { IfOk result (λ effects. effects
        ≡ graft_effects (peer_with known.now.setup) now from topic.now answer) }
{
    match answer {
        GraftAnswer::PassedOver => Ok(Effects::none(known.alloc)),
        GraftAnswer::Refused(why) => {
            let charged = charged(known.alloc, from, why)?;
            let effects = refusing(known, from, topic, charged, now)?;
            Ok(effects)
        }
        GraftAnswer::Taken => {
            let effects = taking(known.alloc, from, topic)?;
            Ok(effects)
        }
    }
}

/// Returns the effects of a GRAFT. It may come too soon, be refused, be passed over, or bring its sender into the mesh.
pub fn graft(known: &Known, from: PeerNo, graft: &Graft, now: Millis) -> Result<Effects, AllocError>
    ensures { IfOk result (λ effects. (L : Entries)
        → Knows known.now now.0 L
        → effects ≡ graft_rule (peer_with known.now.setup) L now from (topic_or_empty graft.now.topic)) }
{
    let topic = Topic::or_empty(&graft.topic)?;
    let answer = graft_answer(known, from, &topic, now);
    let effects = graft_effects(known, from, &topic, answer, now)?;
    Ok(effects)
}

// ---- a PRUNE

/// Returns for how many seconds the sender of a PRUNE may not be grafted. They are the seconds that the PRUNE names, up to a
/// day, or `otherwise` if it names none or 0.
fn asked_backoff(otherwise: u64, asked: Option<u64>) -> u64
    ensures { result ≡ asked_backoff otherwise asked }
{
    match asked {
        None => otherwise,
        Some(0) => otherwise,
        Some(seconds) => seconds.min(LONGEST_BACKOFF),
    }
}

/// Returns the effects of a PRUNE. If the router is subscribed, the sender leaves the mesh, and may not be grafted for a
/// while.
pub fn prune(known: &Known, from: PeerNo, prune: &Prune, now: Millis) -> Result<Effects, AllocError>
    ensures { IfOk result (λ effects. (L : Entries)
        → Knows known.now now.0 L
        → effects ≡ prune_rule (peer_with known.now.setup) L now from prune.now) }
{
    let topic = Topic::or_empty(&prune.topic)?;
    if !known.tables.topics.is_joined(&topic) {
        return Ok(Effects::none(known.alloc));
    }
    let effects = pruned(known, from, prune, topic, now)?;
    Ok(effects)
}

/// Returns the effects of a PRUNE on a topic that the router is subscribed to.
fn pruned(
    known: &Known,
    from: PeerNo,
    prune: &Prune,
    topic: Topic,
    now: Millis,
) -> Result<Effects, AllocError>
    requires { topic ≡ topic_or_empty prune.now.topic }
    ensures { IfOk result (λ effects. (L : Entries)
        → Knows known.now now.0 L
        → effects ≡ pruned_by (peer_with known.now.setup) L now from prune.now) }
{
    let mut marks = Seq::new(known.alloc);
    let seconds = asked_backoff(known.setup.params.timing.prune_backoff_s, prune.backoff);
    let pairs = membership::each_on(known.alloc, &topic, &[from])?;
    let left = membership::meshes_with(known, from, &[topic])?;
    membership::leave(known, &mut marks, left.as_slice(), now)?;
    membership::bar(&mut marks, pairs.as_slice(), seconds, now)?;
    Ok(Effects {
        marks,
        ..Effects::none(known.alloc)
    })
}
