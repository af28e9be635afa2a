//! Subscribing to a topic, and leaving it (gossipsub v1.0, "Topic Membership").
ghost use Rattle.std.specs.Prelude.{◌≡◌, ◌-◌, ℕ, IfOk, length};
ghost use Rattle.gs_base.specs.Rpcs.{announcement};
ghost use Rattle.gs_rules.specs.declared.event.Event.TheVariants as events;
ghost use Rattle.gs_plan.specs.declared.plan.Act.TheVariants as acts;
ghost use Rattle.gs_rules.specs.Peers.{Peer};
ghost use Rattle.gs_rules.specs.Tables.{Entries};
ghost use Rattle.gs_rules.specs.MeshRules.{joining, subscribe_rule, unsubscribe_rule};
ghost use Rattle.gs_rules.specs.Rules.{to_each, up_neighbours};
ghost use Rattle.gs_rules.specs.Modes.{Follows, exact};
ghost use Rattle.gs_rules.specs.Refusals.{refusal};
ghost use Rattle.gs_router.specs.Tables.{Agrees};
ghost use Rattle.gs_router.specs.Known.{IsFit, Knows, peer_with};

use crate::entries::membership;
use crate::entries::selection::{candidates, up_neighbours};
use crate::entries::sends::{send_to_each, to_each};
use crate::known::Known;
use crate::peer_lists::{left_of, those_among, those_outside};
use gs_base::{LONGEST_TOPIC, Millis, PeerNo, Rpc, Seq, Shared, Topic};
use gs_params::{Words, pick};
use gs_rules::{Effects, Refusal};
use std::alloc::AllocError;

/// Returns an announcement to every neighbour that is up.
fn announced(
    known: &Known,
    subscribes: bool,
    topic: &Topic,
) -> Result<Seq<(PeerNo, Shared<Rpc>)>, AllocError>
    ensures { IfOk result (λ sends. (L : Entries)
        → Agrees known.now.tables L
        → sends ≡ to_each (announcement subscribes topic.now) (up_neighbours (peer_with known.now.setup) L)) }
{
    let receivers = up_neighbours(known)?;
    let rpc = Rpc::announcement(known.alloc, subscribes, topic)?;
    let sends = to_each(known.alloc, rpc, &receivers)?;
    Ok(sends)
}

/// Returns the effects of a subscription to a topic. Its mesh is made of members of its fanout that may be grafted, and of
/// others.
pub fn subscribe<W: Words>(
    known: &Known,
    topic: &Topic,
    now: Millis,
    words: &mut W,
) -> Result<Effects, AllocError>
    requires fit { IsFit known.now.setup }
    requires knows { (L : Entries) × Knows known.now now.0 L }
    ensures { IfOk result (λ effects. (L : Entries)
        → Knows known.now now.0 L
        → Follows (exact W.word W.after) (subscribe_rule (peer_with known.now.setup) L now topic.now)
        words.old effects words.new) }
{
    let candidates = candidates(known, topic, now)?;
    let size = known.setup.params.degrees.d as usize;
    let fanout = known.tables.memberships.fanout(topic);
    let near = those_among(known.alloc, fanout, &candidates)?;
    let first = pick(known.alloc, &near, size, words)?;
    let left = left_of(size, &first);
    let far = those_outside(known.alloc, fanout, &candidates)?;
    let mut others = pick(known.alloc, &far, left, words)?;
    let mut chosen = first;
    chosen.append(&mut others)?;
    let grafted = those_among(known.alloc, &chosen, &candidates)?;
    let effects = joining(known, topic, &grafted)?;
    Ok(effects)
}

/// Returns the effects of a subscription by which these come into the mesh of its topic.
fn joining(known: &Known, topic: &Topic, chosen: &[PeerNo]) -> Result<Effects, AllocError>
    ensures { IfOk result (λ effects. (L : Entries)
        → Agrees known.now.tables L
        → effects ≡ joining (peer_with known.now.setup) L topic.now chosen.now) }
{
    let mut sends = announced(known, true, topic)?;
    send_to_each(
        known.alloc,
        &mut sends,
        Rpc::grafting(known.alloc, topic)?,
        chosen,
    )?;
    let mut marks = Seq::new(known.alloc);
    let pairs = membership::each_on(known.alloc, topic, chosen)?;
    membership::enter(&mut marks, pairs.as_slice())?;
    membership::unfan(&mut marks, topic, known.tables.memberships.fanout(topic))?;
    Ok(Effects {
        sends,
        marks,
        ..Effects::none(known.alloc)
    })
}

/// Returns the effects of the end of a subscription. Each member of the mesh gets a PRUNE, and may not come back for a
/// while.
pub fn unsubscribe(known: &Known, topic: &Topic, now: Millis) -> Result<Effects, AllocError>
    ensures { IfOk result (λ effects. (L : Entries)
        → Knows known.now now.0 L
        → effects ≡ unsubscribe_rule (peer_with known.now.setup) L now topic.now) }
{
    let seconds = known.setup.params.timing.unsubscribe_backoff_s;
    let members = known.tables.memberships.members(topic);
    let mut sends = announced(known, false, topic)?;
    send_to_each(
        known.alloc,
        &mut sends,
        Rpc::pruning(known.alloc, topic, seconds)?,
        members,
    )?;
    let mut marks = Seq::new(known.alloc);
    let pairs = membership::each_on(known.alloc, topic, members)?;
    membership::leave(known, &mut marks, pairs.as_slice(), now)?;
    membership::bar(&mut marks, pairs.as_slice(), seconds, now)?;
    Ok(Effects {
        sends,
        marks,
        ..Effects::none(known.alloc)
    })
}

/// Returns why the router may not subscribe to a topic, if that is so.
pub fn refusal_of_subscribe(known: &Known, topic: &Topic) -> Option<Refusal>
    ensures { (p : Peer) (L : Entries) (at : ℕ)
        → Agrees known.now.tables L
        → result ≡ refusal p L at (events.Own (acts.Subscribe topic.now)) }
{
    if known.tables.neighbours.is_shut() {
        return Some(Refusal::Stopped);
    }
    if topic.0.len() > LONGEST_TOPIC {
        return Some(Refusal::TooLong);
    }
    if known.tables.topics.is_joined(topic) {
        return Some(Refusal::Joined);
    }
    if !known.tables.topics.has_room_for(topic) {
        return Some(Refusal::TooMany);
    }
    None
}

/// Returns why the router may not leave a topic, if that is so.
pub fn refusal_of_unsubscribe(known: &Known, topic: &Topic) -> Option<Refusal>
    ensures { (p : Peer) (L : Entries) (at : ℕ)
        → Agrees known.now.tables L
        → result ≡ refusal p L at (events.Own (acts.Unsubscribe topic.now)) }
{
    if known.tables.neighbours.is_shut() {
        return Some(Refusal::Stopped);
    }
    if !known.tables.topics.is_joined(topic) {
        return Some(Refusal::NotJoined);
    }
    None
}
