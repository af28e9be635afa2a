//! Publishing: who gets what the router's own user publishes, and what is refused.
ghost use Rattle.std.specs.Prelude.{◌≡◌, ◌++◌, [], ◌∷◌, IfOk, if◌then◌else◌};
ghost use Rattle.gs_base.specs.Names.{message_id};
ghost use Rattle.gs_base.specs.Rpcs.{publication};
ghost use Rattle.gs_base.specs.declared.verdict.Verdict.TheVariants.{Accept};
ghost use Rattle.gs_base.specs.declared.mark.Mark.TheVariants as marks;
ghost use Rattle.gs_rules.specs.declared.event.Event.TheVariants as events;
ghost use Rattle.gs_plan.specs.declared.plan.Act.TheVariants as acts;
ghost use Rattle.gs_rules.specs.Tables.{Entries, joined};
ghost use Rattle.gs_rules.specs.Meshes.{fanout};
ghost use Rattle.gs_rules.specs.MeshRules.{fanout_marks, fanout_publish, publish_rule};
ghost use Rattle.gs_rules.specs.MeshRules.{publishing as going_to};
ghost use Rattle.gs_rules.specs.Scoring.{is_passed_over};
ghost use Rattle.gs_rules.specs.Rules.{explicit_listeners, to_each, together_with, without};
ghost use Rattle.gs_rules.specs.Modes.{Follows, exact};
ghost use Rattle.gs_rules.specs.Refusals.{refusal};
ghost use Rattle.gs_rules.specs.declared.outcome.FanoutUse.TheVariants.{Kept, Unused};
ghost use Rattle.gs_router.specs.Tables.{Agrees};
ghost use Rattle.gs_router.specs.Known.{IsFit, Knows, ListsExplicit, peer_with};

use crate::entries::membership;
use crate::entries::selection::{explicit_listeners, not_passed_over, receivers};
use crate::entries::sends::to_each;
use crate::known::Known;
use crate::peer_lists::together_with;
use bytes::Bytes;
use gs_base::{
    LONGEST_TOPIC, Mark, Millis, MsgId, PeerNo, Rpc, Seq, Shared, Topic, Verdict, clone_of,
};
use gs_params::{Words, pick};
use gs_rules::{Effects, FanoutUse, Refusal};
use gs_wire::{MAX_BODY, publish_len};
use std::alloc::{AllocError, Global};

/// A payload that the router's own user publishes, with the identifier of its message.
#[derive(Clone, Copy)]
pub struct Publishing<'a> {
    pub topic: &'a Topic,
    pub payload: &'a Bytes,
    pub id: MsgId,
}

/// Returns what is delivered to the router's own user when it publishes a payload.
fn delivered(known: &Known, publishing: Publishing<'_>) -> Result<Seq<(Topic, Bytes)>, AllocError>
    ensures { IfOk result (λ list. (L : Entries)
        → Agrees known.now.tables L
        → list
        ≡ (if joined L publishing.entry.topic.now
        then (publishing.entry.topic.now, publishing.entry.payload.now) ∷ []
        else [])) }
{
    if known.tables.topics.is_joined(publishing.topic) {
        let message = (clone_of(publishing.topic)?, clone_of(publishing.payload)?);
        Seq::only(known.alloc, message)
    } else {
        Ok(Seq::new(known.alloc))
    }
}

/// Returns what is remembered about a payload that is published to these.
fn published(
    alloc: Global,
    publishing: Publishing<'_>,
    receivers: &[PeerNo],
    fanout: FanoutUse,
) -> Result<Seq<Mark>, AllocError>
    ensures { IfOk result (λ list. list
        ≡ marks.Seen publishing.entry.id Accept
        ∷ marks.Cached publishing.entry.id publishing.entry.topic.now
        ∷ fanout_marks fanout publishing.entry.topic.now receivers.now) }
{
    let mut marks = Seq::only(alloc, Mark::Seen(publishing.id, Verdict::Accept))?;
    marks.push(Mark::Cached(publishing.id, clone_of(publishing.topic)?))?;
    match fanout {
        FanoutUse::Unused => Ok(marks),
        FanoutUse::Kept => {
            marks.push(Mark::Published(clone_of(publishing.topic)?))?;
            Ok(marks)
        }
        FanoutUse::Filled => {
            membership::fan(&mut marks, publishing.topic, receivers)?;
            marks.push(Mark::Published(clone_of(publishing.topic)?))?;
            Ok(marks)
        }
    }
}

/// A payload goes to these, and to the explicit neighbours on its topic.
fn publications(
    known: &Known,
    publishing: Publishing<'_>,
    chosen: &[PeerNo],
) -> Result<Seq<(PeerNo, Shared<Rpc>)>, AllocError>
    ensures { IfOk result (λ sends. (L : Entries)
        → Agrees known.now.tables L
        → ListsExplicit known.now.setup
        → sends
        ≡ to_each (publication publishing.entry.topic.now publishing.entry.payload.now)
        (together_with (explicit_listeners (peer_with known.now.setup) L publishing.entry.topic.now) chosen.now)) }
{
    let explicit = explicit_listeners(known, publishing.topic)?;
    let rpc = Rpc::publication(known.alloc, publishing.topic, publishing.payload)?;
    if explicit.is_empty() {
        let sends = to_each(known.alloc, rpc, chosen)?;
        return Ok(sends);
    }
    let receivers = together_with(known.alloc, &explicit, chosen)?;
    let sends = to_each(known.alloc, rpc, &receivers)?;
    Ok(sends)
}

/// The effects of a payload that goes to these, and to the explicit neighbours on its topic.
fn sending(
    known: &Known,
    publishing: Publishing<'_>,
    receivers: &[PeerNo],
    fanout: FanoutUse,
) -> Result<Effects, AllocError>
    requires { publishing.id ≡ message_id publishing.payload.now }
    ensures { IfOk result (λ effects. (L : Entries)
        → Agrees known.now.tables L
        → ListsExplicit known.now.setup
        → effects
        ≡ going_to (peer_with known.now.setup) L publishing.entry.topic.now publishing.entry.payload.now receivers.now
        fanout) }
{
    let sends = publications(known, publishing, receivers)?;
    let delivered = delivered(known, publishing)?;
    let marks = published(known.alloc, publishing, receivers, fanout)?;
    Ok(Effects {
        sends,
        delivered,
        promise: None,
        marks,
    })
}

/// Returns the effects of a payload that goes to the fanout of its topic, which is not empty.
fn to_fanout(known: &Known, publishing: Publishing<'_>, now: Millis) -> Result<Effects, AllocError>
    requires { publishing.id ≡ message_id publishing.payload.now }
    ensures { IfOk result (λ effects. (L : Entries)
        → Knows known.now now.0 L
        → effects
        ≡ going_to (peer_with known.now.setup) L publishing.entry.topic.now publishing.entry.payload.now
        (without (is_passed_over (peer_with known.now.setup) L now.0) (fanout L publishing.entry.topic.now))
        Kept) }
{
    let fanout = known.tables.memberships.fanout(publishing.topic);
    let receivers = not_passed_over(known, fanout, now)?;
    let effects = sending(known, publishing, &receivers, FanoutUse::Kept)?;
    Ok(effects)
}

/// Returns the effects of a payload that goes to some of those that may be in the fanout of its topic. They become its
/// fanout.
fn to_new_fanout<W: Words>(
    known: &Known,
    publishing: Publishing<'_>,
    now: Millis,
    words: &mut W,
) -> Result<Effects, AllocError>
    requires id { publishing.id ≡ message_id publishing.payload.now }
    requires fit { IsFit known.now.setup }
    requires knows { (L : Entries) × Knows known.now now.0 L }
    ensures { IfOk result (λ effects. (L : Entries)
        → Knows known.now now.0 L
        → Follows (exact W.word W.after)
        (fanout_publish (peer_with known.now.setup) L now publishing.entry.topic.now publishing.entry.payload.now [])
        words.old effects words.new) }
{
    let receivers = receivers(known, publishing.topic, now)?;
    let size = known.setup.params.degrees.d as usize;
    let chosen = pick(known.alloc, &receivers, size, words)?;
    let effects = sending(known, publishing, &chosen, FanoutUse::Filled)?;
    Ok(effects)
}

/// The effects of a payload that goes to the receivers, or to the mesh of its topic, and to explicit neighbours.
fn without_fanout(
    known: &Known,
    publishing: Publishing<'_>,
    receivers: &[PeerNo],
) -> Result<Effects, AllocError>
    requires { publishing.id ≡ message_id publishing.payload.now }
    ensures { IfOk result (λ effects. (L : Entries)
        → Agrees known.now.tables L
        → ListsExplicit known.now.setup
        → effects
        ≡ going_to (peer_with known.now.setup) L publishing.entry.topic.now publishing.entry.payload.now receivers.now
        Unused) }
{
    let effects = sending(known, publishing, receivers, FanoutUse::Unused)?;
    Ok(effects)
}

/// Returns the effects of a payload that the router's own user publishes.
pub fn publish<W: Words>(
    known: &Known,
    publishing: Publishing<'_>,
    now: Millis,
    words: &mut W,
) -> Result<Effects, AllocError>
    requires id { publishing.id ≡ message_id publishing.payload.now }
    requires fit { IsFit known.now.setup }
    requires knows { (L : Entries) × Knows known.now now.0 L }
    ensures { IfOk result (λ effects. (L : Entries)
        → Knows known.now now.0 L
        → Follows (exact W.word W.after)
        (publish_rule (peer_with known.now.setup) L now publishing.entry.topic.now publishing.entry.payload.now)
        words.old effects words.new) }
{
    if known.setup.params.flood_publish {
        let receivers = receivers(known, publishing.topic, now)?;
        let effects = without_fanout(known, publishing, &receivers)?;
        return Ok(effects);
    }
    if known.tables.topics.is_joined(publishing.topic) {
        let members = known.tables.memberships.members(publishing.topic);
        let receivers = not_passed_over(known, members, now)?;
        let effects = without_fanout(known, publishing, &receivers)?;
        return Ok(effects);
    }
    if known.tables.memberships.fanout(publishing.topic).is_empty() {
        let effects = to_new_fanout(known, publishing, now, words)?;
        return Ok(effects);
    }
    let effects = to_fanout(known, publishing, now)?;
    Ok(effects)
}

/// Returns why the router may not publish a payload with this identifier on a topic, if that is so.
pub fn refusal_of_publish(
    known: &Known,
    topic: &Topic,
    payload: &Bytes,
    id: MsgId,
    now: Millis,
) -> Option<Refusal>
    requires { id ≡ message_id payload.now }
    ensures { (L : Entries)
        → Knows known.now now.0 L
        → result ≡ refusal (peer_with known.now.setup) L now.0 (events.Own (acts.Publish topic.now payload.now)) }
{
    if known.tables.neighbours.is_shut() {
        return Some(Refusal::Stopped);
    }
    if topic.0.len() > LONGEST_TOPIC || publish_len(topic, payload) > MAX_BODY {
        return Some(Refusal::TooLong);
    }
    if known.tables.sightings.is_seen(&id, now) {
        return Some(Refusal::AlreadySeen);
    }
    None
}
