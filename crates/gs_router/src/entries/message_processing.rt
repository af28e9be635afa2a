//! What happens with a message that a neighbour passed on (gossipsub v1.0, "Message Processing").
ghost use Rattle.std.specs.Prelude.{◌≡◌, ◌++◌, [], ◌∷◌, Some, IfOk};
ghost use Rattle.std.specs.Map.{lookup};
ghost use Rattle.gs_base.specs.declared.names.MsgId.{MsgId as MsgIdValue};
ghost use Rattle.gs_base.specs.Names.{message_id, payload_of, same_topic, topic_of, topic_or_empty};
ghost use Rattle.gs_base.specs.Rpcs.{passed_on};
ghost use Rattle.gs_base.specs.declared.verdict.Verdict.TheVariants.{Accept, Reject};
ghost use Rattle.gs_base.specs.declared.mark.Mark.TheVariants as marks;
ghost use Rattle.gs_cache.specs.Sightings.{what_counts};
ghost use Rattle.gs_mesh.specs.Peers.{without as all_but};
ghost use Rattle.gs_score.specs.Accounts.{params_in};
ghost use Rattle.gs_rules.specs.declared.outcome.Outcome.TheVariants.{Accepted};
ghost use Rattle.gs_rules.specs.Tables.{Entries};
ghost use Rattle.gs_rules.specs.Meshes.{mesh};
ghost use Rattle.gs_rules.specs.Rules.{explicit_listeners, to_each, together_with};
ghost use Rattle.gs_rules.specs.Outcomes.{again, begins_with_one, found_to_be, is_near, message_effects, message_rule, near_of, near_window, outcome, verdict_by, verdict_on};
ghost use Rattle.gs_router.specs.Tables.{Agrees};
ghost use Rattle.gs_router.specs.Known.{Knows, ListsExplicit, peer_with};

use crate::entries::selection::explicit_listeners;
use crate::entries::sends::to_each;
use crate::known::Known;
use crate::peer_lists::{others, together_with};
use bytes::Bytes;
use gs_base::{Mark, Message, Millis, MsgId, PeerNo, Rpc, Seq, Shared, Topic, Verdict};
use gs_cache::{Payloads, Sighting};
use gs_params::{DEFAULT_TOPIC_TIMING, TopicParams};
use gs_rules::{Effects, Outcome};
use std::alloc::{AllocError, Global};

/// What becomes of a message.
fn outcome_of(
    known: &Known,
    payloads: &mut Payloads,
    from: PeerNo,
    message: &Message,
    now: Millis,
) -> Outcome
    ensures { (L : Entries)
        → Knows known.now now.0 L
        → result ≡ outcome (peer_with known.now.setup) L now.0 from message.now }
{
    if !known.tables.topics.is_joined_or_empty(&message.topic) {
        return Outcome::Dropped;
    }
    if message.is_signed() {
        return Outcome::Invalid;
    }
    let id = identifier_of(payloads, message);
    match known.tables.sightings.lately(&id, now) {
        Some(sighting) => match sighting.verdict {
            Verdict::Accept => again(id, is_near(known, from, &message.topic, sighting, now)),
            Verdict::Reject => Outcome::Invalid,
            Verdict::Ignore => Outcome::Dropped,
        },
        None => unknown(known, message, id),
    }
}

fn identifier_of(payloads: &mut Payloads, message: &Message) -> MsgId
    ensures { result ≡ message_id (payload_of message.now) }
{
    match (&message.payload, &message.topic) {
        (Some(payload), Some(topic)) => payloads.identifier(payload, topic),
        (Some(payload), None) => payloads.identifier(payload, &Topic(Bytes::new())),
        (None, _) => MsgId::of(&[]),
    }
}

/// What becomes of a message with this identifier, which was accepted lately and is near or is not.
fn again(id: MsgId, is_near: bool) -> Outcome
    ensures { result ≡ again id is_near }
{
    if is_near {
        return Outcome::Near(id);
    }
    Outcome::Dropped
}

/// Says whether a neighbour is in a topic's mesh, passes on what was seen a moment ago, and had not passed it on since.
/// Where none is named, the topic is the empty one.
fn is_near(
    known: &Known,
    from: PeerNo,
    topic: &Option<Topic>,
    sighting: &Sighting,
    now: Millis,
) -> bool
    ensures { (L : Entries) (id : MsgIdValue)
        → Knows known.now now.0 L
        → what_counts known.now.tables.sightings.cache id now.0 ≡ Some sighting.now
        → result ≡ is_near (peer_with known.now.setup) L now.0 from (topic_or_empty topic.now) id }
{
    match topic {
        Some(topic) => is_near_on(known, from, topic, sighting, now),
        None => is_near_on(known, from, &Topic(Bytes::new()), sighting, now),
    }
}

/// `is_near` on a topic that is there.
fn is_near_on(known: &Known, from: PeerNo, topic: &Topic, sighting: &Sighting, now: Millis) -> bool
    ensures { (L : Entries) (id : MsgIdValue)
        → Knows known.now now.0 L
        → what_counts known.now.tables.sightings.cache id now.0 ≡ Some sighting.now
        → result ≡ is_near (peer_with known.now.setup) L now.0 from topic.now id }
{
    known.tables.memberships.is_member(from, topic)
        && known
            .tables
            .sightings
            .is_near(sighting, from, now, near_window(known, topic))
}

/// For how long after the first delivery of a message on a topic another one counts.
fn near_window(known: &Known, topic: &Topic) -> Millis
    ensures { result.0 ≡ near_window (peer_with known.now.setup) topic.now }
{
    Millis(window_in(known.setup.params.topics.as_slice(), topic))
}

/// `near_window` by the parameters of topics: the first ones of the topic count, and a topic without any has the
/// default.
fn window_in(topics: &[(Topic, TopicParams)], topic: &Topic) -> u64
    ensures { result ≡ (params_in topics.now topic.now).timing.p3_window_ms }
{
    for known in topics {
        if *topic == known.0 {
            return known.1.timing.p3_window_ms;
        }
    }
    DEFAULT_TOPIC_TIMING.p3_window_ms
}

/// What becomes of a message with this identifier, which was not seen lately.
fn unknown(known: &Known, message: &Message, id: MsgId) -> Outcome
    ensures { result ≡ found_to_be id (verdict_on known.now.setup.params.topics message.now) }
{
    match verdict_of(known.setup.params.topics.as_slice(), message) {
        Verdict::Accept => Outcome::Accepted(id),
        Verdict::Reject => Outcome::Rejected(id),
        Verdict::Ignore => Outcome::Ignored(id),
    }
}

/// What a message is found to be, by the parameters of its topic.
fn verdict_of(topics: &[(Topic, TopicParams)], message: &Message) -> Verdict
    ensures { result ≡ verdict_on topics.now message.now }
{
    match &message.topic {
        Some(topic) => verdict_by(topics, topic, message.payload_bytes()),
        None => verdict_by(topics, &Topic(Bytes::new()), message.payload_bytes()),
    }
}

/// What a payload on a topic is found to be: the first parameters of the topic count.
fn verdict_by(topics: &[(Topic, TopicParams)], topic: &Topic, payload: &[u8]) -> Verdict
    ensures { result ≡ verdict_by (lookup (same_topic topic.now) topics.now) payload.now }
{
    for known in topics {
        if *topic == known.0 {
            return verdict_with(&known.1, payload);
        }
    }
    Verdict::Accept
}

/// Returns what a payload is found to be by these parameters. Rejecting takes precedence over ignoring.
fn verdict_with(params: &TopicParams, payload: &[u8]) -> Verdict
    ensures { result ≡ verdict_by (Some params.now) payload.now }
{
    if begins_with_one(params.reject.as_slice(), payload) {
        return Verdict::Reject;
    }
    if begins_with_one(params.ignore.as_slice(), payload) {
        return Verdict::Ignore;
    }
    Verdict::Accept
}

fn begins_with_one(prefixes: &[Bytes], payload: &[u8]) -> bool
    ensures { result ≡ begins_with_one prefixes.now payload.now }
{
    prefixes
        .iter()
        .any(|prefix| payload.starts_with(prefix.as_slice()))
}

/// Returns what is remembered about an accepted message that a neighbour was the first to pass on.
fn accepted(
    alloc: Global,
    from: PeerNo,
    id: MsgId,
    message: &Message,
    is_member: bool,
) -> Result<Seq<Mark>, AllocError>
    ensures { IfOk result (λ list. list
        ≡ marks.Seen id Accept
        ∷ marks.First from (topic_of message.now) id
        ∷ (near_of is_member from (topic_of message.now) id ++ marks.Cached id (topic_of message.now) ∷ [])) }
{
    let mut marks = Seq::only(alloc, Mark::Seen(id, Verdict::Accept))?;
    marks.push(Mark::First(from, message.topic_or_empty()?, id))?;
    if is_member {
        marks.push(Mark::Near(from, message.topic_or_empty()?, id))?;
        marks.push(Mark::Cached(id, message.topic_or_empty()?))?;
        return Ok(marks);
    }
    marks.push(Mark::Cached(id, message.topic_or_empty()?))?;
    Ok(marks)
}

fn rejected(
    alloc: Global,
    from: PeerNo,
    id: MsgId,
    message: &Message,
) -> Result<Seq<Mark>, AllocError>
    ensures { IfOk result (λ list. list ≡ marks.Seen id Reject ∷ marks.Invalid from (topic_of message.now) ∷ []) }
{
    let mut marks = Seq::only(alloc, Mark::Seen(id, Verdict::Reject))?;
    marks.push(Mark::Invalid(from, message.topic_or_empty()?))?;
    Ok(marks)
}

/// A message by itself goes to each of these, but not to the neighbour that it came from.
fn passed_on(
    alloc: Global,
    from: PeerNo,
    message: &Message,
    members: &[PeerNo],
) -> Result<Seq<(PeerNo, Shared<Rpc>)>, AllocError>
    ensures { IfOk result (λ sends. sends ≡ to_each (passed_on message.now) (all_but from members.now)) }
{
    let receivers = others(alloc, from, members)?;
    let sends = to_each(alloc, Rpc::passed_on(alloc, message)?, &receivers)?;
    Ok(sends)
}

/// A message by itself goes to these and to these explicit neighbours, but not to the one that it came from.
fn forwarded(
    alloc: Global,
    from: PeerNo,
    message: &Message,
    members: &[PeerNo],
    explicit: &[PeerNo],
) -> Result<Seq<(PeerNo, Shared<Rpc>)>, AllocError>
    ensures { IfOk result (λ sends. sends
        ≡ to_each (passed_on message.now) (all_but from (together_with explicit.now members.now))) }
{
    if explicit.is_empty() {
        let sends = passed_on(alloc, from, message, members)?;
        return Ok(sends);
    }
    let all = together_with(alloc, explicit, members)?;
    let sends = passed_on(alloc, from, message, &all)?;
    Ok(sends)
}

/// The effects of a message that is accepted, where these are in the mesh of its topic, and these explicit neighbours on
/// it.
fn accepting_message(
    alloc: Global,
    from: PeerNo,
    id: MsgId,
    message: &Message,
    members: &[PeerNo],
    explicit: &[PeerNo],
) -> Result<Effects, AllocError>
    ensures { IfOk result (λ effects. effects
        ≡ message_effects members.now explicit.now from message.now (Accepted id)) }
{
    let delivery = (message.topic_or_empty()?, message.payload_or_empty()?);
    let sends = forwarded(alloc, from, message, members, explicit)?;
    let marks = accepted(alloc, from, id, message, members.contains(&from))?;
    Ok(Effects {
        sends,
        delivered: Seq::only(alloc, delivery)?,
        promise: None,
        marks,
    })
}

/// The effects of a message with this outcome.
fn effects_with(
    known: &Known,
    from: PeerNo,
    message: &Message,
    outcome: Outcome,
) -> Result<Effects, AllocError>
    ensures { IfOk result (λ effects. (L : Entries)
        → Agrees known.now.tables L
        → ListsExplicit known.now.setup
        → effects
        ≡ message_effects (mesh L (topic_of message.now))
        (explicit_listeners (peer_with known.now.setup) L (topic_of message.now))
        from message.now outcome) }
{
    let alloc = known.alloc;
    match outcome {
        Outcome::Dropped => Ok(Effects::none(alloc)),
        Outcome::Invalid => {
            let mark = Mark::Invalid(from, message.topic_or_empty()?);
            Ok(Effects {
                marks: Seq::only(alloc, mark)?,
                ..Effects::none(alloc)
            })
        }
        Outcome::Rejected(id) => Ok(Effects {
            marks: rejected(alloc, from, id, message)?,
            ..Effects::none(alloc)
        }),
        Outcome::Ignored(id) => Ok(Effects {
            marks: Seq::only(alloc, Mark::Seen(id, Verdict::Ignore))?,
            ..Effects::none(alloc)
        }),
        Outcome::Near(id) => {
            let mark = Mark::Near(from, message.topic_or_empty()?, id);
            Ok(Effects {
                marks: Seq::only(alloc, mark)?,
                ..Effects::none(alloc)
            })
        }
        Outcome::Accepted(id) => {
            let members = mesh_members(known, &message.topic);
            let explicit = explicit_on(known, &message.topic)?;
            let effects = accepting_message(alloc, from, id, message, members, &explicit)?;
            Ok(effects)
        }
    }
}

/// Who is in the mesh of the topic that is named; an absent one is the empty one.
fn mesh_members<'a>(known: &'a Known, topic: &Option<Topic>) -> &'a [PeerNo]
    ensures { (L : Entries) → Agrees known.now.tables L → result.now ≡ mesh L (topic_or_empty topic.now) }
{
    match topic {
        Some(topic) => known.tables.memberships.members(topic),
        None => known.tables.memberships.members(&Topic(Bytes::new())),
    }
}

/// The explicit neighbours on the topic that is named; an absent one is the empty one.
fn explicit_on(known: &Known, topic: &Option<Topic>) -> Result<Vec<PeerNo>, AllocError>
    ensures { IfOk result (λ found. (L : Entries)
        → Agrees known.now.tables L
        → ListsExplicit known.now.setup
        → found.items ≡ explicit_listeners (peer_with known.now.setup) L (topic_or_empty topic.now)) }
{
    match topic {
        Some(topic) => explicit_listeners(known, topic),
        None => explicit_listeners(known, &Topic(Bytes::new())),
    }
}

/// Returns the effects of a message that a neighbour passed on.
pub fn effects_of(
    known: &Known,
    payloads: &mut Payloads,
    from: PeerNo,
    message: &Message,
    now: Millis,
) -> Result<Effects, AllocError>
    ensures { IfOk result (λ effects. (L : Entries)
        → Knows known.now now.0 L
        → effects ≡ message_rule (peer_with known.now.setup) L now from message.now) }
{
    let outcome = outcome_of(known, payloads, from, message, now);
    let effects = effects_with(known, from, message, outcome)?;
    Ok(effects)
}
