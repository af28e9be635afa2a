//! What a router does about an event, as the rules say, and what it refuses. There is one file for each subject.
ghost use Rattle.std.specs.Prelude.{◌≡◌, [], ◌∷◌, IfOk};
ghost use Rattle.gs_rules.specs.Tables.{Entries, is_shut};
ghost use Rattle.gs_rules.specs.Rules.{act_rule, part_rule, rule_of, step_rule};
ghost use Rattle.gs_rules.specs.Modes.{Follows, exact};
ghost use Rattle.gs_rules.specs.Refusals.{first_of, refusal};
ghost use Rattle.gs_rules.specs.declared.event.Event.TheVariants as events;
ghost use Rattle.gs_rules.specs.declared.refusal.Refusal.TheVariants as refusals;
ghost use Rattle.gs_router.specs.Tables.{Agrees};
ghost use Rattle.gs_router.specs.Known.{IsFit, Knows, peer_with};

mod departures;
pub mod fallen;
mod grafts;
mod heartbeats;
mod maintenance;
mod membership;
mod message_processing;
mod neighbour_subscriptions;
mod offers;
mod publishing;
mod requests;
mod selection;
mod sends;
mod subscriptions;
pub mod thresholds;

use crate::entries::publishing::Publishing;
use crate::known::Known;
use gs_base::{Millis, PeerNo};
use gs_cache::Payloads;
use gs_params::Words;
use gs_plan::Act;
use gs_rules::{BeatStep, Effects, Event, Refusal, RpcPart};
use std::alloc::AllocError;

/// Returns the effects that the rule gives to an event.
pub fn effects_of<W: Words>(
    known: &Known,
    payloads: &mut Payloads,
    event: &Event,
    now: Millis,
    words: &mut W,
) -> Result<Effects, AllocError>
    requires fit { IsFit known.now.setup }
    requires knows { (L : Entries) × Knows known.now now.0 L }
    ensures { IfOk result (λ effects. (L : Entries)
        → Knows known.now now.0 L
        → Follows (exact W.word W.after) (rule_of (peer_with known.now.setup) L now event.now)
        words.old effects words.new) }
{
    match event {
        Event::Heard(_, _) => Ok(Effects::none(known.alloc)),
        Event::Late(_, _) => Ok(Effects::none(known.alloc)),
        Event::Part(from, part) => effects_of_part(known, payloads, *from, part, now, words),
        Event::BeatBegin => heartbeats::beat_begin(known, now),
        Event::Step(step) => effects_of_step(known, step, now, words),
        Event::Own(act) => effects_of_act(known, payloads, act.get(), now, words),
        Event::Lost(peer, _) => departures::lost(known, *peer, now),
        Event::Decay => Ok(Effects::none(known.alloc)),
        Event::RoundEnd(_) => Ok(Effects::none(known.alloc)),
        Event::Shut => Ok(Effects::none(known.alloc)),
    }
}

/// The effects of a part of an RPC.
fn effects_of_part<W: Words>(
    known: &Known,
    payloads: &mut Payloads,
    from: PeerNo,
    part: &RpcPart,
    now: Millis,
    words: &mut W,
) -> Result<Effects, AllocError>
    requires { (L : Entries) × Knows known.now now.0 L }
    ensures { IfOk result (λ effects. (L : Entries)
        → Knows known.now now.0 L
        → Follows (exact W.word W.after) (part_rule (peer_with known.now.setup) L now from part.now)
        words.old effects words.new) }
{
    match part {
        RpcPart::Sub(sub) => neighbour_subscriptions::effects_of(known, from, sub.get(), now),
        RpcPart::Msg(message) => {
            message_processing::effects_of(known, payloads, from, message.get(), now)
        }
        RpcPart::Have(offer) => offers::effects_of(known, from, offer.get(), now, words),
        RpcPart::Want(request) => requests::effects_of(known, from, request.get(), now),
        RpcPart::GraftIn(graft) => grafts::graft(known, from, graft.get(), now),
        RpcPart::PruneIn(prune) => grafts::prune(known, from, prune.get(), now),
    }
}

/// The effects of a step of a heartbeat.
fn effects_of_step<W: Words>(
    known: &Known,
    step: &BeatStep,
    now: Millis,
    words: &mut W,
) -> Result<Effects, AllocError>
    requires fit { IsFit known.now.setup }
    requires knows { (L : Entries) × Knows known.now now.0 L }
    ensures { IfOk result (λ effects. (L : Entries)
        → Knows known.now now.0 L
        → Follows (exact W.word W.after) (step_rule (peer_with known.now.setup) L now step.now)
        words.old effects words.new) }
{
    match step {
        BeatStep::MeshBeat(topic) => maintenance::mesh_beat(known, topic, now, words),
        BeatStep::FanBeat(topic) => maintenance::fan_beat(known, topic, now, words),
        BeatStep::FanEnd(topic) => maintenance::fan_end(known, topic),
        BeatStep::GossipBeat(topic) => heartbeats::gossip(known, topic, now, words),
        BeatStep::BeatEnd => Ok(Effects::none(known.alloc)),
    }
}

/// The effects of an act of the router's own user.
fn effects_of_act<W: Words>(
    known: &Known,
    payloads: &mut Payloads,
    act: &Act,
    now: Millis,
    words: &mut W,
) -> Result<Effects, AllocError>
    requires fit { IsFit known.now.setup }
    requires knows { (L : Entries) × Knows known.now now.0 L }
    ensures { IfOk result (λ effects. (L : Entries)
        → Knows known.now now.0 L
        → Follows (exact W.word W.after) (act_rule (peer_with known.now.setup) L now act.now)
        words.old effects words.new) }
{
    match act {
        Act::Subscribe(topic) => subscriptions::subscribe(known, topic, now, words),
        Act::Unsubscribe(topic) => subscriptions::unsubscribe(known, topic, now),
        Act::Publish(topic, payload) => {
            let id = payloads.identifier(payload, topic);
            publishing::publish(known, Publishing { topic, payload, id }, now, words)
        }
        Act::Raw(_, _) => Ok(Effects::none(known.alloc)),
        Act::HangUp(peer) => departures::lost(known, *peer, now),
    }
}

/// Returns why nothing may come any more, if that is so.
pub fn refusal_of_anything(known: &Known) -> Option<Refusal>
    ensures { (L : Entries) → Agrees known.now.tables L → result ≡ first_of ((is_shut L, refusals.Stopped) ∷ []) }
{
    if known.tables.neighbours.is_shut() {
        return Some(Refusal::Stopped);
    }
    None
}

/// Returns why an act of the router's own user may not come, if that is so.
pub fn refusal_of(known: &Known, payloads: &mut Payloads, act: &Act, now: Millis) -> Option<Refusal>
    ensures { (L : Entries)
        → Knows known.now now.0 L
        → result ≡ refusal (peer_with known.now.setup) L now.0 (events.Own act.now) }
{
    match act {
        Act::Subscribe(topic) => subscriptions::refusal_of_subscribe(known, topic),
        Act::Unsubscribe(topic) => subscriptions::refusal_of_unsubscribe(known, topic),
        Act::Publish(topic, payload) => {
            let id = payloads.identifier(payload, topic);
            publishing::refusal_of_publish(known, topic, payload, id, now)
        }
        Act::Raw(peer, _) => departures::refusal_of_link(known, *peer),
        Act::HangUp(peer) => departures::refusal_of_link(known, *peer),
    }
}
