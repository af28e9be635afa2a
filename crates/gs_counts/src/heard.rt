//! What an event counts as: an RPC or a part of one that was heard, a link that was cut, or something without effect.
ghost use Rattle.std.specs.Prelude.{◌≡◌, ◌++◌, OnOk};
ghost use Rattle.std.specs.List.{flat_map};
ghost use Rattle.gs_counts.specs.Fates.{known_fate};
ghost use Rattle.gs_counts.specs.Heard.{event_happenings, fallen_happenings, graft_refusal_kind, loss_happenings, message_happenings, no_answer_kind, offer_happenings, part_happenings, request_happenings, rpc_happenings};

use crate::fate::{Fate, fate_of};
use crate::happening::{Happening, Scene, note, note_on, note_on_named};
use crate::kind::Kind;
use crate::memory::Memory;
use gs_base::{IHave, IWant, Mark, Message};
use gs_rules::{Event, Fallen, GraftRefusal, Loss, NoAnswer, RpcPart};
use std::alloc::AllocError;

/// An entry's event and marks, and what came to nothing at it.
#[derive(Clone, Copy)]
pub(crate) struct Did<'a> {
    pub event: &'a Event,
    pub marks: &'a [Mark],
    pub fallen: &'a [Fallen],
}

/// Notes what an event counts as, at a peer about which this is known. Each event is named, so that a new one must be decided on.
pub(crate) fn note_event(
    list: &mut Vec<Happening>,
    memory: &Memory,
    scene: Scene,
    did: Did<'_>,
) -> Result<(), AllocError>
    ensures { OnOk result (list.new.items
        ≡ list.old.items
        ++ event_happenings (known_fate memory.now) scene did.entry.fallen.now did.entry.event.now did.entry.marks.now) }
{
    match did.event {
        Event::Heard(q, _) => note_rpc(list, scene.with(*q), did.fallen),
        Event::Late(_, _) => Ok(()),
        Event::Part(q, part) => note_part(list, memory, scene.with(*q), part, did.marks),
        Event::BeatBegin => Ok(()),
        Event::Step(_) => Ok(()),
        Event::Own(_) => Ok(()),
        Event::Lost(q, loss) => note_loss(list, scene.with(*q), *loss),
        Event::Decay => Ok(()),
        Event::RoundEnd(_) => Ok(()),
        Event::Shut => Ok(()),
    }
}

/// Notes an RPC, if it was handled, that is, if nothing fell away at its event.
fn note_rpc(list: &mut Vec<Happening>, scene: Scene, fallen: &[Fallen]) -> Result<(), AllocError>
    ensures { OnOk result (list.new.items ≡ list.old.items ++ rpc_happenings scene fallen.now) }
{
    if !fallen.is_empty() {
        return Ok(());
    }
    note(list, scene, Kind::RpcsHeard, 1)
}

fn note_loss(list: &mut Vec<Happening>, scene: Scene, loss: Loss) -> Result<(), AllocError>
    ensures { OnOk result (list.new.items ≡ list.old.items ++ loss_happenings scene loss) }
{
    match loss {
        Loss::Gone => Ok(()),
        Loss::Fault => note(list, scene, Kind::Faults, 1),
    }
}

/// Notes a part of an RPC. Each kind of parts is named, so that a new one must be decided on.
fn note_part(
    list: &mut Vec<Happening>,
    memory: &Memory,
    scene: Scene,
    part: &RpcPart,
    marks: &[Mark],
) -> Result<(), AllocError>
    ensures { OnOk result (list.new.items
        ≡ list.old.items ++ part_happenings (known_fate memory.now) scene part.now marks.now) }
{
    match part {
        RpcPart::Sub(sub) => note_on_named(
            list,
            scene,
            &sub.get().topic,
            Kind::SubscriptionsHeard,
            1,
        ),
        RpcPart::Msg(message) => note_message(
            list,
            scene,
            message.get(),
            fate_of(memory, message.get(), marks),
        ),
        RpcPart::Have(offer) => note_offer(list, scene, offer.get()),
        RpcPart::Want(request) => note_request(list, scene, request.get()),
        RpcPart::GraftIn(graft) => {
            note_on_named(list, scene, &graft.get().topic, Kind::GraftHeard, 1)
        }
        RpcPart::PruneIn(prune) => {
            note_on_named(list, scene, &prune.get().topic, Kind::PruneHeard, 1)
        }
    }
}

fn note_message(
    list: &mut Vec<Happening>,
    scene: Scene,
    message: &Message,
    fate: Fate,
) -> Result<(), AllocError>
    ensures { OnOk result (list.new.items ≡ list.old.items ++ message_happenings scene message.now fate) }
{
    let bytes = message.payload_bytes().len() as u64;
    note_on_named(list, scene, &message.topic, fate.kind(), 1)?;
    note_on_named(list, scene, &message.topic, fate.payload_kind(), bytes)
}

fn note_offer(list: &mut Vec<Happening>, scene: Scene, offer: &IHave) -> Result<(), AllocError>
    ensures { OnOk result (list.new.items ≡ list.old.items ++ offer_happenings scene offer.now) }
{
    let ids = offer.ids.len() as u64;
    note_on_named(list, scene, &offer.topic, Kind::IhaveHeard, 1)?;
    note_on_named(list, scene, &offer.topic, Kind::IdsOffered, ids)
}

fn note_request(list: &mut Vec<Happening>, scene: Scene, request: &IWant) -> Result<(), AllocError>
    ensures { OnOk result (list.new.items ≡ list.old.items ++ request_happenings scene request.now) }
{
    let ids = request.ids.len() as u64;
    note(list, scene, Kind::IwantHeard, 1)?;
    note(list, scene, Kind::IdsAsked, ids)
}

// ---- what came to nothing

/// Notes everything that had no effect at an entry.
pub(crate) fn note_all_fallen(
    list: &mut Vec<Happening>,
    scene: Scene,
    fallen: &[Fallen],
) -> Result<(), AllocError>
    ensures { OnOk result (list.new.items ≡ list.old.items ++ flat_map (fallen_happenings scene) fallen.now) }
{
    for one in fallen {
        note_fallen(list, scene, one)?;
    }
    Ok(())
}

/// Notes something that had no effect. A broken promise counts for the neighbour that broke it.
fn note_fallen(list: &mut Vec<Happening>, scene: Scene, fallen: &Fallen) -> Result<(), AllocError>
    ensures { OnOk result (list.new.items ≡ list.old.items ++ fallen_happenings scene fallen.now) }
{
    match fallen {
        Fallen::Graylisted(q) => note(list, scene.with(*q), Kind::RpcsGraylisted, 1),
        Fallen::Late(q) => note(list, scene.with(*q), Kind::RpcsLate, 1),
        Fallen::Graft(q, topic, why) => {
            note_on(list, scene.with(*q), topic, graft_refusal_kind(*why), 1)
        }
        Fallen::Request(q, _, why) => note(list, scene.with(*q), no_answer_kind(*why), 1),
        Fallen::Broken(promise) => {
            note(list, scene.turned(promise.from), Kind::PromisesBroken, 1)
        }
    }
}

fn graft_refusal_kind(why: GraftRefusal) -> Kind
    ensures { result ≡ graft_refusal_kind why }
{
    match why {
        GraftRefusal::Explicit => Kind::GraftRefusedExplicit,
        GraftRefusal::TooSoon => Kind::GraftRefusedBackoff,
        GraftRefusal::Negative => Kind::GraftRefusedScore,
        GraftRefusal::Full => Kind::GraftRefusedFull,
    }
}

fn no_answer_kind(why: NoAnswer) -> Kind
    ensures { result ≡ no_answer_kind why }
{
    match why {
        NoAnswer::Ignored => Kind::IdsNotSentScore,
        NoAnswer::TooOften => Kind::IdsNotSentTooOften,
        NoAnswer::NotKept => Kind::IdsNotSentNotKept,
    }
}
