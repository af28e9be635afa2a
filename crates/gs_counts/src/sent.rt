//! What an entry sends: the bytes of each RPC, and each of its parts.
ghost use Rattle.std.specs.Prelude.{◌≡◌, ◌++◌, OnOk, Some};
ghost use Rattle.std.specs.List.{flat_map};
ghost use Rattle.gs_counts.specs.Sent.{bytes_kind, bytes_sent, control_sent, graft_sent, ihave_sent, is_answer, is_request, iwant_sent, message_sent, message_sent_kind, prune_sent, rpc_sent, send_happenings, sub_sent};

use crate::happening::{Happening, Scene, note, note_on_named};
use crate::kind::Kind;
use crate::lengths::body_len;
use gs_base::{Control, Graft, IHave, IWant, Message, PeerNo, Prune, Rpc, Shared, SubOpt};
use gs_rules::{Event, RpcPart};
use std::alloc::AllocError;

/// Whether what is sent at an event answers a request. Each event is named, so that a new one must be decided on.
pub(crate) fn is_answer(event: &Event) -> bool
    ensures { result ≡ is_answer event.now }
{
    match event {
        Event::Part(_, part) => is_request(part),
        Event::Heard(_, _) => false,
        Event::Late(_, _) => false,
        Event::BeatBegin => false,
        Event::Step(_) => false,
        Event::Own(_) => false,
        Event::Lost(_, _) => false,
        Event::Decay => false,
        Event::RoundEnd(_) => false,
        Event::Shut => false,
    }
}

fn is_request(part: &RpcPart) -> bool
    ensures { result ≡ is_request part.now }
{
    match part {
        RpcPart::Want(_) => true,
        RpcPart::Sub(_) => false,
        RpcPart::Msg(_) => false,
        RpcPart::Have(_) => false,
        RpcPart::GraftIn(_) => false,
        RpcPart::PruneIn(_) => false,
    }
}

/// Notes everything that is sent, once for each neighbour that it goes to.
pub(crate) fn note_sends(
    list: &mut Vec<Happening>,
    scene: Scene,
    answers: bool,
    sends: &[(PeerNo, Shared<Rpc>)],
) -> Result<(), AllocError>
    ensures { OnOk result (list.new.items ≡ list.old.items ++ flat_map (send_happenings scene answers) sends.now) }
{
    for send in sends {
        note_rpc_sent(list, scene.with(send.0), answers, send.1.get())?;
    }
    Ok(())
}

fn note_rpc_sent(
    list: &mut Vec<Happening>,
    scene: Scene,
    answers: bool,
    rpc: &Rpc,
) -> Result<(), AllocError>
    ensures { OnOk result (list.new.items ≡ list.old.items ++ rpc_sent scene answers rpc.now) }
{
    note_bytes(list, scene, rpc)?;
    note_subs(list, scene, rpc.subs.as_slice())?;
    note_messages(list, scene, message_kind(answers), rpc.publish.as_slice())?;
    match &rpc.control {
        Some(control) => note_control(list, scene, control),
        None => Ok(()),
    }
}

/// Notes the bytes of an RPC's body, if it fits a frame.
fn note_bytes(list: &mut Vec<Happening>, scene: Scene, rpc: &Rpc) -> Result<(), AllocError>
    ensures { OnOk result (list.new.items ≡ list.old.items ++ bytes_sent scene rpc.now) }
{
    match body_len(*list.allocator(), rpc)? {
        Some(len) => note(list, scene, bytes_kind(rpc), len),
        None => Ok(()),
    }
}

/// What the bytes of an RPC count as.
fn bytes_kind(rpc: &Rpc) -> Kind
    ensures { result ≡ bytes_kind rpc.now.publish rpc.now.control }
{
    if !rpc.publish.is_empty() {
        return Kind::MessageBytesSent;
    }
    match rpc.control {
        Some(_) => Kind::ControlBytesSent,
        None => Kind::SubscriptionBytesSent,
    }
}

/// What a message that is sent counts as.
fn message_kind(answers: bool) -> Kind
    ensures { result ≡ message_sent_kind answers }
{
    if answers {
        Kind::MessagesAnswered
    } else {
        Kind::MessagesPushed
    }
}

fn note_control(
    list: &mut Vec<Happening>,
    scene: Scene,
    control: &Control,
) -> Result<(), AllocError>
    ensures { OnOk result (list.new.items ≡ list.old.items ++ control_sent scene (Some control.now)) }
{
    note_offers(list, scene, control.ihave.as_slice())?;
    note_requests(list, scene, control.iwant.as_slice())?;
    note_grafts(list, scene, control.graft.as_slice())?;
    note_prunes(list, scene, control.prune.as_slice())
}

fn note_subs(list: &mut Vec<Happening>, scene: Scene, subs: &[SubOpt]) -> Result<(), AllocError>
    ensures { OnOk result (list.new.items ≡ list.old.items ++ flat_map (sub_sent scene) subs.now) }
{
    for sub in subs {
        note_on_named(list, scene, &sub.topic, Kind::SubscriptionsSent, 1)?;
    }
    Ok(())
}

fn note_messages(
    list: &mut Vec<Happening>,
    scene: Scene,
    kind: Kind,
    messages: &[Message],
) -> Result<(), AllocError>
    ensures { OnOk result (list.new.items ≡ list.old.items ++ flat_map (message_sent scene kind) messages.now) }
{
    for message in messages {
        note_on_named(list, scene, &message.topic, kind, 1)?;
    }
    Ok(())
}

fn note_offers(list: &mut Vec<Happening>, scene: Scene, offers: &[IHave]) -> Result<(), AllocError>
    ensures { OnOk result (list.new.items ≡ list.old.items ++ flat_map (ihave_sent scene) offers.now) }
{
    for offer in offers {
        note_offer_sent(list, scene, offer)?;
    }
    Ok(())
}

fn note_offer_sent(list: &mut Vec<Happening>, scene: Scene, offer: &IHave) -> Result<(), AllocError>
    ensures { OnOk result (list.new.items ≡ list.old.items ++ ihave_sent scene offer.now) }
{
    let ids = offer.ids.len() as u64;
    note_on_named(list, scene, &offer.topic, Kind::IhaveSent, 1)?;
    note_on_named(list, scene, &offer.topic, Kind::IdsOfferedSent, ids)
}

fn note_requests(
    list: &mut Vec<Happening>,
    scene: Scene,
    requests: &[IWant],
) -> Result<(), AllocError>
    ensures { OnOk result (list.new.items ≡ list.old.items ++ flat_map (iwant_sent scene) requests.now) }
{
    for request in requests {
        note_request_sent(list, scene, request)?;
    }
    Ok(())
}

fn note_request_sent(
    list: &mut Vec<Happening>,
    scene: Scene,
    request: &IWant,
) -> Result<(), AllocError>
    ensures { OnOk result (list.new.items ≡ list.old.items ++ iwant_sent scene request.now) }
{
    let ids = request.ids.len() as u64;
    note(list, scene, Kind::IwantSent, 1)?;
    note(list, scene, Kind::IdsAskedSent, ids)
}

fn note_grafts(list: &mut Vec<Happening>, scene: Scene, grafts: &[Graft]) -> Result<(), AllocError>
    ensures { OnOk result (list.new.items ≡ list.old.items ++ flat_map (graft_sent scene) grafts.now) }
{
    for graft in grafts {
        note_on_named(list, scene, &graft.topic, Kind::GraftSent, 1)?;
    }
    Ok(())
}

fn note_prunes(list: &mut Vec<Happening>, scene: Scene, prunes: &[Prune]) -> Result<(), AllocError>
    ensures { OnOk result (list.new.items ≡ list.old.items ++ flat_map (prune_sent scene) prunes.now) }
{
    for prune in prunes {
        note_on_named(list, scene, &prune.topic, Kind::PruneSent, 1)?;
    }
    Ok(())
}
