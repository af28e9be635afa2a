//! What neighbours sent or promised in vain.
ghost use Rattle.std.specs.Prelude.{◌≡◌, ◌++◌, ◌&&◌, [], ◌∷◌, IfOk, OnOk, if◌then◌else◌, map, nat_le};
ghost use Rattle.gs_base.specs.Names.{same_peer, topic_or_empty};
ghost use Rattle.gs_rules.specs.Tables.{Entries};
ghost use Rattle.gs_rules.specs.FellAway.{broken, broken_by, fallen_graft, fallen_part, fallen_request, fell_away};
ghost use Rattle.gs_rules.specs.Rules.{ids_in};
ghost use Rattle.gs_rules.specs.MeshRules.{graft_answer};
ghost use Rattle.gs_rules.specs.Scoring.{is_graylisted};
ghost use Rattle.gs_rules.specs.declared.fallen.Fallen.TheVariants as fallen;
ghost use Rattle.gs_rules.specs.declared.fallen.NoAnswer.TheVariants.{Ignored};
ghost use Rattle.gs_base.specs.declared.names.MsgId.{MsgId as MsgIdValue};
ghost use Rattle.gs_router.specs.Tables.{Agrees};
ghost use Rattle.gs_router.specs.Known.{Knows, peer_with};

use crate::entries::grafts::graft_answer;
use crate::entries::requests::{ids_in, without_answers};
use crate::entries::thresholds;
use crate::known::Known;
use gs_base::{Graft, IWant, Millis, MsgId, PeerNo, Topic};
use gs_rules::{Event, Fallen, GraftAnswer, NoAnswer, Promise, RpcPart};
use std::alloc::{AllocError, Global};

/// Returns what was sent or promised in vain, at an event that comes next.
pub fn fell_away(known: &Known, event: &Event, now: Millis) -> Result<Vec<Fallen>, AllocError>
    ensures { IfOk result (λ list. (L : Entries)
        → Knows known.now now.0 L
        → list.items ≡ fell_away (peer_with known.now.setup) L now event.now) }
{
    match event {
        Event::Heard(from, _) => fallen_rpc(known, *from, now),
        Event::Late(from, _) => only(known.alloc, Fallen::Late(*from)),
        Event::Part(from, part) => fallen_part(known, *from, part, now),
        Event::BeatBegin => broken_promises(known, now),
        Event::Step(_) => Ok(Vec::new(known.alloc)),
        Event::Own(_) => Ok(Vec::new(known.alloc)),
        Event::Lost(_, _) => Ok(Vec::new(known.alloc)),
        Event::Decay => Ok(Vec::new(known.alloc)),
        Event::RoundEnd(_) => Ok(Vec::new(known.alloc)),
        Event::Shut => Ok(Vec::new(known.alloc)),
    }
}

/// A list of one.
fn only(alloc: Global, fallen: Fallen) -> Result<Vec<Fallen>, AllocError>
    ensures { IfOk result (λ list. list.items ≡ fallen ∷ []) }
{
    let mut list = Vec::new(alloc);
    list.push(fallen)?;
    Ok(list)
}

fn fallen_rpc(known: &Known, from: PeerNo, now: Millis) -> Result<Vec<Fallen>, AllocError>
    ensures { IfOk result (λ list. (L : Entries)
        → Knows known.now now.0 L
        → list.items
        ≡ (if is_graylisted (peer_with known.now.setup) L now.0 from then fallen.Graylisted from ∷ [] else [])) }
{
    if thresholds::is_graylisted(known, from, now) {
        return only(known.alloc, Fallen::Graylisted(from));
    }
    Ok(Vec::new(known.alloc))
}

fn fallen_part(
    known: &Known,
    from: PeerNo,
    part: &RpcPart,
    now: Millis,
) -> Result<Vec<Fallen>, AllocError>
    ensures { IfOk result (λ list. (L : Entries)
        → Knows known.now now.0 L
        → list.items ≡ fallen_part (peer_with known.now.setup) L now.0 from part.now) }
{
    match part {
        RpcPart::Sub(_) => Ok(Vec::new(known.alloc)),
        RpcPart::Msg(_) => Ok(Vec::new(known.alloc)),
        RpcPart::Have(_) => Ok(Vec::new(known.alloc)),
        RpcPart::Want(request) => fallen_request(known, from, request.get(), now),
        RpcPart::GraftIn(graft) => fallen_graft(known, from, graft.get(), now),
        RpcPart::PruneIn(_) => Ok(Vec::new(known.alloc)),
    }
}

// ---- GRAFTs

fn fallen_graft(
    known: &Known,
    from: PeerNo,
    graft: &Graft,
    now: Millis,
) -> Result<Vec<Fallen>, AllocError>
    ensures { IfOk result (λ list. (L : Entries)
        → Knows known.now now.0 L
        → list.items
        ≡ fallen_graft from (topic_or_empty graft.now.topic)
        (graft_answer (peer_with known.now.setup) L now.0 from (topic_or_empty graft.now.topic))) }
{
    let topic = Topic::or_empty(&graft.topic)?;
    let answer = graft_answer(known, from, &topic, now);
    fallen_by(known.alloc, from, topic, answer)
}

fn fallen_by(
    alloc: Global,
    from: PeerNo,
    topic: Topic,
    answer: GraftAnswer,
) -> Result<Vec<Fallen>, AllocError>
    ensures { IfOk result (λ list. list.items ≡ fallen_graft from topic answer) }
{
    match answer {
        GraftAnswer::PassedOver => Ok(Vec::new(alloc)),
        GraftAnswer::Refused(why) => only(alloc, Fallen::Graft(from, topic, why)),
        GraftAnswer::Taken => Ok(Vec::new(alloc)),
    }
}

// ---- requests

fn fallen_request(
    known: &Known,
    from: PeerNo,
    request: &IWant,
    now: Millis,
) -> Result<Vec<Fallen>, AllocError>
    ensures { IfOk result (λ list. (L : Entries)
        → Knows known.now now.0 L
        → list.items ≡ fallen_request (peer_with known.now.setup) L now.0 from request.now) }
{
    let ids = ids_in(known.alloc, request.ids.as_slice())?;
    if thresholds::is_ignored(known, from, now) {
        return each_ignored(known.alloc, from, &ids);
    }
    without_answers(known, from, &ids)
}

fn each_ignored(alloc: Global, from: PeerNo, ids: &[MsgId]) -> Result<Vec<Fallen>, AllocError>
    ensures { IfOk result (λ list. list.items
        ≡ map (λ (id : MsgIdValue). fallen.Request from id Ignored) ids.now) }
{
    let mut list = Vec::with_capacity(alloc, ids.len())?;
    for id in ids {
        list.push(Fallen::Request(from, *id, NoAnswer::Ignored))?;
    }
    Ok(list)
}

// ---- promises

/// Returns the overdue promises of neighbours that are up.
fn broken_promises(known: &Known, now: Millis) -> Result<Vec<Fallen>, AllocError>
    ensures { IfOk result (λ list. (L : Entries)
        → Agrees known.now.tables L
        → list.items ≡ map fallen.Broken (broken (peer_with known.now.setup) L now.0)) }
{
    let mut list = Vec::new(known.alloc);
    for neighbour in &known.setup.neighbours {
        add_broken_promises(known, &mut list, neighbour.peer, now)?;
    }
    Ok(list)
}

/// Adds the overdue promises of a neighbour, if it is up.
fn add_broken_promises(
    known: &Known,
    list: &mut Vec<Fallen>,
    peer: PeerNo,
    now: Millis,
) -> Result<(), AllocError>
    ensures { OnOk result ((L : Entries)
        → Agrees known.now.tables L
        → list.new.items ≡ list.old.items ++ map fallen.Broken (broken_by L now.0 peer)) }
{
    if !known.tables.neighbours.is_up(peer) {
        return Ok(());
    }
    for promise in known.tables.promises.waiting() {
        add_if_overdue(list, promise, peer, now)?;
    }
    Ok(())
}

/// Adds a promise, if it is a neighbour's and its time has come.
fn add_if_overdue(
    list: &mut Vec<Fallen>,
    promise: &Promise,
    peer: PeerNo,
    now: Millis,
) -> Result<(), AllocError>
    ensures { OnOk result (list.new.items
        ≡ list.old.items
        ++ (if same_peer promise.now.from peer && nat_le promise.now.until.0 now.0
        then fallen.Broken promise.now ∷ []
        else [])) }
{
    if promise.from == peer && promise.until.0 <= now.0 {
        list.push(Fallen::Broken(*promise))?;
        return Ok(());
    }
    Ok(())
}
