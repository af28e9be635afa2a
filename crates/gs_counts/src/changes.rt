//! What an entry delivers to the peer's own user, and how it changes meshes.
ghost use Rattle.std.specs.Prelude.{◌≡◌, ◌∷◌, ◌++◌, OnOk};
ghost use Rattle.std.specs.List.{flat_map};
ghost use Rattle.gs_counts.specs.Changes.{cause_happenings, delivery_happenings, graft_cause, mark_happenings, prune_cause, refusal_happenings};
ghost use Rattle.gs_counts.specs.Happenings.{on_topic};

use crate::happening::{Happening, Scene, note, note_on};
use crate::kind::Kind;
use bytes::Bytes;
use gs_base::{Mark, PeerNo, Topic};
use gs_rules::{Event, RefusedLine};
use std::alloc::AllocError;

/// Notes what is delivered.
pub(crate) fn note_deliveries(
    list: &mut Vec<Happening>,
    scene: Scene,
    delivered: &[(Topic, Bytes)],
) -> Result<(), AllocError>
    ensures { OnOk result (list.new.items ≡ list.old.items ++ flat_map (delivery_happenings scene) delivered.now) }
{
    for delivery in delivered {
        note_on(list, scene, &delivery.0, Kind::Delivered, 1)?;
    }
    Ok(())
}

/// Notes how marks of an event change meshes.
pub(crate) fn note_marks(
    list: &mut Vec<Happening>,
    scene: Scene,
    event: &Event,
    marks: &[Mark],
) -> Result<(), AllocError>
    ensures { OnOk result (list.new.items ≡ list.old.items ++ flat_map (mark_happenings scene event.now) marks.now) }
{
    for mark in marks {
        note_mark(list, scene, event, mark)?;
    }
    Ok(())
}

/// Notes how a mark of an event changes meshes. Each mark is named, so that a new one must be decided on.
fn note_mark(
    list: &mut Vec<Happening>,
    scene: Scene,
    event: &Event,
    mark: &Mark,
) -> Result<(), AllocError>
    ensures { OnOk result (list.new.items ≡ list.old.items ++ mark_happenings scene event.now mark.now) }
{
    match mark {
        Mark::Grafted(q, topic) => note_change(
            list,
            scene.with(*q),
            topic,
            Kind::Grafted,
            graft_cause(event),
        ),
        Mark::Pruned(q, topic) => note_change(
            list,
            scene.with(*q),
            topic,
            Kind::Pruned,
            prune_cause(event),
        ),
        Mark::Seen(_, _) => Ok(()),
        Mark::First(_, _, _) => Ok(()),
        Mark::Near(_, _, _) => Ok(()),
        Mark::Invalid(_, _) => Ok(()),
        Mark::Deficit(_, _, _) => Ok(()),
        Mark::Misbehaviour(_) => Ok(()),
        Mark::Cached(_, _) => Ok(()),
        Mark::Answered(_, _) => Ok(()),
        Mark::Offered(_) => Ok(()),
        Mark::Asked(_, _) => Ok(()),
        Mark::Fanned(_, _) => Ok(()),
        Mark::Unfanned(_, _) => Ok(()),
        Mark::Backoff(_, _, _) => Ok(()),
        Mark::Published(_) => Ok(()),
    }
}

/// Notes a change of a mesh, and what else it counts as.
fn note_change(
    list: &mut Vec<Happening>,
    scene: Scene,
    topic: &Topic,
    change: Kind,
    cause: Option<Kind>,
) -> Result<(), AllocError>
    ensures { OnOk result (list.new.items
        ≡ list.old.items ++ on_topic scene topic.now change 1 ∷ cause_happenings scene topic.now cause) }
{
    note_on(list, scene, topic, change, 1)?;
    match cause {
        Some(cause) => note_on(list, scene, topic, cause, 1),
        None => Ok(()),
    }
}

/// What else a neighbour that comes into a mesh at an event counts as, by what brought it in. Each event is named, so that a
/// new one must be decided on.
fn graft_cause(event: &Event) -> Option<Kind>
    ensures { result ≡ graft_cause event.now }
{
    match event {
        Event::Part(_, _) => Some(Kind::GraftedByNeighbour),
        Event::Step(_) => Some(Kind::GraftedByHeartbeat),
        Event::Heard(_, _) => None,
        Event::Late(_, _) => None,
        Event::BeatBegin => None,
        Event::Own(_) => None,
        Event::Lost(_, _) => None,
        Event::Decay => None,
        Event::RoundEnd(_) => None,
        Event::Shut => None,
    }
}

/// What else a neighbour that leaves a mesh at an event counts as, by what took it out. Each event is named, so that a new
/// one must be decided on.
fn prune_cause(event: &Event) -> Option<Kind>
    ensures { result ≡ prune_cause event.now }
{
    match event {
        Event::Part(_, _) => Some(Kind::PrunedByNeighbour),
        Event::Step(_) => Some(Kind::PrunedByHeartbeat),
        Event::Lost(_, _) => Some(Kind::PrunedByLoss),
        Event::Heard(_, _) => None,
        Event::Late(_, _) => None,
        Event::BeatBegin => None,
        Event::Own(_) => None,
        Event::Decay => None,
        Event::RoundEnd(_) => None,
        Event::Shut => None,
    }
}

/// Notes lines of the script that a peer refused.
pub(crate) fn note_refusals(
    list: &mut Vec<Happening>,
    peer: PeerNo,
    refused: &[RefusedLine],
) -> Result<(), AllocError>
    ensures { OnOk result (list.new.items ≡ list.old.items ++ flat_map (refusal_happenings peer) refused.now) }
{
    for line in refused {
        note(list, Scene::of(line.at, peer), Kind::RefusedLines, 1)?;
    }
    Ok(())
}
