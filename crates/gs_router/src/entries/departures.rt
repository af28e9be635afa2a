//! Neighbours that are lost, and what is refused if a link is not open.
ghost use Rattle.std.specs.Prelude.{◌≡◌, [], ◌∷◌, ◌++◌, not, IfOk, OnOk, List, filter, map};
ghost use Rattle.gs_base.specs.declared.mark.Mark.TheVariants.{Unfanned};
ghost use Rattle.gs_base.specs.declared.names.Topic.{Topic as TopicValue};
ghost use Rattle.gs_mesh.specs.Peers.{is_among};
ghost use Rattle.gs_rules.specs.Tables.{Entries, is_shut, up};
ghost use Rattle.gs_rules.specs.Membership.{losing_marks};
ghost use Rattle.gs_rules.specs.Meshes.{fanout};
ghost use Rattle.gs_rules.specs.MeshRules.{lost_rule};
ghost use Rattle.gs_rules.specs.Refusals.{first_of};
ghost use Rattle.gs_rules.specs.declared.refusal.Refusal.TheVariants as refusals;
ghost use Rattle.gs_router.specs.Tables.{Agrees};
ghost use Rattle.gs_router.specs.Known.{Knows, peer_with};

use crate::entries::membership;
use crate::known::Known;
use gs_base::{Mark, Millis, PeerNo, Seq, Topic, clone_of};
use gs_rules::{Effects, Refusal};
use std::alloc::AllocError;

/// Returns the effects of an event by which a neighbour is lost. The neighbour leaves every mesh and every fanout.
pub fn lost(known: &Known, peer: PeerNo, now: Millis) -> Result<Effects, AllocError>
    ensures { IfOk result (λ effects. (L : Entries)
        → Knows known.now now.0 L
        → effects ≡ lost_rule (peer_with known.now.setup) L now peer) }
{
    let marks = losing_marks(known, peer, now)?;
    Ok(Effects {
        marks,
        ..Effects::none(known.alloc)
    })
}

/// Returns what is remembered when a neighbour is lost.
fn losing_marks(known: &Known, peer: PeerNo, now: Millis) -> Result<Seq<Mark>, AllocError>
    ensures { IfOk result (λ marks. (L : Entries)
        → Knows known.now now.0 L
        → marks ≡ losing_marks (peer_with known.now.setup) L now.0 peer) }
{
    let topics = known.tables.mesh_topics.list(known.alloc)?;
    let mut marks = Seq::new(known.alloc);
    let left = membership::meshes_with(known, peer, topics.as_slice())?;
    membership::leave(known, &mut marks, left.as_slice(), now)?;
    unfan_everywhere(known, &mut marks, peer, topics.as_slice())?;
    Ok(marks)
}

/// Lets a neighbour leave the fanouts of these topics that it is in.
fn unfan_everywhere(
    known: &Known,
    marks: &mut Seq<Mark>,
    peer: PeerNo,
    topics: &[Topic],
) -> Result<(), AllocError>
    ensures { OnOk result ((L : Entries)
        → Agrees known.now.tables L
        → marks.new
        ≡ marks.old ++ map (Unfanned peer) (filter (λ (t : TopicValue). is_among (fanout L t) peer) topics.now)) }
{
    for topic in topics {
        if known.tables.memberships.is_fanned(peer, topic) {
            marks.push(Mark::Unfanned(peer, clone_of(topic)?))?;
        }
    }
    Ok(())
}

/// Returns why nothing may be done to a neighbour's link, if that is so.
pub fn refusal_of_link(known: &Known, peer: PeerNo) -> Option<Refusal>
    ensures { (L : Entries)
        → Agrees known.now.tables L
        → result ≡ first_of ((is_shut L, refusals.Stopped) ∷ (not (up L peer), refusals.NotOpen) ∷ []) }
{
    if known.tables.neighbours.is_shut() {
        return Some(Refusal::Stopped);
    }
    if !known.tables.neighbours.is_up(peer) {
        return Some(Refusal::NotOpen);
    }
    None
}
