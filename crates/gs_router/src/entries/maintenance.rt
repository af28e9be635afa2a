//! What a heartbeat does to meshes and fanouts (gossipsub v1.0, "Mesh maintenance" and "Fanout maintenance"; v1.1,
//! "Heartbeat Maintenance", "Outbound Mesh Quotas" and "Opportunistic Grafting").
ghost use Rattle.std.specs.Prelude.{◌≡◌, ◌++◌, IfOk};
ghost use Rattle.gs_base.specs.declared.names.Millis.{Millis as MillisValue};
ghost use Rattle.gs_rules.specs.Tables.{Entries};
ghost use Rattle.gs_rules.specs.BeatRules.{fan_beat_rule, fan_end, mending, mesh_beat_rule, refanning, scored_member, scored_members};
ghost use Rattle.gs_rules.specs.MeshRules.{receivers as receivers_of};
ghost use Rattle.gs_rules.specs.Membership.{barring, each_on, leaving};
ghost use Rattle.gs_rules.specs.Modes.{Follows, exact};
ghost use Rattle.gs_router.specs.Tables.{Agrees};
ghost use Rattle.gs_router.specs.Known.{IsFit, Knows, peer_with};

use crate::entries::membership;
use crate::entries::selection::{candidates, is_outbound, receivers};
use crate::entries::sends::{send_to_each, to_each};
use crate::known::Known;
use crate::peer_lists::{left_of, those_among, those_outside};
use gs_base::{Mark, Millis, PeerNo, Rpc, Seq, Topic};
use gs_mesh::{Heartbeat, Member, MeshChange, choose_heartbeat};
use gs_params::{Words, pick};
use gs_rules::Effects;
use std::alloc::AllocError;

// ---- meshes

/// Returns a neighbour as a member, with its score and whether this side dialled it.
fn scored_member(known: &Known, peer: PeerNo, now: Millis) -> Member
    ensures { (L : Entries)
        → Knows known.now now.0 L
        → result ≡ scored_member (peer_with known.now.setup) L now.0 peer }
{
    Member {
        peer,
        score: known.tables.standings.score(peer, now),
        outbound: is_outbound(known, peer),
    }
}

fn scored_members(known: &Known, peers: &[PeerNo], now: Millis) -> Result<Vec<Member>, AllocError>
    ensures { IfOk result (λ members. (L : Entries)
        → Knows known.now now.0 L
        → members.items ≡ scored_members (peer_with known.now.setup) L now.0 peers.now) }
{
    let mut members = Vec::new(known.alloc);
    for peer in peers {
        members.push(scored_member(known, *peer, now))?;
    }
    Ok(members)
}

/// Returns what is remembered about those who leave a mesh at a heartbeat. Each is charged, and may not come back for a
/// while.
fn parting(
    known: &Known,
    topic: &Topic,
    pruned: &[PeerNo],
    now: Millis,
) -> Result<Seq<Mark>, AllocError>
    ensures { IfOk result (λ marks. (L : Entries)
        → Knows known.now now.0 L
        → marks
        ≡ leaving (peer_with known.now.setup) L now.0 (each_on topic.now pruned.now)
        ++ barring now.0 known.now.setup.params.timing.prune_backoff_s (each_on topic.now pruned.now)) }
{
    let pairs = membership::each_on(known.alloc, topic, pruned)?;
    let seconds = known.setup.params.timing.prune_backoff_s;
    let mut marks = Seq::new(known.alloc);
    membership::leave(known, &mut marks, pairs.as_slice(), now)?;
    membership::bar(&mut marks, pairs.as_slice(), seconds, now)?;
    Ok(marks)
}

/// Lets some leave the mesh of a topic, and others come into it.
fn mending(
    known: &Known,
    topic: &Topic,
    change: &MeshChange,
    now: Millis,
) -> Result<Effects, AllocError>
    ensures { IfOk result (λ effects. (L : Entries)
        → Knows known.now now.0 L
        → effects ≡ mending (peer_with known.now.setup) L now topic.now change.now) }
{
    let seconds = known.setup.params.timing.prune_backoff_s;
    let pruned = change.pruned.as_slice();
    let grafted = change.grafted.as_slice();
    let mut sends = to_each(
        known.alloc,
        Rpc::pruning(known.alloc, topic, seconds)?,
        pruned,
    )?;
    send_to_each(
        known.alloc,
        &mut sends,
        Rpc::grafting(known.alloc, topic)?,
        grafted,
    )?;
    let mut marks = parting(known, topic, pruned, now)?;
    let entering = membership::each_on(known.alloc, topic, grafted)?;
    membership::enter(&mut marks, entering.as_slice())?;
    Ok(Effects {
        sends,
        marks,
        ..Effects::none(known.alloc)
    })
}

/// Returns the effects of a heartbeat on the mesh of a topic, which is mended.
pub fn mesh_beat<W: Words>(
    known: &Known,
    topic: &Topic,
    now: Millis,
    words: &mut W,
) -> Result<Effects, AllocError>
    requires fit { IsFit known.now.setup }
    requires knows { (L : Entries) × Knows known.now now.0 L }
    ensures { IfOk result (λ effects. (L : Entries)
        → Knows known.now now.0 L
        → Follows (exact W.word W.after) (mesh_beat_rule (peer_with known.now.setup) L now topic.now)
        words.old effects words.new) }
{
    let mesh = scored_members(known, known.tables.memberships.members(topic), now)?;
    let near = candidates(known, topic, now)?;
    let candidates = scored_members(known, &near, now)?;
    let heartbeat = Heartbeat {
        params: &known.setup.params,
        number: known.tables.beats.count(),
    };
    let change = choose_heartbeat(known.alloc, heartbeat, &mesh, &candidates, words)?;
    let effects = mending(known, topic, &change, now)?;
    Ok(effects)
}

// ---- fanouts

/// Lets these come into the fanout of a topic, and lets all that are not among the receivers leave it.
fn refanning(
    known: &Known,
    topic: &Topic,
    receivers: &[PeerNo],
    chosen: &[PeerNo],
) -> Result<Effects, AllocError>
    ensures { IfOk result (λ effects. (L : Entries) (at : MillisValue)
        → Agrees known.now.tables L
        → receivers.now ≡ receivers_of (peer_with known.now.setup) L at.0 topic.now
        → effects ≡ refanning (peer_with known.now.setup) L at topic.now chosen.now) }
{
    let fanout = known.tables.memberships.fanout(topic);
    let gone = those_outside(known.alloc, receivers, fanout)?;
    let mut marks = Seq::new(known.alloc);
    membership::unfan(&mut marks, topic, &gone)?;
    membership::fan(&mut marks, topic, chosen)?;
    Ok(Effects {
        marks,
        ..Effects::none(known.alloc)
    })
}

/// Returns the effects of a heartbeat on the fanout of a topic, which is mended.
pub fn fan_beat<W: Words>(
    known: &Known,
    topic: &Topic,
    now: Millis,
    words: &mut W,
) -> Result<Effects, AllocError>
    requires fit { IsFit known.now.setup }
    requires knows { (L : Entries) × Knows known.now now.0 L }
    ensures { IfOk result (λ effects. (L : Entries)
        → Knows known.now now.0 L
        → Follows (exact W.word W.after) (fan_beat_rule (peer_with known.now.setup) L now topic.now)
        words.old effects words.new) }
{
    let receivers = receivers(known, topic, now)?;
    let fanout = known.tables.memberships.fanout(topic);
    let stay = those_among(known.alloc, &receivers, fanout)?;
    let others = those_outside(known.alloc, fanout, &receivers)?;
    let left = left_of(known.setup.params.degrees.d as usize, &stay);
    let chosen = pick(known.alloc, &others, left, words)?;
    let effects = refanning(known, topic, &receivers, &chosen)?;
    Ok(effects)
}

/// Returns the effects of the end of the fanout of a topic.
pub fn fan_end(known: &Known, topic: &Topic) -> Result<Effects, AllocError>
    ensures { IfOk result (λ effects. (L : Entries)
        → Agrees known.now.tables L
        → effects ≡ fan_end L topic.now) }
{
    let mut marks = Seq::new(known.alloc);
    membership::unfan(&mut marks, topic, known.tables.memberships.fanout(topic))?;
    Ok(Effects {
        marks,
        ..Effects::none(known.alloc)
    })
}
