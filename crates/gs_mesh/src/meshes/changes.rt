//! Changes of what is kept about one topic.
ghost use Rattle.std.specs.Prelude.{◌≡◌, [], false, true, None, Some, if◌then◌else◌, OnErr, OnOk};
ghost use Rattle.gs_base.specs.declared.names.PeerNo.{PeerNo as PeerNoValue};
ghost use Rattle.gs_base.specs.Names.{same_peer};
ghost use Rattle.gs_params.specs.Picks.{IsAscending};
ghost use Rattle.gs_mesh.specs.Backoffs.{later};
ghost use Rattle.gs_mesh.specs.Meshes.{ChangesBackoffs, Puts, SayTheSame, backoff_until, fanout, is_kept, kept, members};
ghost use Rattle.gs_mesh.specs.Peers.{is_among, put_in, without};

use crate::topic_mesh::TopicMesh;
use gs_base::{Millis, PeerNo, Topic, clone_of};
use indexmap::IndexMap;
use std::alloc::{AllocError, Global};

/// Makes a place for what is kept about a topic, which is nothing at first.
///
/// # Errors
/// `AllocError` if memory runs out.
pub(crate) fn keep(
    alloc: Global,
    topics: &mut IndexMap<Topic, TopicMesh>,
    topic: &Topic,
) -> Result<(), AllocError>
    ensures keeps { OnOk result (is_kept topics.new.entries topic.now ≡ true) }
    ensures same { SayTheSame topics.old.entries topics.new.entries }
{
    if topics.get(topic).is_none() {
        topics.insert(clone_of(topic)?, TopicMesh::new(alloc))?;
    }
    Ok(())
}

pub(crate) fn join(topics: &mut IndexMap<Topic, TopicMesh>, topic: &Topic)
    requires kept { is_kept topics.old.entries topic.now ≡ true }
    ensures { Puts topics.old.entries topics.new.entries topic.now
        (record (kept topics.old.entries topic.now) { is_joined = true }) }
{
    if let Some(mesh) = topics.get_mut(topic) {
        mesh.is_joined = true;
    }
}

/// Unsubscribes the peer from a topic. Returns who was in the topic's mesh, since each of them is sent a PRUNE.
pub(crate) fn leave(
    alloc: Global,
    topics: &mut IndexMap<Topic, TopicMesh>,
    topic: &Topic,
) -> Vec<PeerNo>
    ensures value { result.items ≡ members topics.old.entries topic.now }
    ensures ascending { IsAscending result.items }
    ensures leaves { Puts topics.old.entries topics.new.entries topic.now
        (record (kept topics.old.entries topic.now) { is_joined = false; members = [] }) }
{
    match topics.get_mut(topic) {
        Some(mesh) => {
            mesh.is_joined = false;
            mesh.members.take()
        }
        None => Vec::new(alloc),
    }
}

/// Adds a peer to the mesh of a topic.
///
/// # Errors
/// `AllocError` if memory runs out. Nothing is changed then.
pub(crate) fn graft(
    topics: &mut IndexMap<Topic, TopicMesh>,
    peer: PeerNo,
    topic: &Topic,
) -> Result<(), AllocError>
    requires kept { is_kept topics.old.entries topic.now ≡ true }
    ensures grafts { OnOk result (Puts topics.old.entries topics.new.entries topic.now
        (record (kept topics.old.entries topic.now) {
          members = put_in peer (members topics.old.entries topic.now);
        })) }
    ensures unchanged { OnErr result (SayTheSame topics.old.entries topics.new.entries) }
{
    match topics.get_mut(topic) {
        Some(mesh) => mesh.members.insert(peer),
        None => Ok(()),
    }
}

/// Removes a peer from the mesh of a topic. Says whether the peer was in it.
pub(crate) fn prune(topics: &mut IndexMap<Topic, TopicMesh>, peer: PeerNo, topic: &Topic) -> bool
    ensures answer { result ≡ is_among (members topics.old.entries topic.now) peer }
    ensures prunes { Puts topics.old.entries topics.new.entries topic.now
        (record (kept topics.old.entries topic.now) {
          members = without peer (members topics.old.entries topic.now);
        }) }
{
    match topics.get_mut(topic) {
        Some(mesh) => mesh.members.remove(peer),
        None => false,
    }
}

/// Notes that a neighbour may not be grafted to the mesh of a topic before a moment.
///
/// # Errors
/// `AllocError` if memory runs out. Nothing is changed then.
pub(crate) fn note_backoff(
    topics: &mut IndexMap<Topic, TopicMesh>,
    peer: PeerNo,
    topic: &Topic,
    end: Millis,
) -> Result<(), AllocError>
    requires kept { is_kept topics.old.entries topic.now ≡ true }
    ensures notes { OnOk result ((q : PeerNoValue)
        → backoff_until topics.new.entries q topic.now
        ≡ (if same_peer peer q
        then later end (backoff_until topics.old.entries peer topic.now)
        else backoff_until topics.old.entries q topic.now)) }
    ensures rest { OnOk result (ChangesBackoffs topics.old.entries topics.new.entries topic.now) }
    ensures unchanged { OnErr result (SayTheSame topics.old.entries topics.new.entries) }
{
    match topics.get_mut(topic) {
        Some(mesh) => mesh.backoffs.note(peer, end),
        None => Ok(()),
    }
}

/// Adds a peer to the fanout of a topic.
///
/// # Errors
/// `AllocError` if memory runs out. Nothing is changed then.
pub(crate) fn fan(
    topics: &mut IndexMap<Topic, TopicMesh>,
    peer: PeerNo,
    topic: &Topic,
) -> Result<(), AllocError>
    requires kept { is_kept topics.old.entries topic.now ≡ true }
    ensures fans { OnOk result (Puts topics.old.entries topics.new.entries topic.now
        (record (kept topics.old.entries topic.now) {
          fanout = put_in peer (fanout topics.old.entries topic.now);
        })) }
    ensures unchanged { OnErr result (SayTheSame topics.old.entries topics.new.entries) }
{
    match topics.get_mut(topic) {
        Some(mesh) => mesh.fanout.insert(peer),
        None => Ok(()),
    }
}

/// Removes a peer from the fanout of a topic. Says whether the peer was in it.
pub(crate) fn unfan(topics: &mut IndexMap<Topic, TopicMesh>, peer: PeerNo, topic: &Topic) -> bool
    ensures answer { result ≡ is_among (fanout topics.old.entries topic.now) peer }
    ensures unfans { Puts topics.old.entries topics.new.entries topic.now
        (record (kept topics.old.entries topic.now) {
          fanout = without peer (fanout topics.old.entries topic.now);
        }) }
{
    match topics.get_mut(topic) {
        Some(mesh) => mesh.fanout.remove(peer),
        None => false,
    }
}

pub(crate) fn publish_at(topics: &mut IndexMap<Topic, TopicMesh>, topic: &Topic, now: Millis)
    requires kept { is_kept topics.old.entries topic.now ≡ true }
    ensures { Puts topics.old.entries topics.new.entries topic.now
        (record (kept topics.old.entries topic.now) { last_published = Some now }) }
{
    if let Some(mesh) = topics.get_mut(topic) {
        mesh.last_published = Some(now);
    }
}

pub(crate) fn drop_fanout(topics: &mut IndexMap<Topic, TopicMesh>, topic: &Topic)
    ensures { Puts topics.old.entries topics.new.entries topic.now
        (record (kept topics.old.entries topic.now) { fanout = []; last_published = None }) }
{
    if let Some(mesh) = topics.get_mut(topic) {
        mesh.fanout.clear();
        mesh.last_published = None;
    }
}
