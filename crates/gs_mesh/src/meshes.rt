mod changes;

ghost use Rattle.std.specs.Prelude.{◌≡◌, [], false, true, None, Some, if◌then◌else◌, OnErr, OnOk};
ghost use Rattle.gs_base.specs.declared.names.PeerNo.{PeerNo as PeerNoValue};
ghost use Rattle.gs_base.specs.Names.{same_peer};
ghost use Rattle.gs_params.specs.Picks.{IsAscending};
ghost use Rattle.gs_mesh.specs.Backoffs.{later};
ghost use Rattle.gs_mesh.specs.Meshes.{ChangesBackoffs, Puts, SayTheSame, backoff_until, fanout, kept, members};
ghost use Rattle.gs_mesh.specs.Peers.{is_among, put_in, without};

use crate::topic_mesh::TopicMesh;
use gs_base::{Millis, PeerNo, Topic};
use indexmap::IndexMap;
use std::alloc::{AllocError, Global};
use std::marker::Model;

/// The meshes and fanouts of topics, and the neighbours that may not be grafted to them yet (gossipsub v1.0, "Router State";
/// v1.1, "Prune Backoff").
///
/// The peer is not subscribed to a topic that no call has changed. Such a topic has no members, fanout or backoffs. A
/// look-up, or a call that takes no memory, costs one look-up of its topic by hash. A call that may take memory costs two,
/// and an insertion if the topic is new. After `AllocError` each look-up answers as before.
#[derive(Drop)]
pub struct Meshes {
    alloc: Global,
    topics: IndexMap<Topic, TopicMesh>,
}

impl Model for Meshes {
    ghost use Rattle.std.specs.Prelude.{List};
    ghost use Rattle.gs_base.specs.declared.names.Topic.{Topic};
    ghost use Rattle.gs_mesh.specs.declared.topic_mesh.TopicMesh.{TopicMesh};

    ghost Value = { List (Topic × TopicMesh) };

    ghost view = { λ meshes. meshes.topics.entries };
}

impl Meshes {
    /// Returns meshes in which nothing is kept about any topic. It takes no memory.
    pub fn new(alloc: Global) -> Meshes
        ensures { result ≡ [] }
    {
        Meshes {
            alloc,
            topics: IndexMap::new(alloc),
        }
    }

    // ---- look-ups

    /// Says whether the peer is subscribed to a topic, and so has a mesh for it.
    pub fn is_joined(&self, topic: &Topic) -> bool
        ensures { result ≡ (kept self.now topic.now).is_joined }
    {
        match self.topics.get(topic) {
            Some(mesh) => mesh.is_joined,
            None => false,
        }
    }

    /// Returns who is in the mesh of a topic, ascending by number.
    pub fn members(&self, topic: &Topic) -> &[PeerNo]
        ensures value { result.now ≡ members self.now topic.now }
        ensures ascending { IsAscending result.now }
    {
        match self.topics.get(topic) {
            Some(mesh) => mesh.members.as_slice(),
            None => &[],
        }
    }

    /// Returns who is in the fanout of a topic, ascending by number.
    pub fn fanout(&self, topic: &Topic) -> &[PeerNo]
        ensures value { result.now ≡ fanout self.now topic.now }
        ensures ascending { IsAscending result.now }
    {
        match self.topics.get(topic) {
            Some(mesh) => mesh.fanout.as_slice(),
            None => &[],
        }
    }

    /// Returns when the peer last published on a topic without being subscribed, if that still keeps a fanout.
    pub fn last_published(&self, topic: &Topic) -> Option<Millis>
        ensures { result ≡ (kept self.now topic.now).last_published }
    {
        match self.topics.get(topic) {
            Some(mesh) => mesh.last_published,
            None => None,
        }
    }

    /// Returns the moment from which a neighbour may be grafted to the mesh of a topic. It is 0 if the neighbour always may.
    pub fn backoff_until(&self, peer: PeerNo, topic: &Topic) -> Millis
        ensures { result ≡ backoff_until self.now peer topic.now }
    {
        match self.topics.get(topic) {
            Some(mesh) => mesh.backoffs.until(peer),
            None => Millis(0),
        }
    }

    // ---- subscriptions

    /// Subscribes the peer to a topic. The topic's mesh and fanout stay (gossipsub v1.0, "Topic Membership"). A known topic
    /// is not cloned.
    ///
    /// # Errors
    /// `AllocError` if memory runs out. Each look-up then answers as before.
    pub fn join(&mut self, topic: &Topic) -> Result<(), AllocError>
        ensures joins { OnOk result (Puts self.old self.new topic.now
            (record (kept self.old topic.now) { is_joined = true })) }
        ensures unchanged { OnErr result (SayTheSame self.old self.new) }
    {
        changes::keep(self.alloc, &mut self.topics, topic)?;
        changes::join(&mut self.topics, topic);
        Ok(())
    }

    /// Unsubscribes the peer from a topic, and ends its mesh (gossipsub v1.0, "Topic Membership"). Returns who was in the
    /// mesh, ascending by number. It takes no memory.
    pub fn leave(&mut self, topic: &Topic) -> Vec<PeerNo>
        ensures value { result.items ≡ members self.old topic.now }
        ensures ascending { IsAscending result.items }
        ensures leaves { Puts self.old self.new topic.now
            (record (kept self.old topic.now) { is_joined = false; members = [] }) }
    {
        changes::leave(self.alloc, &mut self.topics, topic)
    }

    // ---- the mesh

    /// Adds a peer to the mesh of a topic (gossipsub v1.0, "Control Messages", GRAFT). A peer that is already in it stays.
    ///
    /// # Errors
    /// `AllocError` if memory runs out. Each look-up then answers as before.
    pub fn graft(&mut self, peer: PeerNo, topic: &Topic) -> Result<(), AllocError>
        ensures grafts { OnOk result (Puts self.old self.new topic.now
            (record (kept self.old topic.now) { members = put_in peer (members self.old topic.now) })) }
        ensures unchanged { OnErr result (SayTheSame self.old self.new) }
    {
        changes::keep(self.alloc, &mut self.topics, topic)?;
        changes::graft(&mut self.topics, peer, topic)
    }

    /// Removes a peer from the mesh of a topic (gossipsub v1.0, "Control Messages", PRUNE). Says whether the peer was in it.
    /// It takes no memory.
    pub fn prune(&mut self, peer: PeerNo, topic: &Topic) -> bool
        ensures answer { result ≡ is_among (members self.old topic.now) peer }
        ensures prunes { Puts self.old self.new topic.now
            (record (kept self.old topic.now) { members = without peer (members self.old topic.now) }) }
    {
        changes::prune(&mut self.topics, peer, topic)
    }

    /// Notes that a neighbour may not be grafted to the mesh of a topic before a moment. A later moment that was noted
    /// before stays (gossipsub v1.1, "Prune Backoff").
    ///
    /// # Errors
    /// `AllocError` if memory runs out. Each look-up then answers as before.
    pub fn note_backoff(
        &mut self,
        peer: PeerNo,
        topic: &Topic,
        end: Millis,
    ) -> Result<(), AllocError>
        ensures notes { OnOk result ((q : PeerNoValue)
            → backoff_until self.new q topic.now
            ≡ (if same_peer peer q
            then later end (backoff_until self.old peer topic.now)
            else backoff_until self.old q topic.now)) }
        ensures rest { OnOk result (ChangesBackoffs self.old self.new topic.now) }
        ensures unchanged { OnErr result (SayTheSame self.old self.new) }
    {
        changes::keep(self.alloc, &mut self.topics, topic)?;
        changes::note_backoff(&mut self.topics, peer, topic, end)
    }

    // ---- the fanout

    /// Adds a peer to the fanout of a topic (gossipsub v1.0, "Message Processing"). A peer that is already in it stays.
    ///
    /// # Errors
    /// `AllocError` if memory runs out. Each look-up then answers as before.
    pub fn fan(&mut self, peer: PeerNo, topic: &Topic) -> Result<(), AllocError>
        ensures fans { OnOk result (Puts self.old self.new topic.now
            (record (kept self.old topic.now) { fanout = put_in peer (fanout self.old topic.now) })) }
        ensures unchanged { OnErr result (SayTheSame self.old self.new) }
    {
        changes::keep(self.alloc, &mut self.topics, topic)?;
        changes::fan(&mut self.topics, peer, topic)
    }

    /// Removes a peer from the fanout of a topic (gossipsub v1.0, "Fanout maintenance"). Says whether the peer was in it. It
    /// takes no memory.
    pub fn unfan(&mut self, peer: PeerNo, topic: &Topic) -> bool
        ensures answer { result ≡ is_among (fanout self.old topic.now) peer }
        ensures unfans { Puts self.old self.new topic.now
            (record (kept self.old topic.now) { fanout = without peer (fanout self.old topic.now) }) }
    {
        changes::unfan(&mut self.topics, peer, topic)
    }

    /// Notes that the peer published on a topic without being subscribed, which keeps the topic's fanout (gossipsub v1.0,
    /// "Fanout maintenance").
    ///
    /// # Errors
    /// `AllocError` if memory runs out. Each look-up then answers as before.
    pub fn publish_at(&mut self, topic: &Topic, now: Millis) -> Result<(), AllocError>
        ensures publishes { OnOk result (Puts self.old self.new topic.now
            (record (kept self.old topic.now) { last_published = Some now })) }
        ensures unchanged { OnErr result (SayTheSame self.old self.new) }
    {
        changes::keep(self.alloc, &mut self.topics, topic)?;
        changes::publish_at(&mut self.topics, topic, now);
        Ok(())
    }

    /// Ends the fanout of a topic, and forgets the moment that kept it (gossipsub v1.0, "Fanout maintenance"). It takes no
    /// memory.
    pub fn drop_fanout(&mut self, topic: &Topic)
        ensures { Puts self.old self.new topic.now
            (record (kept self.old topic.now) { fanout = []; last_published = None }) }
    {
        changes::drop_fanout(&mut self.topics, topic);
    }
}
