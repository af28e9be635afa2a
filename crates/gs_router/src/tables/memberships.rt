ghost use Rattle.std.specs.Prelude.{◌≡◌, ℕ, List, [], ◌∷◌, None, OnOk, Option, option_map};
ghost use Rattle.gs_base.specs.declared.names.Millis.{Millis as MillisValue};
ghost use Rattle.gs_base.specs.declared.names.PeerNo.{PeerNo as PeerNoValue};
ghost use Rattle.gs_params.specs.Picks.{IsAscending};
ghost use Rattle.gs_base.specs.declared.names.Topic.{Topic as TopicValue};
ghost use Rattle.gs_mesh.specs.Peers.{is_among};
ghost use Rattle.gs_rules.specs.Tables.{Entries, after_marks};
ghost use Rattle.gs_rules.specs.Meshes.{backoff, backoff_after, dropped_after, dropped_by_act, dropped_by_step, fanout, fanout_after, last_published, mesh, mesh_after, published_after};
ghost use Rattle.gs_router.specs.Tables.{AgreesOnMeshes, HasMeshes};

use gs_base::{Mark, Millis, PeerNo, Topic};
use gs_mesh::Meshes;
use gs_plan::Act;
use gs_rules::{BeatStep, Event, StoredEntry};
use std::alloc::{AllocError, Global};

/// Who is in the mesh and in the fanout of each topic. It also has when the router last published on a topic without being
/// subscribed, and who may not be grafted yet.
#[derive(Drop)]
pub struct Memberships {
    meshes: Meshes,
}

impl Memberships {
    /// Returns memberships in which nobody is in any mesh or fanout.
    pub fn new(alloc: Global) -> Memberships
        ensures { AgreesOnMeshes result [] }
    {
        Memberships {
            meshes: Meshes::new(alloc),
        }
    }

    /// Returns who is in the mesh of a topic, ascending by number.
    pub fn members(&self, topic: &Topic) -> &[PeerNo]
        ensures value { (L : Entries) → AgreesOnMeshes self.now L → result.now ≡ mesh L topic.now }
        ensures ascending { IsAscending result.now }
    {
        self.meshes.members(topic)
    }

    /// Returns who is in the fanout of a topic, ascending by number.
    pub fn fanout(&self, topic: &Topic) -> &[PeerNo]
        ensures { (L : Entries) → AgreesOnMeshes self.now L → result.now ≡ fanout L topic.now }
    {
        self.meshes.fanout(topic)
    }

    /// Returns when the router last published on a topic without being subscribed, for as long as that keeps a fanout.
    pub fn last_published(&self, topic: &Topic) -> Option<Millis>
        ensures { (L : Entries)
            → AgreesOnMeshes self.now L
            → option_map (λ (at : MillisValue). at.0) result ≡ last_published L topic.now }
    {
        self.meshes.last_published(topic)
    }

    /// Says whether a neighbour is in the mesh of a topic.
    pub fn is_member(&self, peer: PeerNo, topic: &Topic) -> bool
        ensures { (L : Entries) → AgreesOnMeshes self.now L → result ≡ is_among (mesh L topic.now) peer }
    {
        self.members(topic).contains(&peer)
    }

    /// Says whether a neighbour is in the fanout of a topic.
    pub fn is_fanned(&self, peer: PeerNo, topic: &Topic) -> bool
        ensures { (L : Entries) → AgreesOnMeshes self.now L → result ≡ is_among (fanout L topic.now) peer }
    {
        self.fanout(topic).contains(&peer)
    }

    /// Returns the moment before which a neighbour may not be in the mesh of a topic. It is 0 if the neighbour always may.
    pub fn backoff_until(&self, peer: PeerNo, topic: &Topic) -> Millis
        ensures { (L : Entries) → AgreesOnMeshes self.now L → result.0 ≡ backoff L peer topic.now }
    {
        self.meshes.backoff_until(peer, topic)
    }

    /// Notes who comes into a mesh or a fanout, who leaves one, who may not be grafted, and which fanout ends.
    ///
    /// # Errors
    /// `AllocError` if memory runs out. Some of the entry's marks may then have been noted.
    pub fn note(&mut self, entry: &StoredEntry) -> Result<(), AllocError>
        ensures { OnOk result ((L : Entries) → AgreesOnMeshes self.old L → AgreesOnMeshes self.new (entry.now ∷ L)) }
    {
        self.note_event(entry.event());
        self.note_marks(entry.marks(), entry.at())?;
        Ok(())
    }

    /// Notes that an event came. A fanout ends with a subscription to its topic, and when its time has come. It takes no
    /// memory.
    fn note_event(&mut self, event: &Event)
        ensures { (members fans : TopicValue → List PeerNoValue)
            (publishes : TopicValue → Option ℕ)
            (bars : PeerNoValue → TopicValue → ℕ)
            → HasMeshes self.old members fans publishes bars
            → HasMeshes self.new members
            (λ t. dropped_after t [] event.now (fans t))
            (λ t. dropped_after t None event.now (publishes t))
            bars }
    {
        match event {
            Event::Own(act) => self.note_act(act.get()),
            Event::Step(step) => self.note_step(step),
            _ => {}
        }
    }

    fn note_act(&mut self, act: &Act)
        ensures { (members fans : TopicValue → List PeerNoValue)
            (publishes : TopicValue → Option ℕ)
            (bars : PeerNoValue → TopicValue → ℕ)
            → HasMeshes self.old members fans publishes bars
            → HasMeshes self.new members
            (λ t. dropped_by_act t [] act.now (fans t))
            (λ t. dropped_by_act t None act.now (publishes t))
            bars }
    {
        match act {
            Act::Subscribe(topic) => self.meshes.drop_fanout(topic),
            Act::Unsubscribe(_) => {}
            Act::Publish(_, _) => {}
            Act::Raw(_, _) => {}
            Act::HangUp(_) => {}
        }
    }

    fn note_step(&mut self, step: &BeatStep)
        ensures { (members fans : TopicValue → List PeerNoValue)
            (publishes : TopicValue → Option ℕ)
            (bars : PeerNoValue → TopicValue → ℕ)
            → HasMeshes self.old members fans publishes bars
            → HasMeshes self.new members
            (λ t. dropped_by_step t [] step.now (fans t))
            (λ t. dropped_by_step t None step.now (publishes t))
            bars }
    {
        match step {
            BeatStep::MeshBeat(_) => {}
            BeatStep::FanBeat(_) => {}
            BeatStep::FanEnd(topic) => self.meshes.drop_fanout(topic),
            BeatStep::GossipBeat(_) => {}
            BeatStep::BeatEnd => {}
        }
    }

    fn note_marks(&mut self, marks: &[Mark], at: Millis) -> Result<(), AllocError>
        ensures { OnOk result ((members fans : TopicValue → List PeerNoValue)
            (publishes : TopicValue → Option ℕ)
            (bars : PeerNoValue → TopicValue → ℕ)
            → HasMeshes self.old members fans publishes bars
            → HasMeshes self.new
            (λ t. after_marks (mesh_after t) marks.now (members t))
            (λ t. after_marks (fanout_after t) marks.now (fans t))
            (λ t. after_marks (published_after t at.0) marks.now (publishes t))
            (λ q t. after_marks (backoff_after q t) marks.now (bars q t))) }
    {
        for mark in marks {
            self.note_mark(mark, at)?;
        }
        Ok(())
    }

    fn note_mark(&mut self, mark: &Mark, at: Millis) -> Result<(), AllocError>
        ensures { OnOk result ((members fans : TopicValue → List PeerNoValue)
            (publishes : TopicValue → Option ℕ)
            (bars : PeerNoValue → TopicValue → ℕ)
            → HasMeshes self.old members fans publishes bars
            → HasMeshes self.new
            (λ t. mesh_after t mark.now (members t))
            (λ t. fanout_after t mark.now (fans t))
            (λ t. published_after t at.0 mark.now (publishes t))
            (λ q t. backoff_after q t mark.now (bars q t))) }
    {
        match mark {
            Mark::Grafted(peer, topic) => {
                self.meshes.graft(*peer, topic)?;
                Ok(())
            }
            Mark::Pruned(peer, topic) => {
                let _was_in = self.meshes.prune(*peer, topic);
                Ok(())
            }
            Mark::Fanned(peer, topic) => {
                self.meshes.fan(*peer, topic)?;
                Ok(())
            }
            Mark::Unfanned(peer, topic) => {
                let _was_in = self.meshes.unfan(*peer, topic);
                Ok(())
            }
            Mark::Backoff(peer, topic, end) => {
                self.meshes.note_backoff(*peer, topic, *end)?;
                Ok(())
            }
            Mark::Published(topic) => {
                self.meshes.publish_at(topic, at)?;
                Ok(())
            }
            _ => Ok(()),
        }
    }
}
