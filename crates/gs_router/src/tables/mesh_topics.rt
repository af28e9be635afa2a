ghost use Rattle.std.specs.Prelude.{◌≡◌, Bool, false, [], ◌∷◌, IfOk, OnOk, if◌then◌else◌};
ghost use Rattle.gs_base.specs.Names.{same_topic};
ghost use Rattle.gs_base.specs.declared.names.Topic.{Topic as TopicValue};
ghost use Rattle.gs_rules.specs.Tables.{Entries, after_marks, joined_after, joined_by};
ghost use Rattle.gs_rules.specs.Meshes.{dropped_by_act, dropped_by_step, mesh_topics};
ghost use Rattle.gs_router.specs.Tables.{AgreesOnMeshTopics, HasTopics, dropped_by, fanned_by, mesh_or_fanout_in};

use gs_base::{Mark, Topic, clone_of};
use gs_plan::Act;
use gs_rules::{BeatStep, Event, StoredEntry};
use std::alloc::{AllocError, Global};
use std::collections::BTreeMap;

/// What a topic has.
#[derive(Clone, Copy, Debug, PartialEq, Eq)]
pub struct MeshOrFanout {
    /// A mesh: the router is subscribed to it.
    pub has_mesh: bool,
    /// A fanout: the router published on it without being subscribed.
    pub has_fanout: bool,
}

/// The topics that have or had a mesh or a fanout, in the order of their bytes.
#[derive(Drop)]
pub struct MeshTopics {
    topics: BTreeMap<Topic, MeshOrFanout>,
}

impl MeshTopics {
    /// Returns a table in which no topic has a mesh or a fanout.
    pub fn new(alloc: Global) -> MeshTopics
        ensures { AgreesOnMeshTopics result [] }
    {
        MeshTopics {
            topics: BTreeMap::new(alloc),
        }
    }

    /// Returns the topics that have a mesh or a fanout, in the order of their bytes.
    ///
    /// # Errors
    /// `AllocError` if memory runs out.
    pub fn list(&self, alloc: Global) -> Result<Vec<Topic>, AllocError>
        ensures { IfOk result (λ list. (L : Entries) → AgreesOnMeshTopics self.now L → list.items ≡ mesh_topics L) }
    {
        let mut list = Vec::new(alloc);
        for (topic, mesh_or_fanout) in &self.topics {
            if mesh_or_fanout.has_mesh || mesh_or_fanout.has_fanout {
                list.push(clone_of(topic)?)?;
            }
        }
        Ok(list)
    }

    /// Notes which topic has a mesh or a fanout after an entry, or no longer has one.
    ///
    /// # Errors
    /// `AllocError` if memory runs out. A part of the entry may then have been noted.
    pub fn note(&mut self, entry: &StoredEntry) -> Result<(), AllocError>
        ensures { OnOk result ((L : Entries)
            → AgreesOnMeshTopics self.old L
            → AgreesOnMeshTopics self.new (entry.now ∷ L)) }
    {
        self.note_event(entry.event())?;
        self.note_marks(entry.marks())?;
        Ok(())
    }

    fn note_event(&mut self, event: &Event) -> Result<(), AllocError>
        ensures { OnOk result ((meshes fanouts : TopicValue → Bool)
            → HasTopics self.old meshes fanouts
            → HasTopics self.new (λ t. joined_after t event.now (meshes t)) (λ t. dropped_by t event.now (fanouts t))) }
    {
        match event {
            Event::Own(act) => self.note_act(act.get()),
            Event::Step(step) => self.note_step(step),
            _ => Ok(()),
        }
    }

    fn note_act(&mut self, act: &Act) -> Result<(), AllocError>
        ensures { OnOk result ((meshes fanouts : TopicValue → Bool)
            → HasTopics self.old meshes fanouts
            → HasTopics self.new (λ t. joined_by t act.now (meshes t)) (λ t. dropped_by_act t false act.now (fanouts t))) }
    {
        match act {
            Act::Subscribe(topic) => {
                self.put(
                    topic,
                    MeshOrFanout {
                        has_mesh: true,
                        has_fanout: false,
                    },
                )?;
                Ok(())
            }
            Act::Unsubscribe(topic) => {
                let has_fanout = self.mesh_or_fanout(topic).has_fanout;
                self.put(
                    topic,
                    MeshOrFanout {
                        has_mesh: false,
                        has_fanout,
                    },
                )?;
                Ok(())
            }
            Act::Publish(_, _) => Ok(()),
            Act::Raw(_, _) => Ok(()),
            Act::HangUp(_) => Ok(()),
        }
    }

    fn note_step(&mut self, step: &BeatStep) -> Result<(), AllocError>
        ensures { OnOk result ((meshes fanouts : TopicValue → Bool)
            → HasTopics self.old meshes fanouts
            → HasTopics self.new meshes (λ t. dropped_by_step t false step.now (fanouts t))) }
    {
        match step {
            BeatStep::MeshBeat(_) => Ok(()),
            BeatStep::FanBeat(_) => Ok(()),
            BeatStep::FanEnd(topic) => {
                let has_mesh = self.mesh_or_fanout(topic).has_mesh;
                self.put(
                    topic,
                    MeshOrFanout {
                        has_mesh,
                        has_fanout: false,
                    },
                )?;
                Ok(())
            }
            BeatStep::GossipBeat(_) => Ok(()),
            BeatStep::BeatEnd => Ok(()),
        }
    }

    fn note_marks(&mut self, marks: &[Mark]) -> Result<(), AllocError>
        ensures { OnOk result ((meshes fanouts : TopicValue → Bool)
            → HasTopics self.old meshes fanouts
            → HasTopics self.new meshes (λ t. after_marks (fanned_by t) marks.now (fanouts t))) }
    {
        for mark in marks {
            self.note_mark(mark)?;
        }
        Ok(())
    }

    fn note_mark(&mut self, mark: &Mark) -> Result<(), AllocError>
        ensures { OnOk result ((meshes fanouts : TopicValue → Bool)
            → HasTopics self.old meshes fanouts
            → HasTopics self.new meshes (λ t. fanned_by t mark.now (fanouts t))) }
    {
        match mark {
            Mark::Published(topic) => {
                let has_mesh = self.mesh_or_fanout(topic).has_mesh;
                self.put(
                    topic,
                    MeshOrFanout {
                        has_mesh,
                        has_fanout: true,
                    },
                )?;
                Ok(())
            }
            _ => Ok(()),
        }
    }

    fn mesh_or_fanout(&self, topic: &Topic) -> MeshOrFanout
        ensures { result ≡ mesh_or_fanout_in self.now topic.now }
    {
        match self.topics.get(topic) {
            Some(mesh_or_fanout) => *mesh_or_fanout,
            None => MeshOrFanout {
                has_mesh: false,
                has_fanout: false,
            },
        }
    }

    fn put(&mut self, topic: &Topic, mesh_or_fanout: MeshOrFanout) -> Result<(), AllocError>
        ensures { OnOk result ((t : TopicValue)
            → mesh_or_fanout_in self.new t
            ≡ (if same_topic topic.now t then mesh_or_fanout else mesh_or_fanout_in self.old t)) }
    {
        self.topics.insert(clone_of(topic)?, mesh_or_fanout)?;
        Ok(())
    }
}
