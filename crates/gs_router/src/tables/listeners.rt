ghost use Rattle.std.specs.Prelude.{◌≡◌, [], ◌∷◌, IfSome, IfNone, OnOk, false, if◌then◌else◌, ◌&&◌};
ghost use Rattle.gs_base.specs.Names.{same_peer, same_topic};
ghost use Rattle.gs_base.specs.declared.names.PeerNo.{PeerNo as PeerNoValue};
ghost use Rattle.gs_base.specs.declared.names.Topic.{Topic as TopicValue};
ghost use Rattle.gs_rules.specs.Tables.{Entries, on, on_by};
ghost use Rattle.gs_router.specs.PeerSets.{has};
ghost use Rattle.gs_router.specs.Tables.{AgreesOnListeners, listens};

use crate::peer_set::PeerSet;
use gs_base::{PeerNo, Topic};
use gs_rules::{Event, RpcPart, StoredEntry};
use indexmap::IndexMap;
use std::alloc::{AllocError, Global};

/// Who is on which topic.
#[derive(Drop)]
pub struct Listeners {
    alloc: Global,
    /// For each topic that a neighbour ever named, those who are on it. They are a set by number, so that a publication
    /// hashes its topic once for all neighbours.
    topics: IndexMap<Topic, PeerSet>,
}

impl Listeners {
    /// Returns listeners before any neighbour named a topic.
    pub fn new(alloc: Global) -> Listeners
        ensures { AgreesOnListeners result [] }
    {
        Listeners {
            alloc,
            topics: IndexMap::new(alloc),
        }
    }

    /// Returns those who are on a topic; `None` means nobody.
    pub fn of(&self, topic: &Topic) -> Option<&PeerSet>
        ensures some { IfSome result (λ set. (L : Entries) (q : PeerNoValue)
            → AgreesOnListeners self.now L
            → has set.now q ≡ on L q topic.now) }
        ensures none { IfNone result ((L : Entries) (q : PeerNoValue)
            → AgreesOnListeners self.now L
            → on L q topic.now ≡ false) }
    {
        self.topics.get(topic)
    }

    /// Says whether a neighbour is on a topic.
    pub fn is_on(&self, peer: PeerNo, topic: &Topic) -> bool
        ensures { (L : Entries) → AgreesOnListeners self.now L → result ≡ on L peer topic.now }
    {
        match self.topics.get(topic) {
            Some(set) => set.contains(peer),
            None => false,
        }
    }

    /// Notes what a neighbour says about a topic (`Sub`). A change that says neither that the neighbour subscribes nor
    /// that it leaves counts as leaving the topic.
    ///
    /// # Errors
    /// `AllocError` if memory runs out.
    pub fn note(&mut self, entry: &StoredEntry) -> Result<(), AllocError>
        ensures { OnOk result ((L : Entries)
            → AgreesOnListeners self.old L
            → AgreesOnListeners self.new (entry.now ∷ L)) }
    {
        match entry.event() {
            Event::Part(peer, part) => self.note_part(*peer, part),
            _ => Ok(()),
        }
    }

    fn note_part(&mut self, peer: PeerNo, part: &RpcPart) -> Result<(), AllocError>
        ensures { OnOk result ((q : PeerNoValue) (t : TopicValue)
            → listens self.new q t ≡ on_by q t peer part.now (listens self.old q t)) }
    {
        match part.subscription() {
            Some(sub) => {
                let topic = sub.topic_or_empty()?;
                self.put(topic, peer, sub.subscribe.unwrap_or(false))?;
                Ok(())
            }
            None => Ok(()),
        }
    }

    fn put(&mut self, topic: Topic, peer: PeerNo, is_on: bool) -> Result<(), AllocError>
        ensures { OnOk result ((q : PeerNoValue) (t : TopicValue)
            → listens self.new q t ≡ (if same_peer peer q && same_topic topic t then is_on else listens self.old q t)) }
    {
        match self.topics.get_mut(&topic) {
            Some(set) => {
                set.put(peer, is_on)?;
                Ok(())
            }
            None => {
                let mut set = PeerSet::new(self.alloc);
                set.put(peer, is_on)?;
                self.topics.insert(topic, set)?;
                Ok(())
            }
        }
    }
}
