ghost use Rattle.std.specs.Prelude.{◌≡◌, [], ◌∷◌, OnOk, IfOk};
ghost use Rattle.gs_base.specs.Names.{topic_or_empty};
ghost use Rattle.gs_rules.specs.declared.event.Event.TheVariants as events;
ghost use Rattle.gs_rules.specs.declared.trace.Entry.{Entry as EntryValue};
ghost use Rattle.gs_rules.specs.Tables.{Entries, joined, own_topics};
ghost use Rattle.gs_rules.specs.Legal.{has_room_for};
ghost use Rattle.gs_router.specs.Tables.{AgreesOnTopics};

use bytes::Bytes;
use gs_base::{MOST_TOPICS, Topic, clone_of};
use gs_plan::Act;
use gs_rules::{Event, StoredEntry};
use std::alloc::{AllocError, Global};
use std::collections::BTreeMap;

/// The topics that a router was ever subscribed to, in the order of their bytes.
#[derive(Drop)]
pub struct OwnTopics {
    /// Each, and whether it is subscribed to it now. There are few, and a look-up in a tree hashes nothing.
    topics: BTreeMap<Topic, bool>,
}

impl OwnTopics {
    /// Returns a table for a router that was never subscribed to a topic.
    pub fn new(alloc: Global) -> OwnTopics
        ensures { AgreesOnTopics result [] }
    {
        OwnTopics {
            topics: BTreeMap::new(alloc),
        }
    }

    /// Says whether the router is subscribed to a topic.
    pub fn is_joined(&self, topic: &Topic) -> bool
        ensures { (L : Entries) → AgreesOnTopics self.now L → result ≡ joined L topic.now }
    {
        match self.topics.get(topic) {
            Some(joined) => *joined,
            None => false,
        }
    }

    /// Says whether the router is subscribed to the topic that is named. If no topic is named, it is the empty one.
    pub fn is_joined_or_empty(&self, topic: &Option<Topic>) -> bool
        ensures { (L : Entries) → AgreesOnTopics self.now L → result ≡ joined L (topic_or_empty topic.now) }
    {
        match topic {
            Some(topic) => self.is_joined(topic),
            None => self.is_joined(&Topic(Bytes::new())),
        }
    }

    /// Says whether there is room for a topic among all that the router was ever subscribed to.
    pub fn has_room_for(&self, topic: &Topic) -> bool
        ensures { (L : Entries) → AgreesOnTopics self.now L → result ≡ has_room_for L topic.now }
    {
        self.topics.get(topic).is_some() || self.topics.len() < MOST_TOPICS
    }

    /// Returns the topics that the router is subscribed to, in the order of their bytes.
    ///
    /// # Errors
    /// `AllocError` if memory runs out.
    pub fn joined(&self, alloc: Global) -> Result<Vec<Topic>, AllocError>
        ensures { IfOk result (λ list. (L : Entries) → AgreesOnTopics self.now L → list.items ≡ own_topics L) }
    {
        let mut list = Vec::new(alloc);
        for (topic, joined) in &self.topics {
            if *joined {
                list.push(clone_of(topic)?)?;
            }
        }
        Ok(list)
    }

    /// Notes that the router subscribes to a topic or leaves it.
    ///
    /// # Errors
    /// `AllocError` if memory runs out.
    pub fn note(&mut self, entry: &StoredEntry) -> Result<(), AllocError>
        ensures { OnOk result ((L : Entries) → AgreesOnTopics self.old L → AgreesOnTopics self.new (entry.now ∷ L)) }
    {
        match entry.event() {
            Event::Own(act) => {
                self.note_act(act.get())?;
                Ok(())
            }
            _ => Ok(()),
        }
    }

    fn note_act(&mut self, act: &Act) -> Result<(), AllocError>
        ensures { OnOk result ((e : EntryValue) (L : Entries)
            → e.event ≡ events.Own act.now
            → AgreesOnTopics self.old L
            → AgreesOnTopics self.new (e ∷ L)) }
    {
        match act {
            Act::Subscribe(topic) => {
                self.topics.insert(clone_of(topic)?, true)?;
                Ok(())
            }
            Act::Unsubscribe(topic) => {
                if !self.topics.contains_key(topic) {
                    return Ok(());
                }
                self.topics.insert(clone_of(topic)?, false)?;
                Ok(())
            }
            Act::Publish(_, _) => Ok(()),
            Act::Raw(_, _) => Ok(()),
            Act::HangUp(_) => Ok(()),
        }
    }
}
