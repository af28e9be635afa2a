//! How a router does a heartbeat.
ghost use Rattle.std.specs.Prelude.{◌≡◌, ◌≤◌, IfOk, map, option_map};
ghost use Rattle.gs_base.specs.declared.names.Millis.{Millis as MillisValue};
ghost use Rattle.gs_rules.specs.declared.event.Event.TheVariants as events;
ghost use Rattle.gs_rules.specs.declared.event.BeatStep.TheVariants as steps_are;
ghost use Rattle.gs_rules.specs.Tables.{Entries, last_moment};
ghost use Rattle.gs_rules.specs.Meshes.{fanout_topics, has_fanout, is_stale};
ghost use Rattle.gs_rules.specs.BeatRules.{fan_event};
ghost use Rattle.gs_rules.specs.Owed.{FanBeats, events_in, gossip_topics, is_some_list};
ghost use Rattle.gs_rules.specs.Gossip.{gossip};
ghost use Rattle.gs_rules.specs.Modes.{exact};
ghost use Rattle.gs_rules.specs.Legal.{MayOpen};
ghost use Rattle.gs_router.specs.Beats.{event_of};
ghost use Rattle.gs_router.specs.Tables.{Agrees};
ghost use Rattle.gs_router.specs.State.{IsCurrent, IsDue, IsReady, Steps, WorkEnds, peer_of};

use crate::log::Retention;
use crate::state::State;
use gs_base::{Millis, Topic, clone_of};
use gs_params::Words;
use gs_rules::{BeatStep, Event};
use std::alloc::AllocError;

/// A fanout that a heartbeat has yet to treat.
#[derive(Debug, Drop)]
pub struct DueFanout {
    topic: Topic,
    /// Whether the fanout's time had come when the heartbeat began. A heartbeat takes no simulated time.
    is_stale: bool,
}

/// Says whether the time of a fanout has come. It is counted in milliseconds since the router last published on the topic.
fn is_stale(time: u64, now: Millis, published: Option<Millis>) -> bool
    ensures { result ≡ is_stale time now.0 (option_map (λ (at : MillisValue). at.0) published) }
{
    match published {
        Some(published) => u128::from(published.0) + u128::from(time) <= u128::from(now.0),
        None => false,
    }
}

impl<K: Retention> State<K> {
    /// Does a heartbeat: ends promises, mends meshes and fanouts, gossips on each topic that has something to gossip, and
    /// ends the heartbeat.
    pub fn heartbeat<W: Words>(&mut self, now: Millis, words: &mut W) -> Result<(), AllocError>
        requires ready { IsReady self.old }
        requires time { last_moment self.old.trace ≤ now.0 }
        requires may { MayOpen (peer_of self.old) self.old.trace now.0 events.BeatBegin }
        ensures { WorkEnds (exact W.word W.after) events.BeatBegin now self.old words.old result self.new words.new }
    {
        self.step(Event::BeatBegin, now, words)?;
        let own_topics = self.known.tables.topics.joined(self.known.alloc)?;
        for own in own_topics.as_slice() {
            self.mend_mesh(own, now, words)?;
        }
        let fanouts = self.due_fanouts(now)?;
        for fanout in fanouts.as_slice() {
            self.mend_fanout(fanout, now, words)?;
        }
        let topics = self.gossip_topics()?;
        for topic in topics.as_slice() {
            self.gossip(topic, now, words)?;
        }
        self.step(Event::Step(BeatStep::BeatEnd), now, words)?;
        Ok(())
    }

    /// Mends the mesh of a topic, which comes next.
    fn mend_mesh<W: Words>(
        &mut self,
        topic: &Topic,
        now: Millis,
        words: &mut W,
    ) -> Result<(), AllocError>
        requires current { IsCurrent self.old }
        requires time { last_moment self.old.trace ≤ now.0 }
        requires next { IsDue self.old now (events.Step (steps_are.MeshBeat topic.now)) }
        ensures { Steps (exact W.word W.after) (events.Step (steps_are.MeshBeat topic.now)) now
            self.old words.old result self.new words.new }
    {
        let topic = clone_of(topic)?;
        self.step(Event::Step(BeatStep::MeshBeat(topic)), now, words)
    }

    /// Mends a fanout or ends it, which comes next.
    fn mend_fanout<W: Words>(
        &mut self,
        due: &DueFanout,
        now: Millis,
        words: &mut W,
    ) -> Result<(), AllocError>
        requires current { IsCurrent self.old }
        requires time { last_moment self.old.trace ≤ now.0 }
        requires next { IsDue self.old now (event_of due.now) }
        ensures { Steps (exact W.word W.after) (event_of due.now) now
            self.old words.old result self.new words.new }
    {
        let topic = clone_of(&due.topic)?;
        if due.is_stale {
            return self.step(Event::Step(BeatStep::FanEnd(topic)), now, words);
        }
        self.step(Event::Step(BeatStep::FanBeat(topic)), now, words)
    }

    /// Returns what becomes of each fanout at a moment, in the order of the bytes of topics.
    fn due_fanouts(&self, now: Millis) -> Result<Vec<DueFanout>, AllocError>
        requires { IsCurrent self.now }
        ensures { IfOk result (λ list. map event_of list.items
            ≡ events_in (peer_of self.now) self.now.trace (FanBeats now.0)) }
    {
        let topics = self.fanout_topics()?;
        let mut list = Vec::new(self.known.alloc);
        for topic in topics.as_slice() {
            list.push(self.due_fanout(topic, now)?)?;
        }
        Ok(list)
    }

    /// Returns the topics that have a fanout, in the order of their bytes.
    fn fanout_topics(&self) -> Result<Vec<Topic>, AllocError>
        requires { IsCurrent self.now }
        ensures { IfOk result (λ topics. topics.items ≡ fanout_topics self.now.trace) }
    {
        let all = self.known.tables.mesh_topics.list(self.known.alloc)?;
        let mut topics = Vec::new(self.known.alloc);
        for topic in all.as_slice() {
            if self.has_fanout(topic) {
                topics.push(clone_of(topic)?)?;
            }
        }
        Ok(topics)
    }

    fn has_fanout(&self, topic: &Topic) -> bool
        ensures { (L : Entries) → Agrees self.now.known.tables L → result ≡ has_fanout L topic.now }
    {
        self.known
            .tables
            .memberships
            .last_published(topic)
            .is_some()
    }

    /// Returns what becomes of the fanout of a topic at a moment.
    fn due_fanout(&self, topic: &Topic, now: Millis) -> Result<DueFanout, AllocError>
        ensures { IfOk result (λ due. (L : Entries)
            → Agrees self.now.known.tables L
            → event_of due ≡ fan_event (peer_of self.now) L now.0 topic.now) }
    {
        let published = self.known.tables.memberships.last_published(topic);
        Ok(DueFanout {
            topic: clone_of(topic)?,
            is_stale: is_stale(self.known.setup.params.timing.fanout_ttl_ms, now, published),
        })
    }

    /// Gossips on a topic, which comes next.
    fn gossip<W: Words>(
        &mut self,
        topic: &Topic,
        now: Millis,
        words: &mut W,
    ) -> Result<(), AllocError>
        requires current { IsCurrent self.old }
        requires time { last_moment self.old.trace ≤ now.0 }
        requires next { IsDue self.old now (events.Step (steps_are.GossipBeat topic.now)) }
        ensures { Steps (exact W.word W.after) (events.Step (steps_are.GossipBeat topic.now)) now
            self.old words.old result self.new words.new }
    {
        let topic = clone_of(topic)?;
        self.step(Event::Step(BeatStep::GossipBeat(topic)), now, words)
    }

    /// Returns the topics that have something to gossip, in the order of their bytes.
    fn gossip_topics(&self) -> Result<Vec<Topic>, AllocError>
        requires { IsCurrent self.now }
        ensures { IfOk result (λ topics. topics.items ≡ gossip_topics (peer_of self.now) self.now.trace) }
    {
        let all = self.known.tables.mesh_topics.list(self.known.alloc)?;
        let mut topics = Vec::new(self.known.alloc);
        for topic in all.as_slice() {
            if self.has_gossip(topic) {
                topics.push(clone_of(topic)?)?;
            }
        }
        Ok(topics)
    }

    /// Says whether there is something to gossip on a topic. It is listed when the topic's turn comes.
    fn has_gossip(&self, topic: &Topic) -> bool
        requires { IsCurrent self.now }
        ensures { result ≡ is_some_list (gossip (peer_of self.now) self.now.trace topic.now) }
    {
        self.known.tables.messages.has_gossip(topic)
    }
}
