ghost use Rattle.std.specs.Prelude.{◌≡◌, ◌+◌, ◌≤◌, ◌<◌, ◌*◌, ◌^◌, ◌+ℤ◌, ◌||◌, nat_lt, true, if◌then◌else◌, [], List};
ghost use Rattle.std.specs.Prelude.{drop, length, unsigned_abs, IfOk, IsOk, OnOk, OnErr};
ghost use Rattle.std.specs.List.{IsDistinct};
ghost use Rattle.std.specs.Map.{keys_of};
ghost use Rattle.gs_base.specs.Names.{most_topics, same_topic};
ghost use Rattle.gs_base.specs.declared.names.Topic.{Topic as TopicValue};
ghost use Rattle.gs_score.specs.Accounts.{AddsTopic, Covers, KeepsTopics, has_topic, held_in, standing_in, topic_sum};
ghost use Rattle.gs_score.specs.Ranges.{RulesAreInRange};
ghost use Rattle.gs_score.specs.Standings.{grafted, pruned, raised_by};

use crate::rulebook::Rulebook;
use crate::standing::{Raise, Standing};
use gs_base::{MOST_TOPICS, Millis, Topic, clone_of};
use indexmap::IndexMap;
use std::alloc::{AllocError, Global};
use std::marker::Model;

/// What a neighbour has on topics, by topic. On a topic that is not listed it has nothing. How a topic is scored is looked
/// up in a rulebook, so no copy of the rules is stored here.
#[derive(Drop)]
pub struct TopicStandings {
    standings: IndexMap<Topic, Standing>,
}

impl Model for TopicStandings {
    ghost use Rattle.std.specs.Prelude.{List};
    ghost use Rattle.gs_base.specs.declared.names.Topic.{Topic};
    ghost use Rattle.gs_score.specs.declared.standing.Standing.{Standing};

    ghost Value = { List (Topic × Standing) };

    ghost view = { λ t. t.standings.entries };
}

impl TopicStandings {
    /// Returns standings with nothing on any topic. It takes no memory.
    pub fn new(alloc: Global) -> TopicStandings
        ensures { result ≡ [] }
    {
        TopicStandings {
            standings: IndexMap::new(alloc),
        }
    }

    /// Returns on how many topics the neighbour has something.
    pub fn len(&self) -> usize
        ensures { result ≡ length self.now }
    {
        self.standings.len()
    }

    /// Returns what the neighbour has on a topic. If it has nothing there, that is a standing outside the mesh, with all
    /// counters 0.
    pub fn standing(&self, topic: &Topic) -> Standing
        ensures { result ≡ standing_in self.now topic.now }
    {
        standing_at(&self.standings, topic)
    }

    /// Says whether the neighbour has something on a topic, or something on fewer than 1,024 topics.
    pub fn has_room(&self, topic: &Topic) -> bool
        ensures { result ≡ (has_topic self.now topic.now || nat_lt (length self.now) most_topics) }
    {
        let has_few = self.standings.len() < MOST_TOPICS;
        has_few || self.standings.get(topic).is_some()
    }

    /// Raises a counter on a topic, from its value after these decays, up to its cap. It takes memory only if the neighbour
    /// had nothing on the topic.
    ///
    /// # Errors
    /// `AllocError` when out of memory; nothing is changed then.
    pub fn raise(&mut self, topic: &Topic, raise: Raise<'_>) -> Result<(), AllocError>
        requires in_range { RulesAreInRange raise.rules.now }
        ensures puts { OnOk result ((t : TopicValue)
            → standing_in self.new t
            ≡ (if same_topic topic.now t
            then raised_by raise.entry (standing_in self.old topic.now)
            else standing_in self.old t)) }
        ensures number { length self.new
            ≤ (if has_topic self.old topic.now then length self.old else length self.old + 1) }
        ensures adds { OnOk result (AddsTopic self.old self.new topic.now) }
        ensures unchanged { OnErr result (self.new ≡ self.old) }
        ensures succeeds { has_topic self.old topic.now ≡ true → IsOk result }
    {
        raise_at(&mut self.standings, topic, raise)?;
        Ok(())
    }

    /// Puts the neighbour into the mesh of a topic. It takes memory only if the neighbour had nothing on the topic.
    ///
    /// # Errors
    /// `AllocError` when out of memory; nothing is changed then.
    pub fn graft(&mut self, topic: &Topic, now: Millis) -> Result<(), AllocError>
        ensures puts { OnOk result ((t : TopicValue)
            → standing_in self.new t
            ≡ (if same_topic topic.now t
            then grafted now (standing_in self.old topic.now)
            else standing_in self.old t)) }
        ensures number { length self.new
            ≤ (if has_topic self.old topic.now then length self.old else length self.old + 1) }
        ensures adds { OnOk result (AddsTopic self.old self.new topic.now) }
        ensures unchanged { OnErr result (self.new ≡ self.old) }
        ensures succeeds { has_topic self.old topic.now ≡ true → IsOk result }
    {
        graft_at(&mut self.standings, topic, now)?;
        Ok(())
    }

    /// Takes the neighbour out of the mesh of a topic. It takes no memory.
    pub fn prune(&mut self, topic: &Topic)
        ensures prunes { (t : TopicValue)
            → standing_in self.new t
            ≡ (if same_topic topic.now t
            then pruned (standing_in self.old topic.now)
            else standing_in self.old t) }
        ensures number { length self.new ≡ length self.old }
        ensures keeps { KeepsTopics self.old self.new }
    {
        prune_at(&mut self.standings, topic);
    }

    /// Returns the sum over topics of what each gives, in millionths: at most 1,024 * 10^25 either way.
    pub fn sum(&self, rulebook: &Rulebook, decays: u64, now: Millis) -> i128
        requires few { length self.now ≤ most_topics }
        ensures value { (ts : List TopicValue)
            → Covers (held_in rulebook.now decays self.now) ts
            → result ≡ topic_sum rulebook.now now.0 (held_in rulebook.now decays self.now) ts }
        ensures bound { unsigned_abs result ≤ 1_024 * 10 ^ 25 }
    {
        if !rulebook.any_weighs() {
            return 0;
        }
        sum_of(&self.standings, rulebook, decays, now)
    }

    /// Returns the topics on which the neighbour has something, each once, in any order.
    ///
    /// # Errors
    /// `AllocError` when out of memory.
    pub fn topics(&self, alloc: Global) -> Result<Vec<Topic>, AllocError>
        ensures all { IfOk result (λ list. list.items ≡ keys_of self.now) }
        ensures distinct { IfOk result (λ list. IsDistinct same_topic list.items) }
    {
        let list = topics_of(alloc, &self.standings)?;
        Ok(list)
    }
}

/// Returns what is kept for a topic.
fn standing_at(standings: &IndexMap<Topic, Standing>, topic: &Topic) -> Standing
    ensures { result ≡ standing_in standings.now.entries topic.now }
{
    match standings.get(topic) {
        Some(standing) => *standing,
        None => Standing::new(),
    }
}

/// Raises a counter in what is kept for a topic, in place. It takes memory only if nothing was kept.
///
/// # Errors
/// `AllocError` when out of memory; nothing is changed then.
fn raise_at(
    standings: &mut IndexMap<Topic, Standing>,
    topic: &Topic,
    raise: Raise<'_>,
) -> Result<(), AllocError>
    requires in_range { RulesAreInRange raise.rules.now }
    ensures puts { OnOk result ((t : TopicValue)
        → standing_in standings.new.entries t
        ≡ (if same_topic topic.now t
        then raised_by raise.entry (standing_in standings.old.entries topic.now)
        else standing_in standings.old.entries t)) }
    ensures number { length standings.new.entries
        ≤ (if has_topic standings.old.entries topic.now
        then length standings.old.entries
        else length standings.old.entries + 1) }
    ensures adds { OnOk result (AddsTopic standings.old.entries standings.new.entries topic.now) }
    ensures unchanged { OnErr result (standings.new.entries ≡ standings.old.entries) }
    ensures succeeds { has_topic standings.old.entries topic.now ≡ true → IsOk result }
{
    match standings.get_mut(topic) {
        Some(place) => place.raise(raise),
        None => {
            let mut raised = Standing::new();
            raised.raise(raise);
            standings.insert(clone_of(topic)?, raised)?;
        }
    }
    Ok(())
}

/// Puts what is kept for a topic into its mesh, in place. It takes memory only if nothing was kept.
///
/// # Errors
/// `AllocError` when out of memory; nothing is changed then.
fn graft_at(
    standings: &mut IndexMap<Topic, Standing>,
    topic: &Topic,
    now: Millis,
) -> Result<(), AllocError>
    ensures puts { OnOk result ((t : TopicValue)
        → standing_in standings.new.entries t
        ≡ (if same_topic topic.now t
        then grafted now (standing_in standings.old.entries topic.now)
        else standing_in standings.old.entries t)) }
    ensures number { length standings.new.entries
        ≤ (if has_topic standings.old.entries topic.now
        then length standings.old.entries
        else length standings.old.entries + 1) }
    ensures adds { OnOk result (AddsTopic standings.old.entries standings.new.entries topic.now) }
    ensures unchanged { OnErr result (standings.new.entries ≡ standings.old.entries) }
    ensures succeeds { has_topic standings.old.entries topic.now ≡ true → IsOk result }
{
    match standings.get_mut(topic) {
        Some(place) => place.graft(now),
        None => {
            let mut member = Standing::new();
            member.graft(now);
            standings.insert(clone_of(topic)?, member)?;
        }
    }
    Ok(())
}

/// Takes what is kept for a topic out of its mesh, in place. It does nothing if nothing is kept.
fn prune_at(standings: &mut IndexMap<Topic, Standing>, topic: &Topic)
    ensures prunes { (t : TopicValue)
        → standing_in standings.new.entries t
        ≡ (if same_topic topic.now t
        then pruned (standing_in standings.old.entries topic.now)
        else standing_in standings.old.entries t) }
    ensures number { length standings.new.entries ≡ length standings.old.entries }
    ensures keeps { KeepsTopics standings.old.entries standings.new.entries }
{
    match standings.get_mut(topic) {
        Some(place) => place.prune(),
        None => (),
    }
}

/// Returns the sum over topics, in their order.
fn sum_of(
    standings: &IndexMap<Topic, Standing>,
    rulebook: &Rulebook,
    decays: u64,
    now: Millis,
) -> i128
    requires few { length standings.now.entries ≤ most_topics }
    ensures value { result
        ≡ topic_sum rulebook.now now.0 (held_in rulebook.now decays standings.now.entries)
        (keys_of standings.now.entries) }
    ensures apart { IsDistinct same_topic (keys_of standings.now.entries) }
    ensures bound { unsigned_abs result ≤ 1_024 * 10 ^ 25 }
{
    let mut sum = 0;
    for place in 0..standings.len() {
        sum += part_at(standings, rulebook, decays, now, place);
    }
    sum
}

/// Returns what the topic at a place gives.
fn part_at(
    standings: &IndexMap<Topic, Standing>,
    rulebook: &Rulebook,
    decays: u64,
    now: Millis,
    place: usize,
) -> i128
    requires within { place < length standings.now.entries }
    ensures part { topic_sum rulebook.now now.0 (held_in rulebook.now decays standings.now.entries)
        (keys_of (drop place standings.now.entries))
        ≡ result
        +ℤ topic_sum rulebook.now now.0 (held_in rulebook.now decays standings.now.entries)
        (keys_of (drop (place + 1) standings.now.entries)) }
    ensures bound { unsigned_abs result ≤ 10 ^ 25 }
{
    match standings.get_index(place) {
        Some((topic, standing)) => standing.part(rulebook.of(topic), decays, now),
        None => 0,
    }
}

/// Returns the topics for which something is kept, in their order.
///
/// # Errors
/// `AllocError` when out of memory.
fn topics_of(alloc: Global, standings: &IndexMap<Topic, Standing>) -> Result<Vec<Topic>, AllocError>
    ensures all { IfOk result (λ list. list.items ≡ keys_of standings.now.entries) }
    ensures distinct { IfOk result (λ list. IsDistinct same_topic list.items) }
{
    let mut list = Vec::new(alloc);
    for topic in standings.keys() {
        list.push(clone_of(topic)?)?;
    }
    Ok(list)
}
