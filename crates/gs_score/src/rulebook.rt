//! A table of how each topic is scored.
ghost use Rattle.std.specs.Prelude.{◌≡◌, false, if◌then◌else◌, Option, Some, None, IfOk, OnOk};
ghost use Rattle.std.specs.Map.{lookup};
ghost use Rattle.std.specs.Option.{option_copied, option_or};
ghost use Rattle.gs_base.specs.Names.{same_topic};
ghost use Rattle.gs_base.specs.declared.names.Topic.{Topic as TopicValue};
ghost use Rattle.gs_params.specs.Params.{AreInRange};
ghost use Rattle.gs_score.specs.Accounts.{rules_of};
ghost use Rattle.gs_score.specs.Ranges.{RulesAreInRange};
ghost use Rattle.gs_score.specs.Rulebooks.{NothingWeighs, TellsRules, default_rules};

use crate::rules::{TopicRules, any_weighs};
use gs_base::{Topic, clone_of};
use gs_params::{DEFAULT_TOPIC_FACTORS, DEFAULT_TOPIC_TIMING, Params};
use indexmap::IndexMap;
use std::alloc::{AllocError, Global};
use std::marker::Model;

/// With at most this many topics, looking at each one costs less than a hash.
const FEW_TOPICS: usize = 4;

/// The parameters of a peer, and how they score each topic (gossipsub v1.1, Peer Scoring, Topic Parameters).
#[derive(Drop)]
pub struct Rulebook {
    params: Params,
    rules: IndexMap<Topic, TopicRules>,
    others: TopicRules,
    any_weighs: bool,
}

impl Model for Rulebook {
    ghost use Rattle.gs_params.specs.declared.params.Params.{Params};
    ghost use Rattle.gs_score.specs.Rulebooks.{IsRulebook};

    ghost Value = { Params };

    ghost view = { λ b. b.params };

    ghost invariant = { λ b. IsRulebook b.params b.rules.entries b.others b.any_weighs };
}

impl Rulebook {
    /// Returns the rulebook of these parameters. The first parameters of a topic count, and a topic without any has the
    /// defaults.
    ///
    /// # Errors
    /// `AllocError` when out of memory.
    pub fn new(alloc: Global, params: &Params) -> Result<Rulebook, AllocError>
        requires { AreInRange params.now }
        ensures { IfOk result (λ rulebook. rulebook ≡ params.now) }
    {
        let others = TopicRules {
            factors: DEFAULT_TOPIC_FACTORS,
            timing: DEFAULT_TOPIC_TIMING,
            decay_to_zero: params.factors.decay_to_zero,
        };
        let rules = rules_by_topic(alloc, params)?;
        let any_weighs = any_weighs(params.topics.as_slice());
        let params = clone_of(params)?;
        Ok(Rulebook {
            params,
            rules,
            others,
            any_weighs,
        })
    }

    /// Returns how a topic is scored, with amounts in millionths and times in milliseconds. It looks at each topic if there
    /// are at most four, and else finds the topic by its hash.
    pub fn of(&self, topic: &Topic) -> &TopicRules
        ensures value { result.now ≡ rules_of self.now topic.now }
        ensures in_range { RulesAreInRange result.now }
    {
        match found(&self.rules, topic) {
            Some(rules) => rules,
            None => &self.others,
        }
    }

    /// Returns the parameters that the rules come from.
    pub fn params(&self) -> &Params
        ensures value { result.now ≡ self.now }
        ensures in_range { AreInRange self.now }
    {
        &self.params
    }

    /// Says whether anything that is counted on any topic may weigh. If nothing may, each topic gives 0 at each moment.
    pub fn any_weighs(&self) -> bool
        ensures { result ≡ false → NothingWeighs self.now }
    {
        self.any_weighs
    }
}

/// Returns the rules of each topic that the parameters name.
///
/// # Errors
/// `AllocError` when out of memory.
fn rules_by_topic(alloc: Global, params: &Params) -> Result<IndexMap<Topic, TopicRules>, AllocError>
    ensures { IfOk result (λ rules. TellsRules params.now rules.entries (default_rules params.now)) }
{
    let mut rules = IndexMap::new(alloc);
    for (topic, found) in params.topics.as_slice() {
        let first = TopicRules {
            factors: found.factors,
            timing: found.timing,
            decay_to_zero: params.factors.decay_to_zero,
        };
        note(&mut rules, topic, first)?;
    }
    Ok(rules)
}

/// Notes the rules of a topic, unless it already has some.
///
/// # Errors
/// `AllocError` when out of memory.
fn note(
    rules: &mut IndexMap<Topic, TopicRules>,
    topic: &Topic,
    first: TopicRules,
) -> Result<(), AllocError>
    ensures { OnOk result ((t : TopicValue)
        → lookup (same_topic t) rules.new.entries
        ≡ option_or (lookup (same_topic t) rules.old.entries) (if same_topic topic.now t then Some first else None)) }
{
    if rules.get(topic).is_some() {
        return Ok(());
    }
    rules.insert(clone_of(topic)?, first)?;
    Ok(())
}

/// Returns the noted rules of a topic, if any.
fn found<'a>(rules: &'a IndexMap<Topic, TopicRules>, topic: &Topic) -> Option<&'a TopicRules>
    ensures { option_copied result ≡ lookup (same_topic topic.now) rules.now.entries }
{
    if FEW_TOPICS < rules.len() {
        return rules.get(topic);
    }
    for place in 0..rules.len() {
        let Some((other, here)) = rules.get_index(place) else {
            return None;
        };
        if topic == other {
            return Some(here);
        }
    }
    None
}
