ghost use Rattle.std.specs.Prelude.{◌≡◌};
ghost use Rattle.gs_scenario.specs.Refusal.{GivesSame};
ghost use Rattle.gs_scenario.specs.TopicParamsOf.{topic_params_in, topic_factors_in, topic_weights_in, topic_counters_in, topic_timing_in, factors_of};
ghost use Rattle.gs_scenario.specs.Views.{section_of};

use crate::fault::ScenarioFault;
use crate::scenario::section::Section;
use gs_params::{
    DEFAULT_TOPIC_FACTORS, DEFAULT_TOPIC_TIMING, TopicFactors, TopicParams, TopicTiming,
};

/// The weights of a topic's part of the score.
#[derive(Clone, Copy)]
pub struct TopicWeights {
    pub topic_weight: i64,
    pub w1: i64,
    pub w2: i64,
    pub w3: i64,
    pub w3b: i64,
    pub w4: i64,
}

/// How a topic's counters decay, with their caps and threshold.
#[derive(Clone, Copy)]
pub struct TopicCounters {
    pub p2_decay: u64,
    pub p3_decay: u64,
    pub p3b_decay: u64,
    pub p4_decay: u64,
    pub p1_cap: u64,
    pub p2_cap: u64,
    pub p3_cap: u64,
    pub p3_threshold: u64,
}

/// Returns the parameters in the table of a topic.
#[tactic(auto, unfolding(crate::specs::TopicParamsOf::topic_params_in))]
pub fn topic_params_in(section: &Section<'_>) -> Result<TopicParams, ScenarioFault>
    ensures { GivesSame result (topic_params_in (section_of section.now)) }
{
    Ok(TopicParams {
        factors: topic_factors_in(section)?,
        timing: topic_timing_in(section)?,
        reject: section.prefixes("reject")?,
        ignore: section.prefixes("ignore")?,
    })
}

#[tactic(auto, unfolding(crate::specs::TopicParamsOf::topic_factors_in))]
fn topic_factors_in(section: &Section<'_>) -> Result<TopicFactors, ScenarioFault>
    ensures { GivesSame result (topic_factors_in (section_of section.now)) }
{
    let weights = topic_weights_in(section)?;
    let counters = topic_counters_in(section)?;
    Ok(factors_of(weights, counters))
}

/// Returns the factors of a topic. They are read in two parts, because the prover takes no literal with all fourteen calls.
fn factors_of(weights: TopicWeights, counters: TopicCounters) -> TopicFactors
    ensures { result ≡ factors_of weights counters }
{
    TopicFactors {
        topic_weight: weights.topic_weight,
        w1: weights.w1,
        w2: weights.w2,
        w3: weights.w3,
        w3b: weights.w3b,
        w4: weights.w4,
        p2_decay: counters.p2_decay,
        p3_decay: counters.p3_decay,
        p3b_decay: counters.p3b_decay,
        p4_decay: counters.p4_decay,
        p1_cap: counters.p1_cap,
        p2_cap: counters.p2_cap,
        p3_cap: counters.p3_cap,
        p3_threshold: counters.p3_threshold,
    }
}

#[tactic(auto, unfolding(crate::specs::TopicParamsOf::topic_weights_in))]
fn topic_weights_in(section: &Section<'_>) -> Result<TopicWeights, ScenarioFault>
    ensures { GivesSame result (topic_weights_in (section_of section.now)) }
{
    let default = DEFAULT_TOPIC_FACTORS;
    Ok(TopicWeights {
        topic_weight: section.reward("topic_weight", default.topic_weight)?,
        w1: section.reward("w1", default.w1)?,
        w2: section.reward("w2", default.w2)?,
        w3: section.score("w3", default.w3)?,
        w3b: section.score("w3b", default.w3b)?,
        w4: section.score("w4", default.w4)?,
    })
}

#[tactic(auto, unfolding(crate::specs::TopicParamsOf::topic_counters_in))]
fn topic_counters_in(section: &Section<'_>) -> Result<TopicCounters, ScenarioFault>
    ensures { GivesSame result (topic_counters_in (section_of section.now)) }
{
    let default = DEFAULT_TOPIC_FACTORS;
    Ok(TopicCounters {
        p2_decay: section.count("p2_decay", default.p2_decay)?,
        p3_decay: section.count("p3_decay", default.p3_decay)?,
        p3b_decay: section.count("p3b_decay", default.p3b_decay)?,
        p4_decay: section.count("p4_decay", default.p4_decay)?,
        p1_cap: section.count("p1_cap", default.p1_cap)?,
        p2_cap: section.count("p2_cap", default.p2_cap)?,
        p3_cap: section.count("p3_cap", default.p3_cap)?,
        p3_threshold: section.count("p3_threshold", default.p3_threshold)?,
    })
}

#[tactic(auto, unfolding(crate::specs::TopicParamsOf::topic_timing_in))]
fn topic_timing_in(section: &Section<'_>) -> Result<TopicTiming, ScenarioFault>
    ensures { GivesSame result (topic_timing_in (section_of section.now)) }
{
    let default = DEFAULT_TOPIC_TIMING;
    Ok(TopicTiming {
        p1_quantum_ms: section.count("p1_quantum_ms", default.p1_quantum_ms)?,
        p3_window_ms: section.count("p3_window_ms", default.p3_window_ms)?,
        p3_activation_ms: section.count("p3_activation_ms", default.p3_activation_ms)?,
    })
}
