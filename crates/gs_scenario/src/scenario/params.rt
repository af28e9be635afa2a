ghost use Rattle.std.specs.Prelude.{◌≡◌, ◌≤◌, map, option_map, unwrap_or};
ghost use Rattle.toml.specs.Data.{no_members};
ghost use Rattle.toml.specs.View.{table_view};
ghost use Rattle.gs_scenario.specs.Refusal.{GivesSame};
ghost use Rattle.gs_scenario.specs.ParamsOf.{shared_in, shared_names, degrees_in, thresholds_in, factors_in, times_in, counts_in, timing_of, timing_in, params_of};
ghost use Rattle.gs_scenario.specs.Kinds.{section_at};
ghost use Rattle.gs_scenario.specs.PlanOf.{params_key};
ghost use Rattle.gs_scenario.specs.Views.{section_of};

use crate::fault::ScenarioFault;
use crate::scenario::place::Path;
use crate::scenario::section::Section;
use crate::scenario::tables::TableKind;
use gs_base::{Seq, Topic};
use gs_params::{
    DEFAULT_DEGREES, DEFAULT_FACTORS, DEFAULT_FLOOD_PUBLISH, DEFAULT_THRESHOLDS, DEFAULT_TIMING,
    Degrees, Factors, Params, Thresholds, Timing, TopicParams,
};
use std::alloc::Global;
use toml::Table;

/// The parameters that all topics share.
#[derive(Clone, Copy)]
pub struct Shared {
    pub degrees: Degrees,
    pub thresholds: Thresholds,
    pub factors: Factors,
    pub timing: Timing,
    pub flood_publish: bool,
}

/// The times of the protocol, in milliseconds and seconds. With `Counts`, they are the `Timing` of all topics. Each half is read
/// by itself, because each key that is read costs the prover as much as all keys after it.
#[derive(Clone, Copy)]
pub struct Times {
    pub heartbeat_ms: u64,
    pub decay_ms: u64,
    pub fanout_ttl_ms: u64,
    pub seen_ttl_ms: u64,
    pub iwant_followup_ms: u64,
    pub prune_backoff_s: u64,
    pub unsubscribe_backoff_s: u64,
}

/// What the protocol keeps, sends or does at most, or each so often.
#[derive(Clone, Copy)]
pub struct Counts {
    pub mcache_len: u64,
    pub mcache_gossip: u64,
    pub opportunistic_ticks: u64,
    pub opportunistic_peers: u64,
    pub max_ihave: u64,
    pub max_ihave_ids: u64,
    pub gossip_retransmission: u64,
}

/// Returns the parameters of the table at `params`, which may be missing. The heartbeat and the decay must take whole rounds
/// of `round_ms`.
pub fn shared_of(
    alloc: Global,
    table: Option<&Table>,
    round_ms: u64,
) -> Result<Shared, ScenarioFault>
    requires { 1 ≤ round_ms }
    ensures { GivesSame result (shared_in round_ms (section_at params_key.name
        (unwrap_or (option_map (λ found. table_view found.now) table.entry) no_members))) }
{
    let path = Path::Table("params");
    match table {
        Some(table) => shared_in(&Section { alloc, path, table }, round_ms),
        None => {
            let table = &Table::new(alloc);
            shared_in(&Section { alloc, path, table }, round_ms)
        }
    }
}

/// Returns the keys of the table of parameters.
pub fn keys() -> &'static [&'static str]
    ensures { map (λ key. key.now) result.now ≡ shared_names }
{
    &[
        "d",
        "d_low",
        "d_high",
        "d_score",
        "d_out",
        "d_lazy",
        "gossip_threshold",
        "publish_threshold",
        "graylist_threshold",
        "opportunistic_threshold",
        "gossip_factor",
        "p7_decay",
        "w5",
        "w6",
        "w7",
        "topic_cap",
        "decay_to_zero",
        "p6_threshold",
        "heartbeat_ms",
        "decay_ms",
        "fanout_ttl_ms",
        "seen_ttl_ms",
        "iwant_followup_ms",
        "prune_backoff_s",
        "unsubscribe_backoff_s",
        "mcache_len",
        "mcache_gossip",
        "opportunistic_ticks",
        "opportunistic_peers",
        "max_ihave",
        "max_ihave_ids",
        "gossip_retransmission",
        "flood_publish",
    ]
}

#[tactic(auto, unfolding(crate::specs::ParamsOf::shared_in))]
fn shared_in(section: &Section<'_>, round_ms: u64) -> Result<Shared, ScenarioFault>
    requires { 1 ≤ round_ms }
    ensures { GivesSame result (shared_in round_ms (section_of section.now)) }
{
    section.only(TableKind::Params)?;
    Ok(Shared {
        degrees: degrees_in(section)?,
        thresholds: thresholds_in(section)?,
        factors: factors_in(section)?,
        timing: timing_in(section, round_ms)?,
        flood_publish: section.truth_value("flood_publish", DEFAULT_FLOOD_PUBLISH)?,
    })
}

#[tactic(auto, unfolding(crate::specs::ParamsOf::degrees_in))]
fn degrees_in(section: &Section<'_>) -> Result<Degrees, ScenarioFault>
    ensures { GivesSame result (degrees_in (section_of section.now)) }
{
    let default = DEFAULT_DEGREES;
    Ok(Degrees {
        d: section.count("d", default.d)?,
        d_low: section.count("d_low", default.d_low)?,
        d_high: section.count("d_high", default.d_high)?,
        d_score: section.count("d_score", default.d_score)?,
        d_out: section.count("d_out", default.d_out)?,
        d_lazy: section.count("d_lazy", default.d_lazy)?,
    })
}

#[tactic(auto, unfolding(crate::specs::ParamsOf::thresholds_in))]
fn thresholds_in(section: &Section<'_>) -> Result<Thresholds, ScenarioFault>
    ensures { GivesSame result (thresholds_in (section_of section.now)) }
{
    let default = DEFAULT_THRESHOLDS;
    Ok(Thresholds {
        gossip_threshold: section.score("gossip_threshold", default.gossip_threshold)?,
        publish_threshold: section.score("publish_threshold", default.publish_threshold)?,
        graylist_threshold: section.score("graylist_threshold", default.graylist_threshold)?,
        opportunistic_threshold: section.count(
            "opportunistic_threshold",
            default.opportunistic_threshold,
        )?,
    })
}

#[tactic(auto, unfolding(crate::specs::ParamsOf::factors_in))]
fn factors_in(section: &Section<'_>) -> Result<Factors, ScenarioFault>
    ensures { GivesSame result (factors_in (section_of section.now)) }
{
    let default = DEFAULT_FACTORS;
    Ok(Factors {
        gossip_factor: section.count("gossip_factor", default.gossip_factor)?,
        p7_decay: section.count("p7_decay", default.p7_decay)?,
        w5: section.reward("w5", default.w5)?,
        w6: section.score("w6", default.w6)?,
        w7: section.score("w7", default.w7)?,
        topic_cap: section.count("topic_cap", default.topic_cap)?,
        decay_to_zero: section.count("decay_to_zero", default.decay_to_zero)?,
        p6_threshold: section.count("p6_threshold", default.p6_threshold)?,
    })
}

#[tactic(auto, unfolding(crate::specs::ParamsOf::timing_in))]
fn timing_in(section: &Section<'_>, round_ms: u64) -> Result<Timing, ScenarioFault>
    requires { 1 ≤ round_ms }
    ensures { GivesSame result (timing_in round_ms (section_of section.now)) }
{
    let times = times_in(section, round_ms)?;
    let counts = counts_in(section)?;
    Ok(timing_of(times, counts))
}

fn timing_of(times: Times, counts: Counts) -> Timing
    ensures { result ≡ timing_of times counts }
{
    Timing {
        heartbeat_ms: times.heartbeat_ms,
        decay_ms: times.decay_ms,
        fanout_ttl_ms: times.fanout_ttl_ms,
        seen_ttl_ms: times.seen_ttl_ms,
        iwant_followup_ms: times.iwant_followup_ms,
        prune_backoff_s: times.prune_backoff_s,
        unsubscribe_backoff_s: times.unsubscribe_backoff_s,
        mcache_len: counts.mcache_len,
        mcache_gossip: counts.mcache_gossip,
        opportunistic_ticks: counts.opportunistic_ticks,
        opportunistic_peers: counts.opportunistic_peers,
        max_ihave: counts.max_ihave,
        max_ihave_ids: counts.max_ihave_ids,
        gossip_retransmission: counts.gossip_retransmission,
    }
}

#[tactic(auto, unfolding(crate::specs::ParamsOf::times_in))]
fn times_in(section: &Section<'_>, round_ms: u64) -> Result<Times, ScenarioFault>
    requires { 1 ≤ round_ms }
    ensures { GivesSame result (times_in round_ms (section_of section.now)) }
{
    let default = DEFAULT_TIMING;
    Ok(Times {
        heartbeat_ms: section.multiple("heartbeat_ms", default.heartbeat_ms, round_ms)?,
        decay_ms: section.multiple("decay_ms", default.decay_ms, round_ms)?,
        fanout_ttl_ms: section.count("fanout_ttl_ms", default.fanout_ttl_ms)?,
        seen_ttl_ms: section.count("seen_ttl_ms", default.seen_ttl_ms)?,
        iwant_followup_ms: section.count("iwant_followup_ms", default.iwant_followup_ms)?,
        prune_backoff_s: section.count("prune_backoff_s", default.prune_backoff_s)?,
        unsubscribe_backoff_s: section.count(
            "unsubscribe_backoff_s",
            default.unsubscribe_backoff_s,
        )?,
    })
}

#[tactic(auto, unfolding(crate::specs::ParamsOf::counts_in))]
fn counts_in(section: &Section<'_>) -> Result<Counts, ScenarioFault>
    ensures { GivesSame result (counts_in (section_of section.now)) }
{
    let default = DEFAULT_TIMING;
    Ok(Counts {
        mcache_len: section.count("mcache_len", default.mcache_len)?,
        mcache_gossip: section.count("mcache_gossip", default.mcache_gossip)?,
        opportunistic_ticks: section.count("opportunistic_ticks", default.opportunistic_ticks)?,
        opportunistic_peers: section.count("opportunistic_peers", default.opportunistic_peers)?,
        max_ihave: section.count("max_ihave", default.max_ihave)?,
        max_ihave_ids: section.count("max_ihave_ids", default.max_ihave_ids)?,
        gossip_retransmission: section.count(
            "gossip_retransmission",
            default.gossip_retransmission,
        )?,
    })
}

/// Returns all parameters, if they pass their checks.
#[tactic(auto, unfolding(crate::specs::ParamsOf::params_of))]
pub fn params_of(shared: Shared, topics: Seq<(Topic, TopicParams)>) -> Result<Params, ScenarioFault>
    ensures { GivesSame result (params_of shared topics) }
{
    let params = Params {
        degrees: shared.degrees,
        thresholds: shared.thresholds,
        factors: shared.factors,
        timing: shared.timing,
        flood_publish: shared.flood_publish,
        topics,
    };
    match params.check() {
        Ok(params) => Ok(params),
        Err(fault) => Err(ScenarioFault::Params(fault)),
    }
}
