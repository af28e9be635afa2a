//! The parameters of a gossipsub peer, their defaults and the ranges that they must be in.
//!
//! Scores, weights and factors are whole millionths: 1,000,000 is one. The sources are gossipsub v1.0, Parameters, and
//! gossipsub v1.1, Peer Scoring and Overview of New Parameters; the ranges and the defaults are this project's own.
ghost use Rattle.std.specs.Prelude.{◌≡◌, IfOk};
ghost use Rattle.gs_params.specs.declared.params.Params.{Params as ParamsValue};
ghost use Rattle.gs_params.specs.Params.{AreInRange, default_params};
ghost use Rattle.gs_params.specs.Checks.{all_factor_checks, all_timing_checks, checked, degree_checks, each_topic_from, factor_checks, first_broken, threshold_checks, timing_checks, topic_factor_checks, topic_timing_checks};

use crate::checks::{Check, CountRule, ScoreRule, first_broken};
use crate::param_fault::ParamFault;
use crate::parameter::Parameter::{
    AppSpecificWeight, BehaviourPenaltyWeight, D, DHigh, DLazy, DLow, DOut, DScore, DecayMs,
    DecayToZero, FanoutTtlMs, GossipFactor, GossipRetransmission, GossipThreshold,
    GraylistThreshold, HeartbeatMs, IpColocationFactorWeight, IwantFollowupMs, MaxIhave,
    MaxIhaveIds, McacheGossip, McacheLen, OpportunisticPeers, OpportunisticThreshold,
    OpportunisticTicks, P6Threshold, P7Decay, PruneBackoffS, PublishThreshold, SeenTtlMs, TopicCap,
    UnsubscribeBackoffS,
};
use crate::ranges::{
    BACKOFF, CAP, FRACTION, HIGHEST_DEGREE, HIGHEST_FACTOR, PENALTY, REWARD, TIME,
};
use crate::topic_params::TopicParams;
use gs_base::{ExactClone, MOST_IDENTIFIERS, Seq, Topic};
use std::alloc::{AllocError, Global};

/// The degrees of a mesh, in neighbours.
#[derive(Clone, Copy, Debug, PartialEq, Eq)]
pub struct Degrees {
    /// How many members a mesh should have.
    pub d: u64,
    /// A mesh with fewer members than this is filled: 1 to `d`.
    pub d_low: u64,
    /// A mesh with more members than this is cut: `d` to 64.
    pub d_high: u64,
    /// How many of the best members by score are kept when a mesh is cut: together with `d_out` at most `d`.
    pub d_score: u64,
    /// How many outbound members a mesh should have: fewer than `d_low`, and at most half of `d`.
    pub d_out: u64,
    /// How many neighbours get gossip at least, if there are as many: at most 64.
    pub d_lazy: u64,
}

/// The default degrees.
pub const DEFAULT_DEGREES: Degrees = Degrees {
    d: 6,
    d_low: 4,
    d_high: 12,
    d_score: 4,
    d_out: 2,
    d_lazy: 6,
};

/// The scores that neighbours need, in millionths.
#[derive(Clone, Copy, Debug, PartialEq, Eq)]
pub struct Thresholds {
    /// A neighbour with a lower score than this gets and gives no gossip: below 0.
    pub gossip_threshold: i64,
    /// A neighbour with a lower score than this is not published to, unless it is explicit: at most `gossip_threshold`.
    pub publish_threshold: i64,
    /// A neighbour with a lower score than this is not listened to, unless it is explicit: at most `publish_threshold`.
    pub graylist_threshold: i64,
    /// A mesh with a lower median score than this gets better members: 0 to 10^12.
    pub opportunistic_threshold: u64,
}

/// The default thresholds.
pub const DEFAULT_THRESHOLDS: Thresholds = Thresholds {
    gossip_threshold: -10_000_000,
    publish_threshold: -50_000_000,
    graylist_threshold: -80_000_000,
    opportunistic_threshold: 1_000_000,
};

/// Factors, weights and caps of the score, in millionths.
#[derive(Clone, Copy, Debug, PartialEq, Eq)]
pub struct Factors {
    /// The part of the neighbours that get gossip: 0 to 1,000,000.
    pub gossip_factor: u64,
    /// What a decay leaves of the counter of misbehaviour (P7): 0 to 1,000,000.
    pub p7_decay: u64,
    /// The weight of the score that the application gives (P5): 0 to 10^9.
    pub w5: i64,
    /// The weight of neighbours at one address (P6): -10^9 to 0.
    pub w6: i64,
    /// The weight of misbehaviour (P7): -10^9 to 0.
    pub w7: i64,
    /// The most that all topics together add to a score: 0, which is no cap, to 10^12.
    pub topic_cap: u64,
    /// A counter that decays below this becomes 0: 0 to 10^12.
    pub decay_to_zero: u64,
    /// How many neighbours at one address cost nothing (P6): 1 to 65,535, whole ones.
    pub p6_threshold: u64,
}

/// The default factors.
pub const DEFAULT_FACTORS: Factors = Factors {
    gossip_factor: 250_000,
    p7_decay: 900_000,
    w5: 1_000_000,
    w6: -5_000_000,
    w7: -10_000_000,
    topic_cap: 0,
    decay_to_zero: 10_000,
    p6_threshold: 1,
};

/// Times and budgets.
#[derive(Clone, Copy, Debug, PartialEq, Eq)]
pub struct Timing {
    /// The time from heartbeat to heartbeat, in milliseconds: 1 to 10^9.
    pub heartbeat_ms: u64,
    /// The time from decay to decay of the counters, in milliseconds: 1 to 10^9.
    pub decay_ms: u64,
    /// For how long a fanout is kept after the last message, in milliseconds: 1 to 10^9.
    pub fanout_ttl_ms: u64,
    /// For how long a message counts as seen, in milliseconds: 1 to 10^9.
    pub seen_ttl_ms: u64,
    /// How long a neighbour may take to send what it announced, in milliseconds: 1 to 10^9.
    pub iwant_followup_ms: u64,
    /// For how long a pruned neighbour stays away, in seconds: 1 to 86,400.
    pub prune_backoff_s: u64,
    /// For how long a peer that left a topic stays away, in seconds: 1 to 86,400.
    pub unsubscribe_backoff_s: u64,
    /// For how many heartbeats a message is kept: 1 to 64.
    pub mcache_len: u64,
    /// For how many heartbeats a message is announced: 1 to `mcache_len`.
    pub mcache_gossip: u64,
    /// A mesh may get better members at heartbeats whose number is a multiple of this: 1 to 10^6.
    pub opportunistic_ticks: u64,
    /// How many better members it gets at most: 0 to 64.
    pub opportunistic_peers: u64,
    /// How many announcements from a neighbour count from heartbeat to heartbeat: 1 to 1,000.
    pub max_ihave: u64,
    /// How many identifiers a neighbour is asked for from heartbeat to heartbeat: 1 to 5,000.
    pub max_ihave_ids: u64,
    /// How often a message is sent to a neighbour that asks for it: 1 to 1,000.
    pub gossip_retransmission: u64,
}

/// The default times and budgets.
pub const DEFAULT_TIMING: Timing = Timing {
    heartbeat_ms: 1_000,
    decay_ms: 1_000,
    fanout_ttl_ms: 60_000,
    seen_ttl_ms: 120_000,
    iwant_followup_ms: 3_000,
    prune_backoff_s: 60,
    unsubscribe_backoff_s: 10,
    mcache_len: 5,
    mcache_gossip: 3,
    opportunistic_ticks: 60,
    opportunistic_peers: 2,
    max_ihave: 10,
    max_ihave_ids: 5_000,
    gossip_retransmission: 3,
};

/// The default of `flood_publish`.
pub const DEFAULT_FLOOD_PUBLISH: bool = true;

/// The parameters of a gossipsub peer.
#[derive(Debug, Drop, PartialEq, Eq)]
pub struct Params {
    pub degrees: Degrees,
    pub thresholds: Thresholds,
    pub factors: Factors,
    pub timing: Timing,
    /// Whether the peer's own message goes to all neighbours on its topic that may get it, and not only to its mesh.
    pub flood_publish: bool,
    /// The parameters of topics. The first ones of a topic count, and a topic without any has the defaults.
    pub topics: Seq<(Topic, TopicParams)>,
}

impl Degrees {
    /// Returns the checks of whether the degrees fit together.
    pub fn checks(&self) -> [Check; 8]
        ensures { result ≡ degree_checks self.now }
    {
        [
            Check::Count(D, self.d, CountRule::NotAbove(DHigh, self.d_high)),
            Check::Count(DLow, self.d_low, CountRule::AtLeast(1)),
            Check::Count(DLow, self.d_low, CountRule::NotAbove(D, self.d)),
            Check::Count(DHigh, self.d_high, CountRule::AtMost(HIGHEST_DEGREE)),
            Check::Count(
                DScore,
                self.d_score,
                CountRule::SumNotAbove(DOut, self.d_out, D, self.d),
            ),
            Check::Count(DOut, self.d_out, CountRule::BelowThat(DLow, self.d_low)),
            Check::Count(DOut, self.d_out, CountRule::TwiceNotAbove(D, self.d)),
            Check::Count(DLazy, self.d_lazy, CountRule::AtMost(HIGHEST_DEGREE)),
        ]
    }
}

impl Thresholds {
    /// Returns the checks of whether the thresholds are in their ranges and in order.
    pub fn checks(&self) -> [Check; 4]
        ensures { result ≡ threshold_checks self.now }
    {
        let gossip = self.gossip_threshold;
        let publish = self.publish_threshold;
        let graylist = self.graylist_threshold;
        [
            Check::Score(GossipThreshold, gossip, ScoreRule::Below(0)),
            Check::Score(
                PublishThreshold,
                publish,
                ScoreRule::NotAbove(GossipThreshold, gossip),
            ),
            Check::Score(
                GraylistThreshold,
                graylist,
                ScoreRule::NotAbove(PublishThreshold, publish),
            ),
            Check::Count(OpportunisticThreshold, self.opportunistic_threshold, CAP),
        ]
    }
}

impl Factors {
    /// Returns the checks of whether each value is in its range.
    pub fn checks(&self) -> [Check; 8]
        ensures { result ≡ factor_checks self.now }
    {
        [
            Check::Count(
                GossipFactor,
                self.gossip_factor,
                CountRule::AtMost(HIGHEST_FACTOR),
            ),
            Check::Count(P7Decay, self.p7_decay, FRACTION),
            Check::Score(AppSpecificWeight, self.w5, REWARD),
            Check::Score(IpColocationFactorWeight, self.w6, PENALTY),
            Check::Score(BehaviourPenaltyWeight, self.w7, PENALTY),
            Check::Count(TopicCap, self.topic_cap, CAP),
            Check::Count(DecayToZero, self.decay_to_zero, CAP),
            Check::Count(P6Threshold, self.p6_threshold, CountRule::Range(1, 65_535)),
        ]
    }
}

impl Timing {
    /// Returns the checks of whether each value is in its range.
    pub fn checks(&self) -> [Check; 15]
        ensures { result ≡ timing_checks self.now }
    {
        let len = self.mcache_len;
        [
            Check::Count(HeartbeatMs, self.heartbeat_ms, TIME),
            Check::Count(DecayMs, self.decay_ms, TIME),
            Check::Count(FanoutTtlMs, self.fanout_ttl_ms, TIME),
            Check::Count(SeenTtlMs, self.seen_ttl_ms, TIME),
            Check::Count(IwantFollowupMs, self.iwant_followup_ms, TIME),
            Check::Count(PruneBackoffS, self.prune_backoff_s, BACKOFF),
            Check::Count(UnsubscribeBackoffS, self.unsubscribe_backoff_s, BACKOFF),
            Check::Count(McacheLen, len, CountRule::Range(1, 64)),
            Check::Count(McacheGossip, self.mcache_gossip, CountRule::AtLeast(1)),
            Check::Count(
                McacheGossip,
                self.mcache_gossip,
                CountRule::NotAbove(McacheLen, len),
            ),
            Check::Count(
                OpportunisticTicks,
                self.opportunistic_ticks,
                CountRule::Range(1, 1_000_000),
            ),
            Check::Count(
                OpportunisticPeers,
                self.opportunistic_peers,
                CountRule::AtMost(HIGHEST_DEGREE),
            ),
            Check::Count(MaxIhave, self.max_ihave, CountRule::Range(1, 1_000)),
            Check::Count(
                MaxIhaveIds,
                self.max_ihave_ids,
                CountRule::Range(1, MOST_IDENTIFIERS),
            ),
            Check::Count(
                GossipRetransmission,
                self.gossip_retransmission,
                CountRule::Range(1, 1_000),
            ),
        ]
    }
}

impl Clone for Params {
    ghost is_clone = { λ source copy. copy ≡ source };

    fn clone(&self) -> Result<Params, AllocError> {
        Ok(Params {
            degrees: self.degrees,
            thresholds: self.thresholds,
            factors: self.factors,
            timing: self.timing,
            flood_publish: self.flood_publish,
            topics: self.topics.clone()?,
        })
    }
}

impl ExactClone for Params {
    ghost exact = { λ source copy same. same };
}

impl Params {
    /// Returns the default parameters. They take no memory.
    pub fn new(alloc: Global) -> Params
        ensures { result ≡ default_params }
    {
        Params {
            degrees: DEFAULT_DEGREES,
            thresholds: DEFAULT_THRESHOLDS,
            factors: DEFAULT_FACTORS,
            timing: DEFAULT_TIMING,
            flood_publish: DEFAULT_FLOOD_PUBLISH,
            topics: Seq::new(alloc),
        }
    }

    /// Returns the parameters if all of them are in their ranges.
    ///
    /// # Errors
    /// The first check that fails. First come `Degrees`, then `Thresholds`, `Factor` and `Timing`. In each of the last two,
    /// the checks of topics come last. Within a group, the checks have the order of the parameters' names in the structs.
    pub fn check(self) -> Result<Params, ParamFault>
        ensures checked { result ≡ checked self }
        ensures in_range { IfOk result AreInRange }
    {
        if let Some(check) = first_broken(&self.degrees.checks()) {
            return Err(ParamFault::Degrees(check));
        }
        if let Some(check) = first_broken(&self.thresholds.checks()) {
            return Err(ParamFault::Thresholds(check));
        }
        if let Some(check) = self.first_broken_factor() {
            return Err(ParamFault::Factor(check));
        }
        if let Some(check) = self.first_broken_timing() {
            return Err(ParamFault::Timing(check));
        }
        Ok(self)
    }

    /// The first check of a factor that fails, those of topics last.
    fn first_broken_factor(&self) -> Option<Check>
        ensures { result ≡ first_broken (all_factor_checks self.now) }
    {
        if let Some(check) = first_broken(&self.factors.checks()) {
            return Some(check);
        }
        first_broken_factor(self.topics.as_slice())
    }

    /// The first check of a time or a budget that fails, those of topics last.
    fn first_broken_timing(&self) -> Option<Check>
        ensures { result ≡ first_broken (all_timing_checks self.now) }
    {
        if let Some(check) = first_broken(&self.timing.checks()) {
            return Some(check);
        }
        first_broken_timing(self.topics.as_slice())
    }
}

/// Parameters that are in their ranges pass each check, and come back unchanged.
pub fn parameters_in_range_pass()
    ensures { (p : ParamsValue) → AreInRange p → checked p ≡ Ok p }
{}

fn first_broken_factor(topics: &[(Topic, TopicParams)]) -> Option<Check>
    ensures { result ≡ first_broken
        (each_topic_from (λ place one. topic_factor_checks place one.factors) 0 topics.now) }
{
    for (place, topic) in topics.iter().enumerate() {
        if let Some(check) = first_broken(&topic.1.factors.checks(place)) {
            return Some(check);
        }
    }
    None
}

fn first_broken_timing(topics: &[(Topic, TopicParams)]) -> Option<Check>
    ensures { result ≡ first_broken
        (each_topic_from (λ place one. topic_timing_checks place one.timing) 0 topics.now) }
{
    for (place, topic) in topics.iter().enumerate() {
        if let Some(check) = first_broken(&topic.1.timing.checks(place)) {
            return Some(check);
        }
    }
    None
}
