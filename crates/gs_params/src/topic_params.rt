//! The parameters of a topic: gossipsub v1.1, Peer Scoring, Topic Parameter Calculation.
ghost use Rattle.std.specs.Prelude.{◌≡◌};
ghost use Rattle.gs_params.specs.Params.{default_topic_params};
ghost use Rattle.gs_params.specs.Checks.{topic_factor_checks, topic_timing_checks};

use crate::checks::{Check, CountRule};
use crate::parameter::Parameter::OfTopic;
use crate::parameter::TopicParameter::{
    FirstMessageDeliveriesWeight, InvalidMessageDeliveriesWeight, MeshFailurePenaltyWeight,
    MeshMessageDeliveriesWeight, P1Cap, P1QuantumMs, P2Cap, P2Decay, P3ActivationMs, P3Cap,
    P3Decay, P3Threshold, P3WindowMs, P3bDecay, P4Decay, TimeInMeshWeight, TopicWeight,
};
use crate::ranges::{CAP, FRACTION, LONGEST_TIME, PENALTY, REWARD, TIME};
use bytes::Bytes;
use gs_base::{ExactClone, Seq};
use std::alloc::{AllocError, Global};

/// Factors, weights and caps of a topic's part of the score, in millionths.
#[derive(Clone, Copy, Debug, PartialEq, Eq)]
pub struct TopicFactors {
    /// The weight of the topic: 0 to 10^9.
    pub topic_weight: i64,
    /// The weight of the time in the mesh (P1): 0 to 10^9.
    pub w1: i64,
    /// The weight of first deliveries (P2): 0 to 10^9.
    pub w2: i64,
    /// The weight of missing deliveries in the mesh (P3): -10^9 to 0.
    pub w3: i64,
    /// The weight of deliveries that were missing when the mesh was left (P3b): -10^9 to 0.
    pub w3b: i64,
    /// The weight of invalid messages (P4): -10^9 to 0.
    pub w4: i64,
    /// What a decay leaves of the counter of first deliveries: 0 to 1,000,000.
    pub p2_decay: u64,
    /// What a decay leaves of the counter of deliveries in the mesh: 0 to 1,000,000.
    pub p3_decay: u64,
    /// What a decay leaves of the counter of missing deliveries: 0 to 1,000,000.
    pub p3b_decay: u64,
    /// What a decay leaves of the counter of invalid messages: 0 to 1,000,000.
    pub p4_decay: u64,
    /// The most that the time in the mesh counts: 0 to 10^12.
    pub p1_cap: u64,
    /// The most that the counter of first deliveries holds: 0 to 10^12.
    pub p2_cap: u64,
    /// The most that the counter of deliveries in the mesh holds: 0 to 10^12.
    pub p3_cap: u64,
    /// If the counter of deliveries in the mesh is below this, some are missing: 0 to 10^12.
    pub p3_threshold: u64,
}

/// The default factors of a topic.
pub const DEFAULT_TOPIC_FACTORS: TopicFactors = TopicFactors {
    topic_weight: 1_000_000,
    w1: 0,
    w2: 0,
    w3: 0,
    w3b: 0,
    w4: 0,
    p2_decay: 500_000,
    p3_decay: 500_000,
    p3b_decay: 500_000,
    p4_decay: 500_000,
    p1_cap: 100_000_000,
    p2_cap: 100_000_000,
    p3_cap: 100_000_000,
    p3_threshold: 0,
};

/// Times of a topic, in milliseconds.
#[derive(Clone, Copy, Debug, PartialEq, Eq)]
pub struct TopicTiming {
    /// The time in the mesh that counts as one (P1): 1 to 10^9.
    pub p1_quantum_ms: u64,
    /// For how long after the first delivery another delivery counts (P3): 0 to 10^9.
    pub p3_window_ms: u64,
    /// For how long a new member of the mesh has no missing deliveries (P3): 0 to 10^9.
    pub p3_activation_ms: u64,
}

/// The default times of a topic.
pub const DEFAULT_TOPIC_TIMING: TopicTiming = TopicTiming {
    p1_quantum_ms: 1_000,
    p3_window_ms: 10,
    p3_activation_ms: 5_000,
};

/// The parameters of a topic: how it is scored, and which payloads are rejected or ignored.
#[derive(Debug, Drop, PartialEq, Eq)]
pub struct TopicParams {
    pub factors: TopicFactors,
    pub timing: TopicTiming,
    /// A payload that begins with one of these is rejected.
    pub reject: Seq<Bytes>,
    /// A payload that begins with one of these, and is not rejected, is ignored.
    pub ignore: Seq<Bytes>,
}

impl Clone for TopicParams {
    ghost is_clone = { λ source copy. copy ≡ source };

    fn clone(&self) -> Result<TopicParams, AllocError> {
        Ok(TopicParams {
            factors: self.factors,
            timing: self.timing,
            reject: self.reject.clone()?,
            ignore: self.ignore.clone()?,
        })
    }
}

impl ExactClone for TopicParams {
    ghost exact = { λ source copy same. same };
}

impl TopicParams {
    /// Returns the default parameters of a topic. They take no memory.
    pub fn new(alloc: Global) -> TopicParams
        ensures { result ≡ default_topic_params }
    {
        TopicParams {
            factors: DEFAULT_TOPIC_FACTORS,
            timing: DEFAULT_TOPIC_TIMING,
            reject: Seq::new(alloc),
            ignore: Seq::new(alloc),
        }
    }
}

impl TopicFactors {
    /// Returns the checks of the topic at this place: whether each value is in its range.
    pub fn checks(&self, place: usize) -> [Check; 14]
        ensures { result ≡ topic_factor_checks place self.now }
    {
        [
            Check::Score(OfTopic(place, TopicWeight), self.topic_weight, REWARD),
            Check::Score(OfTopic(place, TimeInMeshWeight), self.w1, REWARD),
            Check::Score(
                OfTopic(place, FirstMessageDeliveriesWeight),
                self.w2,
                REWARD,
            ),
            Check::Score(
                OfTopic(place, MeshMessageDeliveriesWeight),
                self.w3,
                PENALTY,
            ),
            Check::Score(OfTopic(place, MeshFailurePenaltyWeight), self.w3b, PENALTY),
            Check::Score(
                OfTopic(place, InvalidMessageDeliveriesWeight),
                self.w4,
                PENALTY,
            ),
            Check::Count(OfTopic(place, P2Decay), self.p2_decay, FRACTION),
            Check::Count(OfTopic(place, P3Decay), self.p3_decay, FRACTION),
            Check::Count(OfTopic(place, P3bDecay), self.p3b_decay, FRACTION),
            Check::Count(OfTopic(place, P4Decay), self.p4_decay, FRACTION),
            Check::Count(OfTopic(place, P1Cap), self.p1_cap, CAP),
            Check::Count(OfTopic(place, P2Cap), self.p2_cap, CAP),
            Check::Count(OfTopic(place, P3Cap), self.p3_cap, CAP),
            Check::Count(OfTopic(place, P3Threshold), self.p3_threshold, CAP),
        ]
    }
}

impl TopicTiming {
    /// Returns the checks of the topic at this place: whether each value is in its range.
    pub fn checks(&self, place: usize) -> [Check; 3]
        ensures { result ≡ topic_timing_checks place self.now }
    {
        let any_time = CountRule::AtMost(LONGEST_TIME);
        [
            Check::Count(OfTopic(place, P1QuantumMs), self.p1_quantum_ms, TIME),
            Check::Count(OfTopic(place, P3WindowMs), self.p3_window_ms, any_time),
            Check::Count(
                OfTopic(place, P3ActivationMs),
                self.p3_activation_ms,
                any_time,
            ),
        ]
    }
}
