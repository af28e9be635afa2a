//! Parameters that are not what they must be.
use gs_params::{Check, CountRule, ParamFault, Parameter, ScoreRule, TopicParameter};
use std::fmt;

/// A parameter, its value and the rule that it breaks, in words. The value of a key that is left out is its default.
#[derive(Clone, Copy)]
pub struct Broken(pub ParamFault);

/// A parameter as its place in the scenario, such as `` `params.d` `` or `` `topic[0].w4` ``.
#[derive(Clone, Copy)]
struct Placed(Parameter);

impl fmt::Display for Broken {
    fn fmt<W: fmt::Write>(&self, f: &mut fmt::Formatter<W>) -> fmt::Result {
        let check = match self.0 {
            ParamFault::Degrees(check)
            | ParamFault::Thresholds(check)
            | ParamFault::Factor(check)
            | ParamFault::Timing(check) => check,
        };
        match check {
            Check::Count(parameter, value, rule) => {
                write!(f, "{} is {value}: ", Placed(parameter))?;
                write_count_rule(f, rule)
            }
            Check::Score(parameter, value, rule) => {
                write!(f, "{} is {value}: ", Placed(parameter))?;
                write_score_rule(f, rule)
            }
        }
    }
}

impl fmt::Display for Placed {
    fn fmt<W: fmt::Write>(&self, f: &mut fmt::Formatter<W>) -> fmt::Result {
        match self.0 {
            Parameter::OfTopic(place, parameter) => {
                write!(f, "`topic[{place}].{}`", topic_key_of(parameter))
            }
            parameter => write!(f, "`params.{}`", key_of(parameter)),
        }
    }
}

fn write_count_rule<W: fmt::Write>(f: &mut fmt::Formatter<W>, rule: CountRule) -> fmt::Result {
    match rule {
        CountRule::AtLeast(low) => write!(f, "it must be at least {low}"),
        CountRule::AtMost(high) => write!(f, "it must be at most {high}"),
        CountRule::Range(low, high) => write!(f, "it must be from {low} to {high}"),
        CountRule::NotAbove(other, its) => {
            write!(
                f,
                "it must not be above `{}`, which is {its}",
                key_of(other)
            )
        }
        CountRule::BelowThat(other, its) => {
            write!(f, "it must be below `{}`, which is {its}", key_of(other))
        }
        CountRule::TwiceNotAbove(other, its) => {
            let other = key_of(other);
            write!(
                f,
                "twice as many must not be above `{other}`, which is {its}"
            )
        }
        CountRule::SumNotAbove(second, its, third, highest) => {
            write!(f, "together with `{}`, which is {its}, ", key_of(second))?;
            let third = key_of(third);
            write!(f, "it must not be above `{third}`, which is {highest}")
        }
    }
}

fn write_score_rule<W: fmt::Write>(f: &mut fmt::Formatter<W>, rule: ScoreRule) -> fmt::Result {
    match rule {
        ScoreRule::Below(high) => write!(f, "it must be below {high}"),
        ScoreRule::Range(low, high) => write!(f, "it must be from {low} to {high}"),
        ScoreRule::NotAbove(other, its) => {
            write!(
                f,
                "it must not be above `{}`, which is {its}",
                key_of(other)
            )
        }
    }
}

/// Returns the key of a parameter.
pub fn key_of(parameter: Parameter) -> &'static str {
    match parameter {
        Parameter::D => "d",
        Parameter::DLow => "d_low",
        Parameter::DHigh => "d_high",
        Parameter::DScore => "d_score",
        Parameter::DOut => "d_out",
        Parameter::DLazy => "d_lazy",
        Parameter::GossipThreshold => "gossip_threshold",
        Parameter::PublishThreshold => "publish_threshold",
        Parameter::GraylistThreshold => "graylist_threshold",
        Parameter::OpportunisticThreshold => "opportunistic_threshold",
        Parameter::GossipFactor => "gossip_factor",
        Parameter::P7Decay => "p7_decay",
        Parameter::AppSpecificWeight => "w5",
        Parameter::IpColocationFactorWeight => "w6",
        Parameter::BehaviourPenaltyWeight => "w7",
        Parameter::TopicCap => "topic_cap",
        Parameter::DecayToZero => "decay_to_zero",
        Parameter::P6Threshold => "p6_threshold",
        Parameter::HeartbeatMs => "heartbeat_ms",
        Parameter::DecayMs => "decay_ms",
        Parameter::FanoutTtlMs => "fanout_ttl_ms",
        Parameter::SeenTtlMs => "seen_ttl_ms",
        Parameter::IwantFollowupMs => "iwant_followup_ms",
        Parameter::PruneBackoffS => "prune_backoff_s",
        Parameter::UnsubscribeBackoffS => "unsubscribe_backoff_s",
        Parameter::McacheLen => "mcache_len",
        Parameter::McacheGossip => "mcache_gossip",
        Parameter::OpportunisticTicks => "opportunistic_ticks",
        Parameter::OpportunisticPeers => "opportunistic_peers",
        Parameter::MaxIhave => "max_ihave",
        Parameter::MaxIhaveIds => "max_ihave_ids",
        Parameter::GossipRetransmission => "gossip_retransmission",
        Parameter::OfTopic(_, parameter) => topic_key_of(parameter),
    }
}

fn topic_key_of(parameter: TopicParameter) -> &'static str {
    match parameter {
        TopicParameter::TopicWeight => "topic_weight",
        TopicParameter::TimeInMeshWeight => "w1",
        TopicParameter::FirstMessageDeliveriesWeight => "w2",
        TopicParameter::MeshMessageDeliveriesWeight => "w3",
        TopicParameter::MeshFailurePenaltyWeight => "w3b",
        TopicParameter::InvalidMessageDeliveriesWeight => "w4",
        TopicParameter::P2Decay => "p2_decay",
        TopicParameter::P3Decay => "p3_decay",
        TopicParameter::P3bDecay => "p3b_decay",
        TopicParameter::P4Decay => "p4_decay",
        TopicParameter::P1Cap => "p1_cap",
        TopicParameter::P2Cap => "p2_cap",
        TopicParameter::P3Cap => "p3_cap",
        TopicParameter::P3Threshold => "p3_threshold",
        TopicParameter::P1QuantumMs => "p1_quantum_ms",
        TopicParameter::P3WindowMs => "p3_window_ms",
        TopicParameter::P3ActivationMs => "p3_activation_ms",
    }
}
