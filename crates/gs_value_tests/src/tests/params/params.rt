mod faults;
mod ranges;

use bytes::Bytes;
use gs_base::{Seq, Topic};
use gs_params::{
    Check, CountRule, Degrees, Factors, ParamFault, Parameter, Params, Thresholds, Timing,
    TopicFactors, TopicParams, TopicTiming,
};
use std::alloc::{AllocError, Global};

const DEGREES: Degrees = Degrees {
    d: 6,
    d_low: 4,
    d_high: 12,
    d_score: 4,
    d_out: 2,
    d_lazy: 6,
};

const THRESHOLDS: Thresholds = Thresholds {
    gossip_threshold: -10_000_000,
    publish_threshold: -50_000_000,
    graylist_threshold: -80_000_000,
    opportunistic_threshold: 1_000_000,
};

const FACTORS: Factors = Factors {
    gossip_factor: 250_000,
    p7_decay: 900_000,
    w5: 1_000_000,
    w6: -5_000_000,
    w7: -10_000_000,
    topic_cap: 0,
    decay_to_zero: 10_000,
    p6_threshold: 1,
};

const TIMING: Timing = Timing {
    heartbeat_ms: 1_000,
    decay_ms: 1_000,
    fanout_ttl_ms: 60_000,
    seen_ttl_ms: 120_000,
    iwant_followup_ms: 3_000,
    prune_backoff_s: 60,
    unsubscribe_backoff_s: 10,
    mcache_len: 5,
    mcache_gossip: 3,
    opportunistic_ticks: 60,
    opportunistic_peers: 2,
    max_ihave: 10,
    max_ihave_ids: 5_000,
    gossip_retransmission: 3,
};

const TOPIC_FACTORS: TopicFactors = TopicFactors {
    topic_weight: 1_000_000,
    w1: 0,
    w2: 0,
    w3: 0,
    w3b: 0,
    w4: 0,
    p2_decay: 500_000,
    p3_decay: 500_000,
    p3b_decay: 500_000,
    p4_decay: 500_000,
    p1_cap: 100_000_000,
    p2_cap: 100_000_000,
    p3_cap: 100_000_000,
    p3_threshold: 0,
};

const TOPIC_TIMING: TopicTiming = TopicTiming {
    p1_quantum_ms: 1_000,
    p3_window_ms: 10,
    p3_activation_ms: 5_000,
};

fn named(alloc: Global, name: &[u8]) -> Result<Topic, AllocError> {
    Ok(Topic(Bytes::copy_from_slice(alloc, name)?))
}

/// The defaults as they are written above, and those of two topics.
fn written_out(alloc: Global) -> Result<Params, AllocError> {
    let mut topics = Seq::new(alloc);
    for name in [b"news", b"talk"] {
        let params = TopicParams {
            factors: TOPIC_FACTORS,
            timing: TOPIC_TIMING,
            reject: Seq::new(alloc),
            ignore: Seq::new(alloc),
        };
        topics.push((named(alloc, name)?, params))?;
    }
    Ok(Params {
        degrees: DEGREES,
        thresholds: THRESHOLDS,
        factors: FACTORS,
        timing: TIMING,
        flood_publish: true,
        topics,
    })
}

/// The defaults pass, and come back as they were.
fn defaults_pass(alloc: Global) -> Result<bool, AllocError> {
    let mut params = Params::new(alloc);
    let has_topics = !params.topics.is_empty();
    params
        .topics
        .push((named(alloc, b"news")?, TopicParams::new(alloc)))?;
    params
        .topics
        .push((named(alloc, b"talk")?, TopicParams::new(alloc)))?;
    Ok(!has_topics && params.check() == Ok(written_out(alloc)?))
}

#[test]
fn the_defaults_are_in_range(rt: HostRuntime) -> Result<(), AllocError> {
    assert!(rt; defaults_pass(rt.alloc())?);
    Ok(())
}

/// Gives the parameter of this name another value, and says whether there is one.
fn set_degree(degrees: &mut Degrees, name: &str, value: i64) -> bool {
    let count = value.unsigned_abs();
    match name {
        "d" => degrees.d = count,
        "d_low" => degrees.d_low = count,
        "d_high" => degrees.d_high = count,
        "d_score" => degrees.d_score = count,
        "d_out" => degrees.d_out = count,
        "d_lazy" => degrees.d_lazy = count,
        _ => return false,
    }
    true
}

fn set_threshold(thresholds: &mut Thresholds, name: &str, value: i64) -> bool {
    match name {
        "gossip_threshold" => thresholds.gossip_threshold = value,
        "publish_threshold" => thresholds.publish_threshold = value,
        "graylist_threshold" => thresholds.graylist_threshold = value,
        "opportunistic_threshold" => thresholds.opportunistic_threshold = value.unsigned_abs(),
        _ => return false,
    }
    true
}

fn set_factor(factors: &mut Factors, name: &str, value: i64) -> bool {
    let count = value.unsigned_abs();
    match name {
        "gossip_factor" => factors.gossip_factor = count,
        "p7_decay" => factors.p7_decay = count,
        "w5" => factors.w5 = value,
        "w6" => factors.w6 = value,
        "w7" => factors.w7 = value,
        "topic_cap" => factors.topic_cap = count,
        "decay_to_zero" => factors.decay_to_zero = count,
        "p6_threshold" => factors.p6_threshold = count,
        _ => return false,
    }
    true
}

fn set_timing(timing: &mut Timing, name: &str, value: i64) -> bool {
    let count = value.unsigned_abs();
    match name {
        "heartbeat_ms" => timing.heartbeat_ms = count,
        "decay_ms" => timing.decay_ms = count,
        "fanout_ttl_ms" => timing.fanout_ttl_ms = count,
        "seen_ttl_ms" => timing.seen_ttl_ms = count,
        "iwant_followup_ms" => timing.iwant_followup_ms = count,
        "prune_backoff_s" => timing.prune_backoff_s = count,
        "unsubscribe_backoff_s" => timing.unsubscribe_backoff_s = count,
        "mcache_len" => timing.mcache_len = count,
        "mcache_gossip" => timing.mcache_gossip = count,
        "opportunistic_ticks" => timing.opportunistic_ticks = count,
        "opportunistic_peers" => timing.opportunistic_peers = count,
        "max_ihave" => timing.max_ihave = count,
        "max_ihave_ids" => timing.max_ihave_ids = count,
        "gossip_retransmission" => timing.gossip_retransmission = count,
        _ => return false,
    }
    true
}

fn set_topic_factor(factors: &mut TopicFactors, name: &str, value: i64) -> bool {
    let count = value.unsigned_abs();
    match name {
        "topic_weight" => factors.topic_weight = value,
        "w1" => factors.w1 = value,
        "w2" => factors.w2 = value,
        "w3" => factors.w3 = value,
        "w3b" => factors.w3b = value,
        "w4" => factors.w4 = value,
        "p2_decay" => factors.p2_decay = count,
        "p3_decay" => factors.p3_decay = count,
        "p3b_decay" => factors.p3b_decay = count,
        "p4_decay" => factors.p4_decay = count,
        "p1_cap" => factors.p1_cap = count,
        "p2_cap" => factors.p2_cap = count,
        "p3_cap" => factors.p3_cap = count,
        "p3_threshold" => factors.p3_threshold = count,
        _ => return false,
    }
    true
}

fn set_topic_timing(timing: &mut TopicTiming, name: &str, value: i64) -> bool {
    let count = value.unsigned_abs();
    match name {
        "p1_quantum_ms" => timing.p1_quantum_ms = count,
        "p3_window_ms" => timing.p3_window_ms = count,
        "p3_activation_ms" => timing.p3_activation_ms = count,
        _ => return false,
    }
    true
}

/// The parameters where these have other values than the defaults, and nothing where a name is none.
/// Parameters of topics have those values in the second of two topics.
fn changed(alloc: Global, changes: &[(&str, i64)]) -> Result<Option<Params>, AllocError> {
    let mut params = Params::new(alloc);
    let mut second = TopicParams::new(alloc);
    for (name, value) in changes {
        let is_known = set_degree(&mut params.degrees, name, *value)
            || set_threshold(&mut params.thresholds, name, *value)
            || set_factor(&mut params.factors, name, *value)
            || set_timing(&mut params.timing, name, *value)
            || set_topic_factor(&mut second.factors, name, *value)
            || set_topic_timing(&mut second.timing, name, *value);
        if !is_known {
            return Ok(None);
        }
    }
    params
        .topics
        .push((named(alloc, b"news")?, TopicParams::new(alloc)))?;
    params.topics.push((named(alloc, b"talk")?, second))?;
    Ok(Some(params))
}

/// The number of the refusal of parameters with these changes, and 0 where the check passes. A name
/// that is none gives 255.
fn refusal(alloc: Global, changes: &[(&str, i64)]) -> Result<u8, AllocError> {
    match changed(alloc, changes)? {
        Some(params) => match params.check() {
            Ok(_params) => Ok(0),
            Err(fault) => Ok(fault.number()),
        },
        None => Ok(u8::MAX),
    }
}

/// Parameters with other values than the defaults, and the number of the refusal, or 0.
static CHANGES: [(&[(&str, i64)], u8); 19] = [
    (&[("d_low", 1), ("d_out", 0)], 0),
    (&[("d_low", 0), ("d_out", 0)], 1),
    (&[("d_high", 6)], 0),
    (&[("d_high", 5)], 1),
    (&[("d", 64), ("d_high", 64)], 0),
    (&[("d_low", 3)], 0),
    (&[("d", 5), ("d_out", 3), ("d_score", 2)], 1),
    (&[("d_score", 0)], 0),
    (&[("d_lazy", 0)], 0),
    (&[("graylist_threshold", -49_999_999)], 2),
    (&[("mcache_len", 64), ("mcache_gossip", 64)], 0),
    // Where two checks fail, the lower number.
    (&[("gossip_threshold", 0), ("d_low", 7)], 1),
    (&[("p1_quantum_ms", 0), ("d_high", 5)], 1),
    (&[("gossip_factor", 1_000_001), ("gossip_threshold", 0)], 2),
    (&[("w3", 1), ("graylist_threshold", 0)], 2),
    (&[("mcache_len", 2), ("publish_threshold", 0)], 2),
    (&[("mcache_len", 2), ("gossip_factor", 1_000_001)], 3),
    (&[("heartbeat_ms", 0), ("p2_decay", 1_000_001)], 3),
    (
        &[
            ("p3_window_ms", 1_000_000_001),
            ("p1_cap", 1_000_000_000_001),
        ],
        3,
    ),
];

#[test]
fn each_check_has_its_number(rt: HostRuntime) -> Result<(), AllocError> {
    for (changes, number) in &CHANGES {
        assert_eq!(rt; refusal(rt.alloc(), changes)?, *number, "{changes:?}");
    }
    Ok(())
}
