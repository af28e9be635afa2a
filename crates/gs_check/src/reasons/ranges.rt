//! The ranges of parameters.
use crate::reasons::params::key_of;
use gs_params::{
    Check, CountRule, DEFAULT_DEGREES, DEFAULT_FACTORS, DEFAULT_THRESHOLDS, DEFAULT_TIMING,
    DEFAULT_TOPIC_FACTORS, DEFAULT_TOPIC_TIMING, ScoreRule,
};

/// Returns the lowest and the highest number that a key can have, where it is the key of a parameter. Where its rule
/// compares it with other keys, these bounds hold whatever values those have.
pub fn range_of(key: &str) -> Option<(i64, i64)> {
    let (_, degree) = own_range("d_high")?;
    match key {
        "d" | "d_low" | "d_high" => Some((1, degree)),
        "d_score" => Some((0, degree)),
        "d_out" => Some((0, degree / 2)),
        "publish_threshold" | "graylist_threshold" => own_range("gossip_threshold"),
        "mcache_gossip" => Some((1, own_range("mcache_len")?.1)),
        _ => own_range(key),
    }
}

/// Returns the range of a parameter by the first of its checks that compares it only with numbers. No key is both in
/// `[params]` and in `[[topic]]`.
fn own_range(key: &str) -> Option<(i64, i64)> {
    range_in(&DEFAULT_DEGREES.checks(), key)
        .or(range_in(&DEFAULT_THRESHOLDS.checks(), key))
        .or(range_in(&DEFAULT_FACTORS.checks(), key))
        .or(range_in(&DEFAULT_TIMING.checks(), key))
        .or(range_in(&DEFAULT_TOPIC_FACTORS.checks(0), key))
        .or(range_in(&DEFAULT_TOPIC_TIMING.checks(0), key))
}

fn range_in(checks: &[Check], key: &str) -> Option<(i64, i64)> {
    for check in checks {
        let (parameter, range) = match *check {
            Check::Count(parameter, _, rule) => (parameter, count_range(rule)),
            Check::Score(parameter, _, rule) => (parameter, score_range(rule)),
        };
        if key_of(parameter) == key && range.is_some() {
            return range;
        }
    }
    None
}

/// Returns a bound of a count as a signed number. Each bound that a rule has fits one.
pub fn signed(bound: u64) -> i64 {
    bound.min(i64::MAX as u64) as i64
}

fn count_range(rule: CountRule) -> Option<(i64, i64)> {
    match rule {
        CountRule::AtMost(high) => Some((0, signed(high))),
        CountRule::Range(low, high) => Some((signed(low), signed(high))),
        _ => None,
    }
}

fn score_range(rule: ScoreRule) -> Option<(i64, i64)> {
    match rule {
        ScoreRule::Below(high) => Some((i64::MIN, high.saturating_sub(1))),
        ScoreRule::Range(low, high) => Some((low, high)),
        ScoreRule::NotAbove(_, _) => None,
    }
}
