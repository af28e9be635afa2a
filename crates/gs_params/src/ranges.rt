//! The ranges of single parameters. Those of scores and weights are of `i64`, and all others of `u64`.

use crate::checks::{CountRule, ScoreRule};
use gs_base::LONGEST_BACKOFF;

/// The longest time, in milliseconds.
pub const LONGEST_TIME: u64 = 1_000_000_000;

/// The heaviest weight, in millionths. The weight of what counts against a neighbour is at least its negative.
pub const HEAVIEST: i64 = 1_000_000_000;

/// The highest cap, in millionths.
pub const HIGHEST_CAP: u64 = 1_000_000_000_000;

/// The highest degree of a mesh. It also limits `d_lazy` and `opportunistic_peers`.
pub const HIGHEST_DEGREE: u64 = 64;

/// The highest factor: one, in millionths.
pub const HIGHEST_FACTOR: u64 = 1_000_000;

/// A time above 0, in milliseconds: 1 to 10^9.
pub const TIME: CountRule = CountRule::Range(1, LONGEST_TIME);

/// A backoff, in seconds: 1 to 86,400.
pub const BACKOFF: CountRule = CountRule::Range(1, LONGEST_BACKOFF);

/// The weight of what counts for a neighbour, in millionths: 0 to 10^9.
pub const REWARD: ScoreRule = ScoreRule::Range(0, HEAVIEST);

/// The weight of what counts against a neighbour, in millionths: -10^9 to 0.
pub const PENALTY: ScoreRule = ScoreRule::Range(-HEAVIEST, 0);

/// What a decay leaves, in millionths: 0 to 1,000,000.
pub const FRACTION: CountRule = CountRule::Range(0, HIGHEST_FACTOR);

/// A cap, or another number that is never below 0: 0 to 10^12 millionths.
pub const CAP: CountRule = CountRule::Range(0, HIGHEST_CAP);
