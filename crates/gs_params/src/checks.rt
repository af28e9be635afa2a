ghost use Rattle.std.specs.Prelude.{◌≡◌};
ghost use Rattle.gs_params.specs.Checks.{count_keeps, first_broken, holds, score_keeps};

use crate::parameter::Parameter;

/// A rule for values that are never below 0: numbers of neighbours or messages, times and factors.
#[derive(Clone, Copy, Debug, PartialEq, Eq)]
pub enum CountRule {
    /// At least this number.
    AtLeast(u64),
    /// At most this number.
    AtMost(u64),
    /// From the first number to the second, with both.
    Range(u64, u64),
    /// At most another parameter, which has this value.
    NotAbove(Parameter, u64),
    /// Less than another parameter, which has this value.
    BelowThat(Parameter, u64),
    /// Twice the value is at most another parameter, which has this value.
    TwiceNotAbove(Parameter, u64),
    /// The sum with a second parameter is at most a third one. Each of the two is followed by its value.
    SumNotAbove(Parameter, u64, Parameter, u64),
}

/// A rule for values in whole millionths.
#[derive(Clone, Copy, Debug, PartialEq, Eq)]
pub enum ScoreRule {
    /// Less than this.
    Below(i64),
    /// From the first number to the second, with both.
    Range(i64, i64),
    /// At most another parameter, which has this value.
    NotAbove(Parameter, i64),
}

/// A parameter, its value, and a rule that the value must keep.
#[derive(Clone, Copy, Debug, PartialEq, Eq)]
pub enum Check {
    /// A value that is counted, and never below 0.
    Count(Parameter, u64, CountRule),
    /// A value in whole millionths.
    Score(Parameter, i64, ScoreRule),
}

impl CountRule {
    fn is_kept_by(&self, value: u64) -> bool
        ensures { result ≡ count_keeps value self.now }
    {
        match *self {
            CountRule::AtLeast(low) => low <= value,
            CountRule::AtMost(high) => value <= high,
            CountRule::Range(low, high) => low <= value && value <= high,
            CountRule::NotAbove(_, other) => value <= other,
            CountRule::BelowThat(_, other) => value < other,
            CountRule::TwiceNotAbove(_, other) => 2 * (value as u128) <= other as u128,
            CountRule::SumNotAbove(_, second, _, third) => {
                value as u128 + second as u128 <= third as u128
            }
        }
    }
}

impl ScoreRule {
    fn is_kept_by(&self, value: i64) -> bool
        ensures { result ≡ score_keeps value self.now }
    {
        match *self {
            ScoreRule::Below(high) => value < high,
            ScoreRule::Range(low, high) => low <= value && value <= high,
            ScoreRule::NotAbove(_, other) => value <= other,
        }
    }
}

impl Check {
    fn holds(&self) -> bool
        ensures { result ≡ holds self.now }
    {
        match self {
            Check::Count(_, value, rule) => rule.is_kept_by(*value),
            Check::Score(_, value, rule) => rule.is_kept_by(*value),
        }
    }
}

/// Returns the first check that fails, if any.
pub fn first_broken(checks: &[Check]) -> Option<Check>
    ensures { result ≡ first_broken checks.now }
{
    for check in checks {
        if !check.holds() {
            return Some(*check);
        }
    }
    None
}
