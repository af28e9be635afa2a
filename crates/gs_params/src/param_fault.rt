ghost use Rattle.std.specs.Prelude.{◌≡◌};
ghost use Rattle.gs_params.specs.Checks.{number_of};

use crate::checks::Check;

/// Why parameters are refused: the first check that fails, in its group.
#[derive(Clone, Copy, Debug, PartialEq, Eq, thiserror::Error)]
pub enum ParamFault {
    /// The degrees don't fit together.
    #[error("the degrees don't fit together")]
    Degrees(Check),
    /// A threshold is out of its range, or thresholds are out of order.
    #[error("a threshold is out of range")]
    Thresholds(Check),
    /// A factor, a weight or a cap is out of its range.
    #[error("a factor, a weight or a cap is out of range")]
    Factor(Check),
    /// A time or a budget is out of its range.
    #[error("a time or a budget is out of range")]
    Timing(Check),
}

impl ParamFault {
    /// Returns the number of the refusal, as docs/REFUSALS.md lists it: 1 to 4.
    pub fn number(self) -> u8
        ensures { result ≡ number_of self }
    {
        match self {
            ParamFault::Degrees(_) => 1,
            ParamFault::Thresholds(_) => 2,
            ParamFault::Factor(_) => 3,
            ParamFault::Timing(_) => 4,
        }
    }
}
