ghost use Rattle.std.specs.Prelude.{◌≡◌, Some, option_map};
ghost use Rattle.gs_scenario.specs.declared.fault.ScenarioFault.TheVariants.{NoMemory};
ghost use Rattle.gs_scenario.specs.Refusal.{number_of, place_of, refusal_text};

use crate::reason::{Found, NameKind, Wanted};
use crate::scenario::TableKind;
use gs_base::Text;
use gs_params::ParamFault;
use std::alloc::{AllocError, AllocFailed};
use std::error::Error;
use std::fmt;

/// Why a scenario is refused. Each fault except three names its place first. A key of the top table has its name as place.
/// Other places look like `params.d`, `peer[1]` or `do[2].hex`, where elements count from 0.
#[derive(Debug, Drop, PartialEq, Eq)]
pub enum ScenarioFault {
    /// The text is no TOML document.
    Toml,
    /// A table of this kind has a key that is not known there. The key is the last part of the place.
    UnknownKey(Text, TableKind),
    /// A key that is required is missing.
    Missing(Text),
    /// A value has another type, is out of its range, or is badly formed. The fault has its place, what stands there, and
    /// what must stand there.
    Range(Text, Found, Wanted),
    /// A name is well formed, but nothing of the kind that may stand there has it. The fault has the place and the name.
    UnknownName(Text, Text, NameKind),
    /// A name, a dial, the score of a neighbour or a peering agreement stands for the second time.
    Repeated(Text),
    /// The parameters don't pass their checks.
    Params(ParamFault),
    /// Out of memory for the plan.
    NoMemory,
}

impl ScenarioFault {
    /// Returns the number of the refusal, as docs/REFUSALS.md lists it: 26 to 32, or 1 to 4 for parameters.
    pub fn number(&self) -> u8
        ensures { result ≡ number_of self.now }
    {
        match self {
            ScenarioFault::Toml => 26,
            ScenarioFault::UnknownKey(..) => 27,
            ScenarioFault::Missing(_) => 28,
            ScenarioFault::Range(..) => 29,
            ScenarioFault::UnknownName(..) => 30,
            ScenarioFault::Repeated(_) => 31,
            ScenarioFault::Params(fault) => fault.number(),
            ScenarioFault::NoMemory => 32,
        }
    }

    /// Returns the place that is refused. `Toml`, `Params` and `NoMemory` have none.
    pub fn place(&self) -> Option<&Text>
        ensures { option_map (λ place. place.now) result ≡ place_of self.now }
    {
        match self {
            ScenarioFault::UnknownKey(place, _)
            | ScenarioFault::Missing(place)
            | ScenarioFault::Range(place, _, _)
            | ScenarioFault::UnknownName(place, _, _)
            | ScenarioFault::Repeated(place) => Some(place),
            ScenarioFault::Toml | ScenarioFault::Params(_) | ScenarioFault::NoMemory => None,
        }
    }
}

/// The number, and after a space the place where there is one, such as `29 do[2].hex`.
impl fmt::Display for ScenarioFault {
    ghost output = { λ fault. Some (refusal_text fault) };

    fn fmt<W: fmt::Write>(&self, f: &mut fmt::Formatter<W>) -> fmt::Result {
        let number = self.number();
        match self.place() {
            Some(place) => write!(f, "{number} {}", place.as_str()),
            None => write!(f, "{number}"),
        }
    }
}

impl Error for ScenarioFault {}

impl From<AllocError> for ScenarioFault {
    ghost from_gives = { λ _ fault. fault ≡ NoMemory };

    fn from(_error: AllocError) -> ScenarioFault {
        ScenarioFault::NoMemory
    }
}

impl<T: Drop> From<AllocFailed<T>> for ScenarioFault {
    ghost from_gives = { λ _ fault. fault ≡ NoMemory };

    fn from(_error: AllocFailed<T>) -> ScenarioFault {
        ScenarioFault::NoMemory
    }
}
