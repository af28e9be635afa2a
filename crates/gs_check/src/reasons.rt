//! Why a scenario is refused, in words.
ghost use Rattle.std.specs.Prelude.{IfOk, string_bytes};
ghost use Rattle.gs_check.specs.Words.{SaysWhy};

mod keys;
mod names;
mod params;
mod ranges;
mod values;

use crate::reasons::keys::{missing, unknown};
use crate::reasons::names::{repeated, unknown_name};
use crate::reasons::params::Broken;
use crate::reasons::values::Mismatch;
use gs_scenario::ScenarioFault;
use std::alloc::{AllocError, Global};

/// Returns the reason of a refusal, in one or two lines. It finds in the bytes what the refusal doesn't keep.
pub fn reason(alloc: Global, bytes: &[u8], fault: &ScenarioFault) -> Result<String, AllocError>
    ensures { IfOk result (λ text. SaysWhy fault.now (string_bytes text)) }
{
    match fault {
        ScenarioFault::Toml => toml_reason(alloc, bytes),
        ScenarioFault::UnknownKey(place, kind) => unknown(alloc, place.as_str(), *kind),
        ScenarioFault::Missing(place) => missing(alloc, place.as_str()),
        ScenarioFault::Range(place, found, wanted) => {
            let mismatch = Mismatch {
                place: place.as_str(),
                found,
                wanted: *wanted,
            };
            format!(in alloc; "{mismatch}\n")
        }
        ScenarioFault::UnknownName(place, name, kind) => {
            unknown_name(alloc, bytes, place.as_str(), name.as_str(), *kind)
        }
        ScenarioFault::Repeated(place) => repeated(alloc, place.as_str()),
        ScenarioFault::Params(fault) => format!(in alloc; "{}\n", Broken(*fault)),
        ScenarioFault::NoMemory => String::from_str(alloc, "there is not enough memory\n"),
    }
}

/// Says where bytes are no TOML, and why, in the words of the TOML reader.
fn toml_reason(alloc: Global, bytes: &[u8]) -> Result<String, AllocError> {
    match toml::table_from_slice(alloc, bytes) {
        Ok(_) => String::from_str(alloc, "the scenario is no TOML\n"),
        Err(fault) if fault.is_memory() => Err(AllocError),
        Err(fault) => format!(in alloc; "{fault}"),
    }
}
