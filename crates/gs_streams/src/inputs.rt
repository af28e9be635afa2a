//! The scenario in an input: the plan that its bytes describe, or why they are refused.
ghost use Rattle.std.specs.Prelude.{◌≡◌, ◌≤◌, ◌⊎◌, Err, IfErr, IfOk, IsUtf8, Some, codes, length};
ghost use Rattle.gs_plan.specs.Plans.{IsInRange};
ghost use Rattle.gs_scenario.specs.declared.fault.ScenarioFault.TheVariants.{NoMemory, Toml};
ghost use Rattle.gs_streams.specs.Inputs.{IsRefusal, IsScenario, input_too_long};
ghost use Rattle.gs_plan.specs.Limits.{longest_input};

use gs_base::Text;
use gs_plan::{Limits, Plan};
use gs_scenario::{Found, ScenarioFault, Wanted, read_plan};
use std::alloc::Global;

/// Returns the plan that the bytes of a whole input describe within these limits.
///
/// # Errors
/// `Toml` if the bytes are not UTF-8, and else the errors of `read_plan`.
pub fn plan_from(alloc: Global, limits: Limits, bytes: &[u8]) -> Result<Plan, ScenarioFault>
    requires { length bytes.now ≤ longest_input limits }
    ensures found { IfOk result (λ plan. IsScenario limits (Some bytes.now) plan) }
    ensures in_range { IfOk result (λ plan. IsInRange plan) }
    ensures refused { IfErr result (IsRefusal limits bytes.now) }
    ensures no_text { ¬ IsUtf8 bytes.now → result ≡ Err Toml }
{
    match str::from_utf8(bytes) {
        Ok(text) => read_plan(alloc, limits, text),
        Err(_) => Err(ScenarioFault::Toml),
    }
}

/// Returns the refusal of an input that is too long, whatever it contains: 29, at `input`. If memory for the place runs out, it
/// returns `NoMemory` instead.
pub fn input_too_long(alloc: Global, limits: Limits) -> ScenarioFault
    ensures { (result ≡ input_too_long limits) ⊎ (result ≡ NoMemory) }
{
    match Text::from_str(alloc, "input") {
        Ok(place) => {
            let wanted = Wanted::ShortInput(limits.longest_input() as u64);
            ScenarioFault::Range(place, Found::LongInput, wanted)
        }
        Err(_) => ScenarioFault::NoMemory,
    }
}
