//! What results from the reading of an input: a plan to run, or how the program ends.
ghost use Rattle.std.specs.Prelude.{◌≡◌, ◌≤◌, Err, IfErr, IfOk, MatchResult, Ok, false, length};
ghost use Rattle.gs_plan.specs.Limits.{longest_input};
ghost use Rattle.gs_program.specs.Program.{TellsRefusal};
ghost use Rattle.gs_program.specs.Endings.{EndsUnread, GoesOn, GoesOnWith};
ghost use Rattle.gs_program.specs.Progress.{has_begun};

use crate::telling::tell_refusal;
use gs_plan::{Limits, Plan};
use gs_scenario::ScenarioFault;
use gs_streams::{ExitStatus, ReadFault, input_too_long, plan_from, try_to_write};
use std::alloc::Global;
use std::io::Write;

/// Returns the plan of what was read. Where there is none, `errors` has a line that says why, or a front of it.
///
/// # Errors
/// How the program ends in that case.
pub fn plan_after<E: Write>(
    alloc: Global,
    limits: Limits,
    reading: Result<Vec<u8>, ReadFault>,
    errors: &mut E,
) -> Result<Plan, ExitStatus>
    requires short { IfOk reading (λ text. length text.items ≤ longest_input limits) }
    ensures goes_on { MatchResult reading
        (λ text. GoesOnWith limits text.items result (E.contents errors.old) (E.contents errors.new))
        (λ fault. EndsUnread limits fault result (E.contents errors.old) (E.contents errors.new)) }
    ensures unread { IfErr result (λ status. has_begun status ≡ false) }
{
    match reading {
        Ok(text) => go_on(alloc, plan_from(alloc, limits, &text), errors),
        Err(fault) => end_unread(alloc, limits, fault, errors),
    }
}

/// Returns the plan of a scenario that was read. Where the scenario is refused, `errors` has the line of its refusal, or a
/// front of it.
fn go_on<E: Write>(
    alloc: Global,
    planned: Result<Plan, ScenarioFault>,
    errors: &mut E,
) -> Result<Plan, ExitStatus>
    ensures goes_on { GoesOn planned result (E.contents errors.old) (E.contents errors.new) }
    ensures unread { IfErr result (λ status. has_begun status ≡ false) }
{
    match planned {
        Ok(plan) => Ok(plan),
        Err(fault) => refuse(alloc, &fault, errors),
    }
}

/// Says why an input was not read to its end.
fn end_unread<E: Write>(
    alloc: Global,
    limits: Limits,
    fault: ReadFault,
    errors: &mut E,
) -> Result<Plan, ExitStatus>
    ensures ends { EndsUnread limits fault result (E.contents errors.old) (E.contents errors.new) }
    ensures unread { IfErr result (λ status. has_begun status ≡ false) }
{
    match fault {
        ReadFault::Failed => {
            try_to_write(errors, "input failed\n");
            Err(ExitStatus::InputFailed)
        }
        ReadFault::TooLong => refuse(alloc, &input_too_long(alloc, limits), errors),
        ReadFault::NoMemory => refuse(alloc, &ScenarioFault::NoMemory, errors),
    }
}

/// Says why a scenario is refused.
fn refuse<E: Write>(
    alloc: Global,
    fault: &ScenarioFault,
    errors: &mut E,
) -> Result<Plan, ExitStatus>
    ensures end { result ≡ Err ExitStatus.Refused }
    ensures line { TellsRefusal fault.now (E.contents errors.old) (E.contents errors.new) }
{
    tell_refusal(alloc, errors, fault);
    Err(ExitStatus::Refused)
}
