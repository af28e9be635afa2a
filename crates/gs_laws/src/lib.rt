//! Laws about whole runs: one plan has one report, whatever the number of workers, the capacity of links and the schedule.
//! Each law is only about its definitions, and its function does nothing.
#![tactic(auto)]

ghost use Rattle.std.specs.Prelude.{◌≡◌, ℕ, List, Ok};
ghost use Rattle.gs_plan.specs.declared.limits.Limits.{Limits};
ghost use Rattle.gs_plan.specs.declared.limits.Limits.TheVariants.{Large};
ghost use Rattle.gs_plan.specs.declared.plan.Plan.{Plan};
ghost use Rattle.gs_scenario.specs.PlanOf.{plan_of};
ghost use Rattle.gs_laws.specs.Fixed.{APhaseIsFixed, AllIsSaidByTheEnd, RoundsAreSaidByTheirEnd};
ghost use Rattle.gs_laws.specs.Runs.{ReportsAreOne, RunsAreOne, TracesAreOne};
ghost use Rattle.gs_laws.specs.Scenarios.{TextsAreOne};

use gs_params::Words;

/// Two things fix what a peer does in a phase: its trace before, and what its neighbours said, as far as it hears that in
/// the phase. They also fix which lines it refuses there. The law is about traces in which random words make the choices. A
/// phase is a round, or what comes after the last round.
pub fn what_was_said_fixes_a_phase<W: Words>()
    ensures { APhaseIsFixed W.word W.after }
{}

/// By the end of its first rounds a peer has said all that it says in them (`rounds`). By the end of the last round it has
/// said all that it says, except its close (`all`).
pub fn what_was_done_fixes_what_is_said()
    ensures rounds { RoundsAreSaidByTheirEnd }
    ensures all { AllIsSaidByTheEnd }
{}

/// Plans that differ at most in `workers` and `capacity` have the same traces and the same refused lines. Each trace must be
/// legal by the words of its peer, and must keep the rounds on what the others say.
pub fn a_plan_has_one_list_of_traces()
    ensures { TracesAreOne }
{}

/// Runs of plans that differ at most in `workers` and `capacity` leave the same traces, refused lines, meshes and scores.
pub fn a_plan_has_one_run()
    ensures { RunsAreOne }
{}

/// Reports of plans that differ at most in `workers` and `capacity` are the same, and so are their texts.
pub fn a_plan_has_one_report()
    ensures { ReportsAreOne }
{}

/// Reports of scenarios that differ at most in `workers` and `capacity` have the same text, whichever limits each was read
/// within.
pub fn a_scenario_has_one_report()
    ensures { TextsAreOne }
{}

/// A scenario that has a plan within some limits has the same plan within the large ones.
pub fn large_limits_change_no_plan()
    ensures { (limits : Limits) (text : List ℕ) (plan : Plan)
        → plan_of limits text ≡ Ok plan
        → plan_of Large text ≡ Ok plan }
{}
