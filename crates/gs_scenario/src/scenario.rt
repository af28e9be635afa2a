ghost use Rattle.std.specs.Prelude.{◌≡◌, ◌⊎◌, IfOk};
ghost use Rattle.toml.specs.Errors.{IsMemory};
ghost use Rattle.toml.specs.View.{table_view};
ghost use Rattle.gs_scenario.specs.declared.fault.ScenarioFault.TheVariants.{NoMemory, Toml};
ghost use Rattle.gs_scenario.specs.Refusal.{GivesSame};
ghost use Rattle.gs_scenario.specs.PlanOf.{plan_of, plan_in};
ghost use Rattle.gs_plan.specs.Plans.{IsInRange, IsWithin};

mod apps;
mod dials;
mod elements;
mod explicit;
mod field;
mod indexed;
mod keys;
mod pairs;
mod params;
mod peers;
mod place;
mod script;
mod section;
mod tables;
mod top;
mod topic_params;
mod topics;

use crate::fault::ScenarioFault;
use crate::scenario::apps::apps_in;
use crate::scenario::dials::dials_in;
use crate::scenario::explicit::agreements_in;
use crate::scenario::params::{params_of, shared_of};
use crate::scenario::peers::peers_in;
use crate::scenario::place::Path;
use crate::scenario::script::{Known, lines_in};
use crate::scenario::section::Section;
use crate::scenario::top::Top;
use crate::scenario::topics::topics_in;
use gs_plan::{Limits, Plan};
use std::alloc::Global;
pub use tables::TableKind;
use toml::Table;
use toml::de::Error;

/// Returns the plan that a scenario describes within these limits.
///
/// # Errors
/// The first refusal. A text that is no TOML is refused first. Then the top table is read, then the table of parameters,
/// and then the lists, element by element. In each table an unknown key is refused first. In an element of `do`, only a
/// fault of `what` comes before that. Then the keys are read in a fixed order. The parameters are checked last. `NoMemory`
/// may come at any step, and so instead of any refusal. Only tests show that a scenario which is to be refused isn't
/// refused as out of memory.
pub fn read_plan(alloc: Global, limits: Limits, text: &str) -> Result<Plan, ScenarioFault>
    ensures plan { GivesSame result (plan_of limits text.now) }
    ensures within { IfOk result (λ plan. IsWithin limits plan) }
    ensures in_range { IfOk result (λ plan. IsInRange plan) }
{
    match toml::table_from_str(alloc, text) {
        Ok(table) => plan_in(alloc, limits, &table),
        Err(fault) => Err(no_document(&fault)),
    }
}

/// Says why a text was not read: it is no TOML, unless memory ran out.
fn no_document(fault: &Error) -> ScenarioFault
    ensures { (IsMemory fault.now × (result ≡ NoMemory)) ⊎ (¬ IsMemory fault.now × (result ≡ Toml)) }
{
    if fault.is_memory() {
        return ScenarioFault::NoMemory;
    }
    ScenarioFault::Toml
}

#[tactic(auto, unfolding(crate::specs::PlanOf::plan_in))]
fn plan_in(alloc: Global, limits: Limits, table: &Table) -> Result<Plan, ScenarioFault>
    ensures { GivesSame result (plan_in limits (table_view table.now)) }
{
    let path = Path::Top;
    let top = Top::read(limits, Section { alloc, path, table })?;
    let shared = shared_of(alloc, top.params, top.round_ms)?;
    let topics = topics_in(alloc, top.topics)?;
    let peers = peers_in(alloc, top.round_ms, top.peers)?;
    let dials = dials_in(alloc, &peers, top.dials)?;
    let apps = apps_in(alloc, &peers, &dials, top.apps)?;
    let explicit = agreements_in(alloc, &peers, &dials, top.explicit)?;
    let known = Known {
        topics: topics.as_slice(),
        peers: &peers,
        dials: &dials,
        rounds: top.rounds,
    };
    let script = lines_in(alloc, known, top.script)?;
    let peers = peers.into_seq();
    let dials = dials.into_seq();
    let params = params_of(shared, topics)?;
    Ok(Plan {
        round_ms: top.round_ms,
        rounds: top.rounds,
        workers: top.workers,
        capacity: top.capacity,
        seed: top.seed,
        params,
        peers,
        dials,
        apps,
        explicit,
        script,
    })
}
