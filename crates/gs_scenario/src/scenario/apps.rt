//! The scores that the applications of a scenario give their peers' neighbours.
ghost use Rattle.std.specs.Prelude.{◌≡◌, ◌≤◌, [], length, map};
ghost use Rattle.std.specs.List.{list_any};
ghost use Rattle.toml.specs.View.{view, items_view};
ghost use Rattle.gs_scenario.specs.Refusal.{GivesSame};
ghost use Rattle.gs_scenario.specs.Keys.{read_each};
ghost use Rattle.gs_plan.specs.Plans.{are_of_the_same};
ghost use Rattle.gs_scenario.specs.PlanOf.{app_in, app_keys};

use crate::fault::ScenarioFault;
use crate::scenario::field::table_of;
use crate::scenario::indexed::Indexed;
use crate::scenario::keys::Pair;
use crate::scenario::pairs::{ABOUT, PEER, pair_in};
use crate::scenario::peers::{Dials, Peers};
use crate::scenario::place::{Element, Place};
use crate::scenario::tables::TableKind;
use gs_base::Seq;
use gs_plan::{App, HIGHEST_APP_SCORE, MOST_PEERS};
use std::alloc::Global;
use toml::Value;

const VALUE: &str = "value";

/// Returns the keys of a score's table.
pub fn keys() -> &'static [&'static str]
    ensures { map (λ key. key.now) result.now ≡ app_keys }
{
    &[PEER, ABOUT, VALUE]
}

/// Returns the scores of a list, in its order.
#[tactic(auto, unfolding(crate::specs::Keys::read_each))]
pub fn apps_in(
    alloc: Global,
    peers: &Peers,
    dials: &Dials,
    list: &[Value],
) -> Result<Seq<App>, ScenarioFault>
    requires { length peers.now ≤ MOST_PEERS }
    ensures { GivesSame result (read_each (app_in peers.now dials.now) [] (items_view list.now)) }
{
    let mut apps = Indexed::new(alloc);
    for value in list {
        let app = app_in(alloc, peers, dials, &apps, value)?;
        apps = apps.with(alloc, app)?;
    }
    Ok(apps.into_seq())
}

/// Returns the score that stands in the list after the earlier ones.
#[tactic(auto, unfolding(crate::specs::PlanOf::app_in))]
fn app_in(
    alloc: Global,
    peers: &Peers,
    dials: &Dials,
    earlier: &Indexed<Pair, App>,
    value: &Value,
) -> Result<App, ScenarioFault>
    requires { length peers.now ≤ MOST_PEERS }
    ensures { GivesSame result (app_in peers.now dials.now earlier.now (view value.now)) }
{
    let element = Element {
        list: "app",
        index: earlier.len(),
    };
    let section = table_of(alloc, element, value)?;
    section.only(TableKind::App)?;
    let pair = pair_in(peers, dials, &section)?;
    let value = section.signed_number(VALUE, -HIGHEST_APP_SCORE, HIGHEST_APP_SCORE)?;
    let app = App {
        peer: pair.0,
        about: pair.1,
        value,
    };
    if is_repeated(earlier, &app) {
        return Err(ScenarioFault::Repeated(Place::Element(element).to_text(alloc)?));
    }
    Ok(app)
}

/// Says whether an earlier score is of the same peer for the same neighbour.
fn is_repeated(earlier: &Indexed<Pair, App>, app: &App) -> bool
    ensures { result ≡ list_any (are_of_the_same app.now) earlier.now }
{
    earlier.has(&Pair(app.peer, app.about))
}
