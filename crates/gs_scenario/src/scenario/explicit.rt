//! The peering agreements of a scenario.
ghost use Rattle.std.specs.Prelude.{◌≡◌, ◌≤◌, [], length, map};
ghost use Rattle.std.specs.List.{list_any};
ghost use Rattle.toml.specs.View.{view, items_view};
ghost use Rattle.gs_scenario.specs.Refusal.{GivesSame};
ghost use Rattle.gs_scenario.specs.Keys.{read_each};
ghost use Rattle.gs_plan.specs.Plans.{are_one_pair};
ghost use Rattle.gs_scenario.specs.PlanOf.{agreement_in, explicit_keys};

use crate::fault::ScenarioFault;
use crate::scenario::field::table_of;
use crate::scenario::indexed::Indexed;
use crate::scenario::keys::Pair;
use crate::scenario::pairs::{ABOUT, PEER, pair_in};
use crate::scenario::peers::{Dials, Peers};
use crate::scenario::place::{Element, Place};
use crate::scenario::tables::TableKind;
use gs_base::Seq;
use gs_plan::{Explicit, MOST_PEERS};
use std::alloc::Global;
use toml::Value;

/// Returns the keys of an agreement's table.
pub fn keys() -> &'static [&'static str]
    ensures { map (λ key. key.now) result.now ≡ explicit_keys }
{
    &[PEER, ABOUT]
}

/// Returns the agreements of a list, in its order.
#[tactic(auto, unfolding(crate::specs::Keys::read_each))]
pub fn agreements_in(
    alloc: Global,
    peers: &Peers,
    dials: &Dials,
    list: &[Value],
) -> Result<Seq<Explicit>, ScenarioFault>
    requires { length peers.now ≤ MOST_PEERS }
    ensures { GivesSame result (read_each (agreement_in peers.now dials.now) [] (items_view list.now)) }
{
    let mut agreements = Indexed::new(alloc);
    for value in list {
        let agreement = agreement_in(alloc, peers, dials, &agreements, value)?;
        agreements = agreements.with(alloc, agreement)?;
    }
    Ok(agreements.into_seq())
}

/// Returns the agreement that stands in the list after the earlier ones.
#[tactic(auto, unfolding(crate::specs::PlanOf::agreement_in))]
fn agreement_in(
    alloc: Global,
    peers: &Peers,
    dials: &Dials,
    earlier: &Indexed<Pair, Explicit>,
    value: &Value,
) -> Result<Explicit, ScenarioFault>
    requires { length peers.now ≤ MOST_PEERS }
    ensures { GivesSame result (agreement_in peers.now dials.now earlier.now (view value.now)) }
{
    let element = Element {
        list: "explicit",
        index: earlier.len(),
    };
    let section = table_of(alloc, element, value)?;
    section.only(TableKind::Explicit)?;
    let pair = pair_in(peers, dials, &section)?;
    let agreement = Explicit {
        peer: pair.0,
        about: pair.1,
    };
    if is_repeated(earlier, &agreement) {
        return Err(ScenarioFault::Repeated(Place::Element(element).to_text(alloc)?));
    }
    Ok(agreement)
}

/// Says whether an earlier agreement is of the same peer with the same neighbour.
fn is_repeated(earlier: &Indexed<Pair, Explicit>, agreement: &Explicit) -> bool
    ensures { result ≡ list_any (are_one_pair agreement.now) earlier.now }
{
    earlier.has(&Pair(agreement.peer, agreement.about))
}
