//! The dials of a scenario.
ghost use Rattle.std.specs.Prelude.{◌≡◌, ◌≤◌, [], length, map};
ghost use Rattle.toml.specs.View.{view, items_view};
ghost use Rattle.gs_scenario.specs.Refusal.{GivesSame};
ghost use Rattle.gs_scenario.specs.Keys.{read_each};
ghost use Rattle.gs_scenario.specs.PlanOf.{dial_in, dial_keys};

use crate::fault::ScenarioFault;
use crate::reason::Wanted;
use crate::scenario::field::table_of;
use crate::scenario::indexed::Indexed;
use crate::scenario::peers::{Dials, Peers, are_joined, peer_of};
use crate::scenario::place::{Element, Place};
use crate::scenario::tables::TableKind;
use gs_plan::{Dial, MOST_PEERS};
use std::alloc::Global;
use toml::Value;

const FROM: &str = "from";

const TO: &str = "to";

/// Returns the keys of a dial's table.
pub fn keys() -> &'static [&'static str]
    ensures { map (λ key. key.now) result.now ≡ dial_keys }
{
    &[FROM, TO]
}

/// Returns the dials of a list, in its order.
#[tactic(auto, unfolding(crate::specs::Keys::read_each))]
pub fn dials_in(alloc: Global, peers: &Peers, list: &[Value]) -> Result<Dials, ScenarioFault>
    requires { length peers.now ≤ MOST_PEERS }
    ensures { GivesSame result (read_each (dial_in peers.now) [] (items_view list.now)) }
{
    let mut dials = Indexed::new(alloc);
    for value in list {
        let dial = dial_in(alloc, peers, &dials, value)?;
        dials = dials.with(alloc, dial)?;
    }
    Ok(dials)
}

/// Returns the dial that stands in the list after the earlier ones.
#[tactic(auto, unfolding(crate::specs::PlanOf::dial_in))]
fn dial_in(
    alloc: Global,
    peers: &Peers,
    earlier: &Dials,
    value: &Value,
) -> Result<Dial, ScenarioFault>
    requires { length peers.now ≤ MOST_PEERS }
    ensures { GivesSame result (dial_in peers.now earlier.now (view value.now)) }
{
    let element = Element {
        list: "dial",
        index: earlier.len(),
    };
    let section = table_of(alloc, element, value)?;
    section.only(TableKind::Dial)?;
    let from = peer_of(peers, &section.required(FROM)?)?;
    let field = section.required(TO)?;
    let to = peer_of(peers, &field)?;
    if from == to {
        return Err(field.out_of_range(Wanted::AnotherPeer)?);
    }
    let dial = Dial { from, to };
    if are_joined(earlier, from, to) {
        return Err(ScenarioFault::Repeated(Place::Element(element).to_text(alloc)?));
    }
    Ok(dial)
}
