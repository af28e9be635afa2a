//! The peers of a scenario.
ghost use Rattle.std.specs.Prelude.{◌≡◌, ◌≤◌, [], IfOk, is_some, length, map};
ghost use Rattle.toml.specs.View.{view, items_view};
ghost use Rattle.gs_scenario.specs.declared.reason.NameKind.TheVariants as names;
ghost use Rattle.gs_scenario.specs.Refusal.{GivesSame};
ghost use Rattle.gs_scenario.specs.Keys.{read_each};
ghost use Rattle.gs_scenario.specs.Kinds.{reference};
ghost use Rattle.gs_scenario.specs.Views.{read_as};
ghost use Rattle.gs_plan.specs.Plans.{are_joined};
ghost use Rattle.gs_scenario.specs.PlanOf.{neighbour, peer_in, peer_keys, peer_named};

use crate::fault::ScenarioFault;
use crate::reason::NameKind;
use crate::scenario::field::{Field, table_of};
use crate::scenario::indexed::Indexed;
use crate::scenario::keys::{Name, Pair};
use crate::scenario::place::Element;
use crate::scenario::tables::TableKind;
use gs_base::{PeerNo, Text};
use gs_plan::{Dial, MOST_PEERS, PlannedPeer};
use std::alloc::{AllocError, Global};
use toml::Value;

/// Peers, to be found by their names.
pub type Peers = Indexed<Name, PlannedPeer>;

/// Dials, to be found by the peers that they join.
pub type Dials = Indexed<Pair, Dial>;

const NAME: &str = "name";

const ADDRESS: &str = "address";

const WORDS: &str = "words";

const PHASE_MS: &str = "phase_ms";

/// Returns the keys of a peer's table.
pub fn keys() -> &'static [&'static str]
    ensures { map (λ key. key.now) result.now ≡ peer_keys }
{
    &[NAME, ADDRESS, WORDS, PHASE_MS]
}

/// Returns the peers of a list, in its order. Each was up for whole rounds of `round_ms` before the first one.
#[tactic(auto, unfolding(crate::specs::Keys::read_each))]
pub fn peers_in(alloc: Global, round_ms: u64, list: &[Value]) -> Result<Peers, ScenarioFault>
    requires { 1 ≤ round_ms }
    ensures read { GivesSame result (read_each (peer_in round_ms) [] (items_view list.now)) }
    ensures count { IfOk result (λ peers. length peers ≡ length list.now) }
{
    let mut peers = Indexed::new(alloc);
    for value in list {
        let peer = peer_in(alloc, round_ms, &peers, value)?;
        peers = peers.with(alloc, peer)?;
    }
    Ok(peers)
}

/// Returns the peer that stands in the list after the earlier ones.
#[tactic(auto, unfolding(crate::specs::PlanOf::peer_in))]
fn peer_in(
    alloc: Global,
    round_ms: u64,
    earlier: &Peers,
    value: &Value,
) -> Result<PlannedPeer, ScenarioFault>
    requires { 1 ≤ round_ms }
    ensures { GivesSame result (peer_in round_ms earlier.now (view value.now)) }
{
    let element = Element {
        list: "peer",
        index: earlier.len(),
    };
    let section = table_of(alloc, element, value)?;
    section.only(TableKind::Peer)?;
    let field = section.required(NAME)?;
    let name = field.name()?;
    if is_named(alloc, earlier, name)? {
        return Err(field.repeated()?);
    }
    let address = section.text(ADDRESS, name)?;
    let words = section.words(WORDS)?;
    let phase_ms = section.phase(PHASE_MS, round_ms)?;
    Ok(PlannedPeer {
        name: Text::from_str(alloc, name)?,
        address: Text::from_str(alloc, address)?,
        words,
        phase_ms,
    })
}

/// Returns the number of the peer that a value names.
pub fn peer_of(peers: &Peers, field: &Field<'_>) -> Result<PeerNo, ScenarioFault>
    requires { length peers.now ≤ MOST_PEERS }
    ensures { GivesSame result (read_as (reference names.Peer (peer_named peers.now)) field.now) }
{
    let name = field.name()?;
    match peer_named(field.alloc, peers, name)? {
        Some(peer) => Ok(peer),
        None => Err(field.unknown(name, NameKind::Peer)?),
    }
}

/// Returns the neighbour of a peer that a value names.
pub fn neighbour_of(
    peers: &Peers,
    dials: &Dials,
    peer: PeerNo,
    field: &Field<'_>,
) -> Result<PeerNo, ScenarioFault>
    requires { length peers.now ≤ MOST_PEERS }
    ensures { GivesSame result (read_as (neighbour peers.now dials.now peer) field.now) }
{
    let name = field.name()?;
    let other = peer_of(peers, field)?;
    if are_joined(dials, peer, other) {
        Ok(other)
    } else {
        Err(field.unknown(name, NameKind::Neighbour)?)
    }
}

/// Says whether a peer has a name.
#[tactic(auto, using(crate::proofs::ByKey::a_name_is_found))]
fn is_named(alloc: Global, peers: &Peers, name: &str) -> Result<bool, AllocError>
    ensures { IfOk result (λ found. found ≡ is_some (peer_named peers.now name.now)) }
{
    let name = Name::of(alloc, name)?;
    Ok(peers.has(&name))
}

/// Says whether a dial joins two peers.
#[tactic(auto, using(crate::proofs::ByKey::a_dial_is_found))]
pub fn are_joined(dials: &Dials, one: PeerNo, other: PeerNo) -> bool
    ensures { result ≡ are_joined dials.now one other }
{
    dials.has(&Pair::joined(one, other))
}

#[tactic(auto, using(crate::proofs::ByKey::a_name_has_its_place))]
fn peer_named(alloc: Global, peers: &Peers, name: &str) -> Result<Option<PeerNo>, AllocError>
    requires { length peers.now ≤ MOST_PEERS }
    ensures { IfOk result (λ found. found ≡ peer_named peers.now name.now) }
{
    let name = Name::of(alloc, name)?;
    match peers.place(&name) {
        Some(place) => Ok(Some(PeerNo(place as u16))),
        None => Ok(None),
    }
}
