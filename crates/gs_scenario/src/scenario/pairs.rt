//! The peer that a table names, and a neighbour of it.
ghost use Rattle.std.specs.Prelude.{◌≤◌, length};
ghost use Rattle.gs_scenario.specs.Refusal.{GivesSame};
ghost use Rattle.gs_scenario.specs.PlanOf.{pair_in};
ghost use Rattle.gs_scenario.specs.Views.{section_of};

use crate::fault::ScenarioFault;
use crate::scenario::peers::{Dials, Peers, neighbour_of, peer_of};
use crate::scenario::section::Section;
use gs_base::PeerNo;
use gs_plan::MOST_PEERS;

/// The key of the peer.
pub const PEER: &str = "peer";

/// The key of its neighbour.
pub const ABOUT: &str = "about";

/// Returns the peer that a table names, and its neighbour.
#[tactic(auto, unfolding(crate::specs::PlanOf::pair_in))]
pub fn pair_in(
    peers: &Peers,
    dials: &Dials,
    section: &Section<'_>,
) -> Result<(PeerNo, PeerNo), ScenarioFault>
    requires { length peers.now ≤ MOST_PEERS }
    ensures { GivesSame result (pair_in peers.now dials.now (section_of section.now)) }
{
    let peer = peer_of(peers, &section.required(PEER)?)?;
    let about = neighbour_of(peers, dials, peer, &section.required(ABOUT)?)?;
    Ok((peer, about))
}
