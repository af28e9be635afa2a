//! What in a plan concerns each peer, found for all peers at once.
ghost use Rattle.std.specs.Prelude.{◌≡◌, ◌<◌, IfOk, length};
ghost use Rattle.gs_seats.specs.Own.{AreNeighbourhoods};
ghost use Rattle.gs_seats.specs.Rounds.{neighbours_in};

use crate::lists_by_peer::list_of;
use crate::neighbours::{neighbours_by, neighbours_of};
use crate::own::{Own, own_by_peer};
use gs_base::{Neighbour, PeerNo};
use gs_plan::{App, Dial, Explicit, Plan};
use std::alloc::{AllocError, Global};

/// What in a plan concerns each peer, by number: its dials, the scores that its application gives, and its agreements.
#[derive(Drop)]
pub struct Neighbourhoods {
    dials: Vec<Vec<Dial>>,
    apps: Vec<Vec<App>>,
    explicit: Vec<Vec<Explicit>>,
}

impl Neighbourhoods {
    /// Sorts a plan's dials, scores and agreements by peer. It walks over each of them once.
    ///
    /// # Errors
    /// `AllocError` when out of memory.
    pub fn of(alloc: Global, plan: &Plan) -> Result<Neighbourhoods, AllocError>
        ensures { IfOk result (λ all. AreNeighbourhoods plan.now all) }
    {
        let count = plan.peers.len();
        let dials = own_by_peer(alloc, plan.dials.as_slice(), count)?;
        let apps = own_by_peer(alloc, plan.apps.as_slice(), count)?;
        let explicit = own_by_peer(alloc, plan.explicit.as_slice(), count)?;
        Ok(Neighbourhoods {
            dials,
            apps,
            explicit,
        })
    }

    /// Returns the neighbours of a peer of that plan, ascending: those that it dials, and those that dial it. It walks only
    /// over what concerns the peer. If the number is no peer's, it walks over the whole plan.
    ///
    /// # Errors
    /// `AllocError` when out of memory.
    pub fn neighbours(
        &self,
        alloc: Global,
        plan: &Plan,
        peer: PeerNo,
    ) -> Result<Vec<Neighbour>, AllocError>
        requires { AreNeighbourhoods plan.now self.now }
        ensures { IfOk result (λ found. found.items ≡ neighbours_in plan.now peer) }
    {
        if usize::from(peer.0) >= plan.peers.len() {
            let found = neighbours_of(alloc, plan, peer)?;
            return Ok(found);
        }
        let own = Own {
            dials: list_of(self.dials.as_slice(), peer),
            apps: list_of(self.apps.as_slice(), peer),
            explicit: list_of(self.explicit.as_slice(), peer),
        };
        let found = neighbours_by(alloc, plan, own, peer)?;
        Ok(found)
    }
}
