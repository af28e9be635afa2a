//! The router of a peer before it has done anything, and the random words for its choices.
ghost use Rattle.std.specs.Prelude.{◌≡◌, IfOk};
ghost use Rattle.gs_plan.specs.Plans.{IsInRange};
ghost use Rattle.gs_seats.specs.Rounds.{first_words, listed_words, neighbours_in, phase_of};
ghost use Rattle.gs_seats.specs.Routers.{new_router};

use gs_base::{Neighbour, PeerNo, clone_of};
use gs_params::SeededWords;
use gs_plan::Plan;
use gs_router::{Retention, Router};
use std::alloc::{AllocError, Global};

/// Returns the router of a peer with these neighbours, which has done nothing.
///
/// # Errors
/// `AllocError` when out of memory.
pub fn router_of<K: Retention>(
    alloc: Global,
    plan: &Plan,
    number: PeerNo,
    neighbours: Vec<Neighbour>,
) -> Result<Router<K>, AllocError>
    requires range { IsInRange plan.now }
    requires neighbours { neighbours.items ≡ neighbours_in plan.now number }
    ensures { IfOk result (λ router. router ≡ new_router plan.now number) }
{
    let params = clone_of(&plan.params)?;
    let router = Router::new(alloc, params, neighbours)?;
    Ok(router)
}

/// Returns the random words of a peer before it has used any: those that the plan lists, and then those of its seed.
///
/// # Errors
/// `AllocError` when out of memory.
pub fn first_words(alloc: Global, plan: &Plan, number: PeerNo) -> Result<SeededWords, AllocError>
    ensures { IfOk result (λ words. words ≡ first_words plan.now number) }
{
    let list = listed_words(alloc, plan, number)?;
    Ok(SeededWords::new(list, plan.seed, number))
}

/// Returns for how many milliseconds a peer had been up when round 0 began. Of a plan that was read it is at most 10^9.
pub fn phase_of(plan: &Plan, peer: PeerNo) -> u64
    ensures { result ≡ phase_of plan.now peer }
{
    match plan.peers.as_slice().get(usize::from(peer.0)) {
        Some(planned) => planned.phase_ms,
        None => 0,
    }
}

/// Returns the random words that the plan lists for a peer.
fn listed_words(alloc: Global, plan: &Plan, peer: PeerNo) -> Result<Vec<u32>, AllocError>
    ensures { IfOk result (λ list. list.items ≡ listed_words plan.now peer) }
{
    match plan.peers.as_slice().get(usize::from(peer.0)) {
        Some(planned) => {
            let list = planned.words.as_slice().to_vec(alloc)?;
            Ok(list)
        }
        None => Ok(Vec::new(alloc)),
    }
}
