ghost use Rattle.std.specs.Prelude.{◌≡◌, IfOk, filter};
ghost use Rattle.gs_seats.specs.Own.{is_agreement_of, is_dial_of, is_score_of};
ghost use Rattle.gs_seats.specs.Rounds.{address_of, neighbours_in};

use crate::joining::joined_by;
use crate::known::Known;
use crate::own::{Own, own_of};
use bytes::Bytes;
use gs_base::{Neighbour, PeerNo};
use gs_plan::Plan;
use std::alloc::{AllocError, Global};

/// Returns the neighbours of a peer, ascending: those that it dials, and those that dial it. It walks over all dials, scores
/// and agreements of the plan.
///
/// # Errors
/// `AllocError` when out of memory.
pub fn neighbours_of(alloc: Global, plan: &Plan, peer: PeerNo) -> Result<Vec<Neighbour>, AllocError>
    ensures { IfOk result (λ found. found.items ≡ neighbours_in plan.now peer) }
{
    let dials = own_of(alloc, plan.dials.as_slice(), peer)?;
    let apps = own_of(alloc, plan.apps.as_slice(), peer)?;
    let explicit = own_of(alloc, plan.explicit.as_slice(), peer)?;
    let own = Own {
        dials: dials.as_slice(),
        apps: apps.as_slice(),
        explicit: explicit.as_slice(),
    };
    let found = neighbours_by(alloc, plan, own, peer)?;
    Ok(found)
}

/// Returns the neighbours of a peer, ascending, by what in the plan concerns the peer.
///
/// # Errors
/// `AllocError` when out of memory.
pub(crate) fn neighbours_by(
    alloc: Global,
    plan: &Plan,
    own: Own<'_>,
    peer: PeerNo,
) -> Result<Vec<Neighbour>, AllocError>
    requires dials { own.dials.now ≡ filter (is_dial_of peer) plan.now.dials }
    requires apps { own.apps.now ≡ filter (is_score_of peer) plan.now.apps }
    requires explicit { own.explicit.now ≡ filter (is_agreement_of peer) plan.now.explicit }
    ensures { IfOk result (λ found. found.items ≡ neighbours_in plan.now peer) }
{
    let joined = joined_by(alloc, plan, own.dials, peer)?;
    let known = Known::of(alloc, own, peer)?;
    let mut found = Vec::new(alloc);
    for other in joined.as_slice() {
        found.push(known.neighbour(*other, address_of(alloc, plan, *other)?))?;
    }
    Ok(found)
}

fn address_of(alloc: Global, plan: &Plan, peer: PeerNo) -> Result<Bytes, AllocError>
    ensures { IfOk result (λ address. address ≡ address_of plan.now peer) }
{
    match plan.peers.as_slice().get(usize::from(peer.0)) {
        Some(planned) => {
            let address = Bytes::copy_from_slice(alloc, planned.address.as_str().as_bytes())?;
            Ok(address)
        }
        None => Ok(Bytes::new()),
    }
}
