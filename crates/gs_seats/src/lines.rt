//! The lines of a script, by the peers that follow them.
ghost use Rattle.std.specs.Prelude.{◌≡◌, ◌<◌, IfOk, length};
ghost use Rattle.gs_base.specs.declared.names.PeerNo.{PeerNo as PeerNoValue};
ghost use Rattle.gs_plan.specs.Plans.{IsInRange};
ghost use Rattle.gs_seats.specs.ListsByPeer.{list_at};
ghost use Rattle.gs_seats.specs.Rounds.{lines_in};

use crate::lists_by_peer::{empty_lists, put_last};
use gs_base::clone_of;
use gs_plan::{Line, Plan};
use std::alloc::{AllocError, Global};

/// Returns the lines of a plan by the number of the peer that follows them. Each has its index in the script, and each list
/// is in file order.
///
/// # Errors
/// `AllocError` when out of memory.
pub fn lines_by_peer(alloc: Global, plan: &Plan) -> Result<Vec<Vec<(usize, Line)>>, AllocError>
    requires { IsInRange plan.now }
    ensures count { IfOk result (λ lists. length lists.items ≡ length plan.now.peers) }
    ensures own { IfOk result (λ lists. (p : PeerNoValue)
        → p.0 < length plan.now.peers
        → list_at lists.items p.0 ≡ lines_in plan.now p) }
{
    let mut lists = empty_lists(alloc, plan.peers.len())?;
    for (place, line) in plan.script.as_slice().iter().enumerate() {
        let own = (place, clone_of(line)?);
        put_last(&mut lists, line.peer, own)?;
    }
    Ok(lists)
}
