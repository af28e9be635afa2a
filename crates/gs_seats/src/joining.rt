//! The peers that dials join to a peer.
ghost use Rattle.std.specs.Prelude.{◌≡◌, ◌||◌, ◌&&◌, ℕ, false, IfOk, OnOk, filter, map, nat_lt, option_map, unwrap_or};
ghost use Rattle.std.specs.BTreeSet.{IsOrdered, contains};
ghost use Rattle.std.specs.Ordering.{nat_cmp};
ghost use Rattle.gs_base.specs.Names.{same_peer};
ghost use Rattle.gs_base.specs.declared.names.PeerNo.{PeerNo as PeerNoValue};
ghost use Rattle.gs_plan.specs.Plans.{are_joined, joins};
ghost use Rattle.gs_seats.specs.Rounds.{numbers, peer_no};

use gs_base::PeerNo;
use gs_plan::{Dial, Plan};
use std::alloc::{AllocError, Global};
use std::collections::BTreeSet;

/// Returns the numbers of the plan that these dials join to a peer, ascending. It walks over the dials, and not over the
/// plan.
///
/// # Errors
/// `AllocError` when out of memory.
pub fn joined_by(
    alloc: Global,
    plan: &Plan,
    dials: &[Dial],
    peer: PeerNo,
) -> Result<Vec<PeerNo>, AllocError>
    ensures { IfOk result (λ found. found.items ≡ filter (are_joined dials.now peer) (numbers plan.now)) }
{
    let ends = ends_of(alloc, plan.peers.len(), dials, peer)?;
    let list = ascending(alloc, &ends)?;
    Ok(list)
}

/// Returns the numbers below a count that these dials join to a peer.
fn ends_of(
    alloc: Global,
    count: usize,
    dials: &[Dial],
    peer: PeerNo,
) -> Result<BTreeSet<u16>, AllocError>
    ensures { IfOk result (λ ends. (n : ℕ)
        → contains nat_cmp ends n ≡ (nat_lt n count && are_joined dials.now peer (peer_no n))) }
{
    let mut ends = BTreeSet::new(alloc);
    for dial in dials {
        put_end(&mut ends, count, peer, dial)?;
    }
    Ok(ends)
}

/// Puts the number of the peer that a dial joins to this one into a set, if there is one below the count.
fn put_end(
    ends: &mut BTreeSet<u16>,
    count: usize,
    peer: PeerNo,
    dial: &Dial,
) -> Result<(), AllocError>
    ensures { OnOk result ((n : ℕ)
        → contains nat_cmp ends.new n
        ≡ (contains nat_cmp ends.old n || (nat_lt n count && joins peer (peer_no n) dial.now))) }
{
    match other_end(peer, dial) {
        Some(other) => {
            if usize::from(other.0) >= count {
                return Ok(());
            }
            ends.insert(other.0)?;
            Ok(())
        }
        None => Ok(()),
    }
}

/// Returns the peer that a dial joins to this one, if there is one.
fn other_end(peer: PeerNo, dial: &Dial) -> Option<PeerNo>
    ensures { (q : PeerNoValue)
        → joins peer q dial.now ≡ unwrap_or (option_map (λ (other : PeerNoValue). same_peer other q) result) false }
{
    if dial.from == peer {
        return Some(dial.to);
    }
    if dial.to == peer {
        return Some(dial.from);
    }
    None
}

/// Returns the peers with the numbers of a set, in its order.
fn ascending(alloc: Global, ends: &BTreeSet<u16>) -> Result<Vec<PeerNo>, AllocError>
    ensures numbers { IfOk result (λ list. list.items ≡ map peer_no ends.now.keys) }
    ensures ordered { IfOk result (λ list. IsOrdered nat_cmp ends.now) }
{
    let mut list = Vec::new(alloc);
    for number in ends {
        list.push(PeerNo(*number))?;
    }
    Ok(list)
}
