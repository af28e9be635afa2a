//! Lists of peers, in order.
ghost use Rattle.std.specs.Prelude.{◌≡◌, ◌≤◌, ◌-◌, ◌++◌, IfOk, OnOk, length, take, drop};
ghost use Rattle.gs_mesh.specs.Peers.{is_among, put_in};
ghost use Rattle.gs_mesh.specs.Peers.{without as all_but};
ghost use Rattle.gs_rules.specs.MeshRules.{those_among, those_outside};
ghost use Rattle.gs_rules.specs.Rules.{together_with};
ghost use Rattle.gs_router.specs.PeerLists.{IsNotBelow};

use gs_base::PeerNo;
use std::alloc::{AllocError, Global};

fn is_among(peers: &[PeerNo], peer: PeerNo) -> bool
    ensures { result ≡ is_among peers.now peer }
{
    peers.contains(&peer)
}

/// Returns those of these peers that are among others.
pub fn those_among(
    alloc: Global,
    others: &[PeerNo],
    peers: &[PeerNo],
) -> Result<Vec<PeerNo>, AllocError>
    ensures { IfOk result (λ found. found.items ≡ those_among others.now peers.now) }
{
    let mut found = Vec::new(alloc);
    for peer in peers {
        if is_among(others, *peer) {
            found.push(*peer)?;
        }
    }
    Ok(found)
}

/// Returns those of these peers that are not among others.
pub fn those_outside(
    alloc: Global,
    others: &[PeerNo],
    peers: &[PeerNo],
) -> Result<Vec<PeerNo>, AllocError>
    ensures { IfOk result (λ found. found.items ≡ those_outside others.now peers.now) }
{
    let mut found = Vec::new(alloc);
    for peer in peers {
        if !is_among(others, *peer) {
            found.push(*peer)?;
        }
    }
    Ok(found)
}

/// Returns these peers, which ascend by number, together with others. Each peer stands once, in its place.
pub fn together_with(
    alloc: Global,
    others: &[PeerNo],
    peers: &[PeerNo],
) -> Result<Vec<PeerNo>, AllocError>
    ensures { IfOk result (λ found. found.items ≡ together_with others.now peers.now) }
{
    let mut found = Vec::new(alloc);
    found.extend_from_slice(peers)?;
    for other in others {
        put_in(&mut found, *other)?;
    }
    Ok(found)
}

/// Puts a peer in its place among others that ascend by number. A peer that is already there stays, once.
fn put_in(peers: &mut Vec<PeerNo>, peer: PeerNo) -> Result<(), AllocError>
    ensures { OnOk result (peers.new.items ≡ put_in peer peers.old.items) }
{
    let place = place_of(peers.as_slice(), peer);
    if peers.get(place) == Some(&peer) {
        return Ok(());
    }
    peers.insert(place, peer)?;
    Ok(())
}

/// Returns how many of these peers stand before the first one that is not below a given peer.
fn place_of(peers: &[PeerNo], peer: PeerNo) -> usize
    ensures within { result ≤ length peers.now }
    ensures place { put_in peer peers.now ≡ take result peers.now ++ put_in peer (drop result peers.now) }
    ensures first { IsNotBelow peer (drop result peers.now) }
{
    let mut place = 0;
    while place < peers.len() && peers[place].0 < peer.0 {
        place += 1;
    }
    place
}

/// Returns how many of `size` places these peers leave free.
pub fn left_of(size: usize, peers: &[PeerNo]) -> usize
    ensures { result ≡ size - length peers.now }
{
    size.saturating_sub(peers.len())
}

/// Returns all of these peers except one.
pub fn others(alloc: Global, from: PeerNo, members: &[PeerNo]) -> Result<Vec<PeerNo>, AllocError>
    ensures { IfOk result (λ found. found.items ≡ all_but from members.now) }
{
    let mut others = Vec::with_capacity(alloc, members.len())?;
    for member in members {
        if from != *member {
            others.push(*member)?;
        }
    }
    Ok(others)
}
