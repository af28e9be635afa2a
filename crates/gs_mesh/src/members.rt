//! Members of a mesh, and lists of members and of candidates.
ghost use Rattle.std.specs.Prelude.{◌≡◌, IfOk};
ghost use Rattle.gs_mesh.specs.Cuts.{among, outbound_of, outside, peers_of};
ghost use Rattle.gs_mesh.specs.MeshSteps.{not_negative};

use gs_base::PeerNo;
use std::alloc::{AllocError, Global};

/// A member of a mesh, as a heartbeat sees it.
#[derive(Clone, Copy, Debug, PartialEq, Eq)]
pub struct Member {
    /// Its number. Of two members with equal scores, the one with the lower number is better.
    pub peer: PeerNo,
    /// Its score, in millionths.
    pub score: i128,
    /// Whether this side dialled it (gossipsub v1.1, "Outbound Mesh Quotas").
    pub outbound: bool,
}

pub(crate) fn peers_of(alloc: Global, members: &[Member]) -> Result<Vec<PeerNo>, AllocError>
    ensures { IfOk result (λ peers. peers.items ≡ peers_of members.now) }
{
    members.iter().map(|member| member.peer).collect(alloc)
}

pub(crate) fn not_negative(alloc: Global, mesh: &[Member]) -> Result<Vec<Member>, AllocError>
    ensures { IfOk result (λ members. members.items ≡ not_negative mesh.now) }
{
    mesh.iter()
        .copied()
        .filter(|member| member.score >= 0)
        .collect(alloc)
}

pub(crate) fn outbound_of(alloc: Global, members: &[Member]) -> Result<Vec<Member>, AllocError>
    ensures { IfOk result (λ outbound. outbound.items ≡ outbound_of members.now) }
{
    members
        .iter()
        .copied()
        .filter(|member| member.outbound)
        .collect(alloc)
}

pub(crate) fn among(
    alloc: Global,
    peers: &[PeerNo],
    members: &[Member],
) -> Result<Vec<Member>, AllocError>
    ensures { IfOk result (λ found. found.items ≡ among peers.now members.now) }
{
    members
        .iter()
        .copied()
        .filter(|member| peers.contains(&member.peer))
        .collect(alloc)
}

pub(crate) fn outside(
    alloc: Global,
    peers: &[PeerNo],
    members: &[Member],
) -> Result<Vec<Member>, AllocError>
    ensures { IfOk result (λ found. found.items ≡ outside peers.now members.now) }
{
    members
        .iter()
        .copied()
        .filter(|member| !peers.contains(&member.peer))
        .collect(alloc)
}
