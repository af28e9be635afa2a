//! The edges of a topic at the end. An edge shows that a peer has another in its mesh of the topic.
ghost use Rattle.std.specs.Prelude.{◌≡◌, ◌++◌, IfOk, OnOk};
ghost use Rattle.std.specs.List.{flat_map, list_any};
ghost use Rattle.gs_picture.specs.Edges.{any_has_in_mesh, edge_between, edge_to, edges, has_in_mesh, is_member};

use gs_base::{PeerNo, Topic};
use gs_report::Finished;
use std::alloc::{AllocError, Global};

/// A peer has another in its mesh.
#[derive(Clone, Copy, Debug, PartialEq, Eq)]
pub(crate) struct Edge {
    pub from: PeerNo,
    pub to: PeerNo,
    /// The other has it, too.
    pub both: bool,
}

/// All edges of a topic, peer by peer.
pub(crate) fn edges(
    alloc: Global,
    peers: &[(PeerNo, Finished)],
    topic: &Topic,
) -> Result<Vec<Edge>, AllocError>
    ensures { IfOk result (λ found. found.items ≡ edges peers.now topic.now) }
{
    let mut found = Vec::new(alloc);
    for peer in peers {
        list_edges(&mut found, peers, topic, peer.0, peer.1.meshes.as_slice())?;
    }
    Ok(found)
}

fn list_edges(
    found: &mut Vec<Edge>,
    peers: &[(PeerNo, Finished)],
    topic: &Topic,
    from: PeerNo,
    members: &[(Topic, PeerNo)],
) -> Result<(), AllocError>
    ensures { OnOk result (found.new.items ≡ found.old.items ++ flat_map (edge_to peers.now topic.now from) members.now) }
{
    for member in members {
        list_edge(found, peers, topic, from, member)?;
    }
    Ok(())
}

fn list_edge(
    found: &mut Vec<Edge>,
    peers: &[(PeerNo, Finished)],
    topic: &Topic,
    from: PeerNo,
    member: &(Topic, PeerNo),
) -> Result<(), AllocError>
    ensures { OnOk result (found.new.items ≡ found.old.items ++ edge_to peers.now topic.now from member.now) }
{
    if member.0 != *topic {
        return Ok(());
    }
    let both = any_has_in_mesh(peers, topic, member.1, from);
    list_edge_between(found, both, from, member.1)
}

fn list_edge_between(
    found: &mut Vec<Edge>,
    both: bool,
    from: PeerNo,
    to: PeerNo,
) -> Result<(), AllocError>
    ensures { OnOk result (found.new.items ≡ found.old.items ++ edge_between both from to) }
{
    if both && from.0 >= to.0 {
        return Ok(());
    }
    found.push(Edge { from, to, both })?;
    Ok(())
}

/// Whether a peer has another in its mesh of a topic.
fn any_has_in_mesh(peers: &[(PeerNo, Finished)], topic: &Topic, peer: PeerNo, other: PeerNo) -> bool
    ensures { result ≡ any_has_in_mesh peers.now topic.now peer other }
{
    peers.iter().any(|one| has_in_mesh(topic, peer, other, one))
}

fn has_in_mesh(topic: &Topic, peer: PeerNo, other: PeerNo, one: &(PeerNo, Finished)) -> bool
    ensures { result ≡ has_in_mesh topic.now peer other one.now }
{
    one.0 == peer && has_member(topic, other, one.1.meshes.as_slice())
}

fn has_member(topic: &Topic, other: PeerNo, members: &[(Topic, PeerNo)]) -> bool
    ensures { result ≡ list_any (is_member topic.now other) members.now }
{
    members
        .iter()
        .any(|member| member.0 == *topic && member.1 == other)
}
