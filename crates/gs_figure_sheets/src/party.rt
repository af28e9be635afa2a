//! The groups of a run.
ghost use Rattle.std.specs.Prelude.{◌≡◌, ◌++◌, ◌∷◌, [], filter, IfOk, map};
ghost use Rattle.gs_reach.specs.Chosen.{is_chosen};
ghost use Rattle.gs_figure_sheets.specs.Parties.{groups_of, group_wish, parties_of, party_of};

use crate::choice::{Choice, chosen_among, peers_named};
use crate::wanted::Group;
use gs_base::{PeerNo, Seq};
use gs_plan::Plan;
use gs_reach::Chosen;
use gs_sheets::bytes_of;
use std::alloc::{AllocError, Global};

/// A group of a run.
#[derive(Debug, Drop)]
pub struct Party {
    pub name: Seq<u8>,
    /// The peers of the group.
    pub peers: Chosen,
    /// The peers of the group whose traces count.
    pub told: Chosen,
}

/// Returns groups of these peers, where only the traces of some peers count.
///
/// # Errors
/// `AllocError` when out of memory.
pub(crate) fn parties_of(
    alloc: Global,
    plan: &Plan,
    peers: &[PeerNo],
    among: &Chosen,
    groups: &[Group<'_>],
) -> Result<Seq<Party>, AllocError>
    ensures { IfOk result (λ parties. parties ≡ parties_of plan.now peers.now among.now (map group_wish groups.now)) }
{
    let mut parties = Seq::new(alloc);
    for group in groups {
        parties.push(party_of(alloc, plan, peers, among, group)?)?;
    }
    Ok(parties)
}

fn party_of(
    alloc: Global,
    plan: &Plan,
    peers: &[PeerNo],
    among: &Chosen,
    group: &Group<'_>,
) -> Result<Party, AllocError>
    ensures { IfOk result (λ party. party ≡ party_of plan.now peers.now among.now (group_wish group.now)) }
{
    let name = bytes_of(alloc, group.name.as_bytes())?;
    let members = peers_named(alloc, plan, peers, group.peers)?;
    let told = told_of(alloc, among, members.as_slice())?;
    Ok(Party {
        name,
        peers: Chosen::Only(members),
        told: Chosen::Only(told),
    })
}

/// Returns those of these peers whose traces count.
fn told_of(alloc: Global, among: &Chosen, peers: &[PeerNo]) -> Result<Seq<PeerNo>, AllocError>
    ensures { IfOk result (λ list. list ≡ filter (is_chosen among.now) peers.now) }
{
    let mut list = Seq::new(alloc);
    for peer in peers {
        if among.contains(*peer) {
            list.push(*peer)?;
        }
    }
    Ok(list)
}

/// Returns which of these peers are in each group.
///
/// # Errors
/// `AllocError` when out of memory.
pub(crate) fn groups_of(
    alloc: Global,
    plan: &Plan,
    peers: &[PeerNo],
    groups: &[Group<'_>],
) -> Result<Seq<Chosen>, AllocError>
    ensures { IfOk result (λ list. list ≡ groups_of plan.now peers.now (map group_wish groups.now)) }
{
    let mut list = Seq::new(alloc);
    for group in groups {
        list.push(chosen_among(alloc, plan, peers, Choice::Named(group.peers))?)?;
    }
    Ok(list)
}
