//! Who is kept when a mesh has too many members (gossipsub v1.1, "Heartbeat Maintenance" and "Outbound Mesh Quotas").
ghost use Rattle.std.specs.Prelude.{◌≡◌, ◌++◌, IfOk, OnOk, filter, length};
ghost use Rattle.std.specs.Set.{is_member};
ghost use Rattle.gs_base.specs.Names.{same_peer};
ghost use Rattle.gs_params.specs.Picks.{IsAscending, picked, picked_words};
ghost use Rattle.gs_mesh.specs.Cuts.{EachIsACut, IsDetermined, best_by_score, better_ones, cut, cut_words, first_kept, first_words, is_better, others_picked, others_picked_words, outbound_lacking, outbound_of, peers_of};

use crate::condition::outbound_count;
use crate::members::{Member, among, outbound_of, outside, peers_of};
use gs_base::PeerNo;
use gs_params::{Degrees, Words, pick};
use std::alloc::{AllocError, Global};

/// Picks `count` of these by the next words.
///
/// # Errors
/// `AllocError` if memory runs out. No word was drawn then.
pub(crate) fn pick_of<W: Words>(
    alloc: Global,
    candidates: &[Member],
    count: u64,
    words: &mut W,
) -> Result<Vec<PeerNo>, AllocError>
    requires { IsAscending (peers_of candidates.now) }
    ensures picked { IfOk result (λ peers. peers.items
        ≡ picked W.word W.after count (peers_of candidates.now) words.old) }
    ensures words { OnOk result (words.new
        ≡ picked_words W.word W.after count (peers_of candidates.now) words.old) }
{
    let peers = peers_of(alloc, candidates)?;
    let chosen = pick(alloc, &peers, count as usize, words)?;
    Ok(chosen)
}

/// Says whether a member scores higher than another, or scores the same and has the lower number.
fn is_better(member: &Member, other: &Member) -> bool
    ensures { result ≡ is_better member.now other.now }
{
    other.score < member.score || (member.score == other.score && member.peer.0 < other.peer.0)
}

fn better_ones(members: &[Member], member: &Member) -> u64
    ensures { result ≡ better_ones members.now member.now }
{
    members
        .iter()
        .filter(|other| is_better(other, member))
        .count() as u64
}

/// The `count` best members by score. Of equal scores the lower number is better.
fn best_by_score(alloc: Global, count: u64, members: &[Member]) -> Result<Vec<PeerNo>, AllocError>
    ensures { IfOk result (λ best. best.items ≡ best_by_score count members.now) }
{
    let best: Vec<Member> = members
        .iter()
        .copied()
        .filter(|member| better_ones(members, member) < count)
        .collect(alloc)?;
    let peers = peers_of(alloc, &best)?;
    Ok(peers)
}

/// Returns how many outbound members are missing among these, compared with the number that the mesh should have.
fn outbound_lacking(
    alloc: Global,
    degrees: &Degrees,
    members: &[Member],
    these: &[PeerNo],
) -> Result<u64, AllocError>
    ensures { IfOk result (λ count. count ≡ outbound_lacking degrees.now members.now these.now) }
{
    let outbound = outbound_of(alloc, members)?;
    let there = among(alloc, these, &outbound)?;
    let wanted = degrees.d_out.min(outbound.len() as u64);
    Ok(wanted.saturating_sub(there.len() as u64))
}

/// Returns the best ones. If outbound ones are missing among them, the words pick some, and these are added.
fn first_kept<W: Words>(
    alloc: Global,
    degrees: &Degrees,
    members: &[Member],
    words: &mut W,
) -> Result<Vec<PeerNo>, AllocError>
    requires { IsAscending (peers_of members.now) }
    ensures kept { IfOk result (λ kept. kept.items ≡ first_kept W.word W.after degrees.now members.now words.old) }
    ensures words { OnOk result (words.new ≡ first_words W.word W.after degrees.now members.now words.old) }
{
    let mut first = best_by_score(alloc, degrees.d_score, members)?;
    let lacking = outbound_lacking(alloc, degrees, members, &first)?;
    let outbound = outbound_of(alloc, members)?;
    let candidates = outside(alloc, &first, &outbound)?;
    let mut picked = pick_of(alloc, &candidates, lacking, words)?;
    first.append(&mut picked)?;
    Ok(first)
}

/// Returns the other members that are kept after the first ones. The words pick them.
fn others_kept<W: Words>(
    alloc: Global,
    degrees: &Degrees,
    members: &[Member],
    first: &[PeerNo],
    words: &mut W,
) -> Result<Vec<PeerNo>, AllocError>
    requires { IsAscending (peers_of members.now) }
    ensures kept { IfOk result (λ kept. kept.items
        ≡ others_picked W.word W.after degrees.now members.now first.now words.old) }
    ensures words { OnOk result (words.new
        ≡ others_picked_words W.word W.after degrees.now members.now first.now words.old) }
{
    let candidates = outside(alloc, first, members)?;
    let left = degrees.d.saturating_sub(first.len() as u64);
    let picked = pick_of(alloc, &candidates, left, words)?;
    Ok(picked)
}

/// Returns who is kept when a mesh has too many members: the best by score, outbound ones, and others. The words pick the
/// last two kinds.
///
/// # Errors
/// `AllocError` if memory runs out. Words may have been drawn then.
pub(crate) fn cut<W: Words>(
    alloc: Global,
    degrees: &Degrees,
    members: &[Member],
    words: &mut W,
) -> Result<Vec<PeerNo>, AllocError>
    requires { IsAscending (peers_of members.now) }
    ensures kept { IfOk result (λ kept. kept.items ≡ cut W.word W.after degrees.now members.now words.old) }
    ensures words { OnOk result (words.new ≡ cut_words W.word W.after degrees.now members.now words.old) }
{
    let mut kept = first_kept(alloc, degrees, members, words)?;
    let mut others = others_kept(alloc, degrees, members, &kept, words)?;
    kept.append(&mut others)?;
    let remaining = among(alloc, &kept, members)?;
    let peers = peers_of(alloc, &remaining)?;
    Ok(peers)
}

/// A cut by random words is a cut that the rules allow. The members and the words determine it.
pub fn a_cut_by_words_is_a_cut<W: Words>()
    ensures cut { EachIsACut W.word W.after }
    ensures determined { IsDetermined W.word W.after }
{}
