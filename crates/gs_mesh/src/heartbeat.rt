ghost use Rattle.std.specs.Prelude.{◌≡◌, ◌≤◌, IfOk, OnOk};
ghost use Rattle.gs_params.specs.Picks.{IsAscending, picked, picked_words};
ghost use Rattle.gs_mesh.specs.Cuts.{peers_of};
ghost use Rattle.gs_mesh.specs.MeshSteps.{EachIsAMeshStep, above_median, is_poor, median_is_below, mended_by_words, mended_members, mesh_change, opportunistic_grafts_by_words, step_by_words};

use crate::condition::{Condition, outbound_count};
use crate::cut::{cut, pick_of};
use crate::members::{Member, among, not_negative, outbound_of, outside, peers_of};
use gs_base::{PeerNo, Seq};
use gs_params::{Degrees, Params, Words};
use std::alloc::{AllocError, Global};

/// A heartbeat: its parameters and its number.
#[derive(Clone, Copy)]
pub struct Heartbeat<'a> {
    pub params: &'a Params,
    pub number: u64,
}

/// Who leaves a mesh at a heartbeat, and who comes into it. Each list ascends by number.
#[derive(Debug, Drop, PartialEq, Eq)]
pub struct MeshChange {
    /// Members that leave it.
    pub pruned: Seq<PeerNo>,
    /// Candidates that come into it.
    pub grafted: Seq<PeerNo>,
}

/// Who is kept in a mesh, judged by its members, and who comes into it.
#[derive(Drop)]
struct Mended {
    kept: Vec<PeerNo>,
    grafted: Vec<PeerNo>,
}

/// Chooses what a heartbeat does to the mesh of a topic (gossipsub v1.0, "Mesh maintenance"; v1.1, "Heartbeat Maintenance",
/// "Outbound Mesh Quotas" and "Opportunistic Grafting"). Members that score below 0 leave. Too few members become more, too
/// many become fewer, and outbound ones come in if too few are there. Then the heartbeat may add candidates that score above
/// the median. It does so if its number is a multiple of `opportunistic_ticks` and the median lies below
/// `opportunistic_threshold`, both in millionths. Members and candidates are listed by number, ascending. A candidate is a
/// neighbour that may be grafted. `opportunistic_ticks` is at least 1, as in parameters that pass their checks. The next
/// words make the choices.
///
/// # Errors
/// `AllocError` if memory runs out. Words may have been drawn then.
pub fn choose_heartbeat<W: Words>(
    alloc: Global,
    heartbeat: Heartbeat<'_>,
    mesh: &[Member],
    candidates: &[Member],
    words: &mut W,
) -> Result<MeshChange, AllocError>
    requires ticks { 1 ≤ heartbeat.params.now.timing.opportunistic_ticks }
    requires members { IsAscending (peers_of mesh.now) }
    requires candidates { IsAscending (peers_of candidates.now) }
    ensures { IfOk result (λ change. step_by_words W.word W.after heartbeat.entry.params.now heartbeat.entry.number
        mesh.now candidates.now words.old
        ≡ (change, words.new)) }
{
    let members = not_negative(alloc, mesh)?;
    let degrees = &heartbeat.params.degrees;
    let mended = mend(alloc, degrees, &members, candidates, words)?;
    let Mended { kept, mut grafted } = mended;
    let made = mended_members(alloc, &members, candidates, &kept, &grafted)?;
    let mut more = heartbeat.opportunistic_grafts(alloc, &made, candidates, &grafted, words)?;
    grafted.append(&mut more)?;
    let change = mesh_change(alloc, mesh, candidates, &kept, &grafted)?;
    Ok(change)
}

/// Returns who leaves and who comes in, from the members that are kept and the candidates that are grafted.
fn mesh_change(
    alloc: Global,
    mesh: &[Member],
    candidates: &[Member],
    kept: &[PeerNo],
    grafted: &[PeerNo],
) -> Result<MeshChange, AllocError>
    ensures { IfOk result (λ change. change ≡ mesh_change mesh.now candidates.now kept.now grafted.now) }
{
    let pruned = outside(alloc, kept, mesh)?;
    let entering = among(alloc, grafted, candidates)?;
    Ok(MeshChange {
        pruned: Seq::from(peers_of(alloc, &pruned)?),
        grafted: Seq::from(peers_of(alloc, &entering)?),
    })
}

/// Returns the members after the change: those that are kept, and the candidates that are grafted.
fn mended_members(
    alloc: Global,
    members: &[Member],
    candidates: &[Member],
    kept: &[PeerNo],
    grafted: &[PeerNo],
) -> Result<Vec<Member>, AllocError>
    ensures { IfOk result (λ made. made.items ≡ mended_members members.now candidates.now kept.now grafted.now) }
{
    let mut made = among(alloc, kept, members)?;
    let mut entering = among(alloc, grafted, candidates)?;
    made.append(&mut entering)?;
    Ok(made)
}

// ---- the number of members

/// Returns who is kept in a mesh and who comes into it, as the state of the mesh requires.
fn mend<W: Words>(
    alloc: Global,
    degrees: &Degrees,
    members: &[Member],
    candidates: &[Member],
    words: &mut W,
) -> Result<Mended, AllocError>
    requires members { IsAscending (peers_of members.now) }
    requires candidates { IsAscending (peers_of candidates.now) }
    ensures { IfOk result (λ made. mended_by_words W.word W.after degrees.now members.now candidates.now words.old
        ≡ (made.kept.items, made.grafted.items, words.new)) }
{
    match Condition::of(degrees, members) {
        Condition::Few => {
            let count = degrees.d.saturating_sub(members.len() as u64);
            let made = filled(alloc, members, candidates, count, words)?;
            Ok(made)
        }
        Condition::Many => {
            let kept = cut(alloc, degrees, members, words)?;
            let grafted = Vec::new(alloc);
            Ok(Mended { kept, grafted })
        }
        Condition::FewOutbound => {
            let outbound = outbound_of(alloc, candidates)?;
            let count = degrees.d_out.saturating_sub(outbound_count(members));
            let made = filled(alloc, members, &outbound, count, words)?;
            Ok(made)
        }
        Condition::Balanced => {
            let kept = peers_of(alloc, members)?;
            let grafted = Vec::new(alloc);
            Ok(Mended { kept, grafted })
        }
    }
}

/// All members stay, and `count` candidates come in. The words pick them.
fn filled<W: Words>(
    alloc: Global,
    members: &[Member],
    candidates: &[Member],
    count: u64,
    words: &mut W,
) -> Result<Mended, AllocError>
    requires { IsAscending (peers_of candidates.now) }
    ensures kept { IfOk result (λ made. made.kept.items ≡ peers_of members.now) }
    ensures grafted { IfOk result (λ made. made.grafted.items
        ≡ picked W.word W.after count (peers_of candidates.now) words.old) }
    ensures words { OnOk result (words.new
        ≡ picked_words W.word W.after count (peers_of candidates.now) words.old) }
{
    let kept = peers_of(alloc, members)?;
    let grafted = pick_of(alloc, candidates, count, words)?;
    Ok(Mended { kept, grafted })
}

// ---- the median (gossipsub v1.1, "Opportunistic Grafting")

/// Says whether the median score of the members lies below a score. It does if the members below the score are more than
/// half of all, rounded down. Without members it does not. Nothing else about the median is needed, so nothing is sorted.
/// The score is passed by reference: a proof knows only the bits of a copied number.
fn median_is_below(members: &[Member], score: &i128) -> bool
    ensures { result ≡ median_is_below members.now score.now }
{
    let below = members
        .iter()
        .filter(|member| member.score < *score)
        .count();
    members.len() / 2 < below
}

/// Says whether a mesh with these members should get better ones at a heartbeat with this number.
fn is_poor(params: &Params, number: u64, members: &[Member]) -> bool
    requires { 1 ≤ params.now.timing.opportunistic_ticks }
    ensures { result ≡ is_poor params.now number members.now }
{
    let threshold = i128::from(params.thresholds.opportunistic_threshold);
    number % params.timing.opportunistic_ticks == 0 && median_is_below(members, &threshold)
}

fn above_median(
    alloc: Global,
    members: &[Member],
    candidates: &[Member],
) -> Result<Vec<Member>, AllocError>
    ensures { IfOk result (λ better. better.items ≡ above_median members.now candidates.now) }
{
    candidates
        .iter()
        .copied()
        .filter(|candidate| median_is_below(members, &candidate.score))
        .collect(alloc)
}

impl Heartbeat<'_> {
    /// Returns who else comes into a poor mesh, after those that came in already. If the mesh is not poor, nobody does.
    fn opportunistic_grafts<W: Words>(
        self,
        alloc: Global,
        members: &[Member],
        candidates: &[Member],
        grafted: &[PeerNo],
        words: &mut W,
    ) -> Result<Vec<PeerNo>, AllocError>
        requires ticks { 1 ≤ self.params.now.timing.opportunistic_ticks }
        requires candidates { IsAscending (peers_of candidates.now) }
        ensures { IfOk result (λ more. opportunistic_grafts_by_words W.word W.after
            self.entry.params.now self.entry.number members.now candidates.now grafted.now words.old
            ≡ (more.items, words.new)) }
    {
        if !is_poor(self.params, self.number, members) {
            return Ok(Vec::new(alloc));
        }
        let others = outside(alloc, grafted, candidates)?;
        let better = above_median(alloc, members, &others)?;
        let most = self.params.timing.opportunistic_peers;
        let more = pick_of(alloc, &better, most, words)?;
        Ok(more)
    }
}

// ---- what choices keep

/// For any words, a heartbeat chooses what the rules allow: as many peers as they say, among those that they name. Members
/// and candidates ascend by number. `d` has room for `d_score` and `d_out`, as in parameters that pass their checks.
pub fn a_choice_by_words_is_a_mesh_step<W: Words>()
    ensures { EachIsAMeshStep W.word W.after }
{}
