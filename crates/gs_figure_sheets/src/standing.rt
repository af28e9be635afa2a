//! How peers stand when a run has ended.
ghost use Rattle.std.specs.Prelude.{◌≡◌, ◌<◌, IfOk, List, None, length, map, pos, slice_get, unwrap_or};
ghost use Rattle.gs_base.specs.declared.names.PeerNo.{PeerNo as PeerNoValue};
ghost use Rattle.gs_counts.specs.Counting.{HasCounted};
ghost use Rattle.gs_counts.specs.Meshes.{members_in, span_of};
ghost use Rattle.gs_plan.specs.declared.plan.Plan.{Plan as PlanValue};
ghost use Rattle.gs_reach.specs.declared.chosen.Chosen.{Chosen as ChosenValue};
ghost use Rattle.gs_report.specs.Seen.{AreLives, remains_of};
ghost use Rattle.gs_report.specs.declared.finished.Finished.{Finished as FinishedValue};
ghost use Rattle.gs_rules.specs.Tables.{Entries};
ghost use Rattle.gs_figure_sheets.specs.Standings.{meshes_if, standing_of};

use crate::span::widened;
use gs_base::{PeerNo, Seq, Topic};
use gs_counts::{Counting, Span};
use gs_reach::Chosen;
use gs_report::Remains;
use std::alloc::{AllocError, Global};

/// How a peer stands when a run has ended.
#[derive(Debug, Drop, PartialEq, Eq)]
pub struct Standing {
    pub peer: PeerNo,
    /// The sizes of its smallest and largest mesh, among the topics that it is subscribed to. None if there is none, or if
    /// its trace does not count.
    pub meshes: Option<Span>,
    /// What the run leaves of it besides its trace.
    pub remains: Remains,
}

/// Returns the sizes of the smallest and the largest mesh of each peer whose trace counts. What was counted is of these
/// traces.
///
/// # Errors
/// `AllocError` when out of memory.
pub(crate) fn meshes_of(
    alloc: Global,
    counting: &Counting,
    among: &Chosen,
    remains: &[(PeerNo, Remains)],
) -> Result<Vec<Option<Span>>, AllocError>
    ensures { IfOk result (λ meshes. (plan : PlanValue) (traces : PeerNoValue → Entries)
        (lives : List (PeerNoValue × FinishedValue))
        → HasCounted plan among.now counting.now traces
        → AreLives (length plan.peers) traces lives
        → map (λ x. (x.0, remains_of x.1)) lives ≡ remains.now
        → meshes.items ≡ map (meshes_if among.now) lives) }
{
    let mut meshes = Vec::with_capacity(alloc, remains.len())?;
    for one in remains {
        meshes.push(end_meshes(counting, among, one))?;
    }
    Ok(meshes)
}

/// Returns the sizes of the smallest and the largest mesh of a peer, if its trace counts.
fn end_meshes(counting: &Counting, among: &Chosen, one: &(PeerNo, Remains)) -> Option<Span>
    ensures { (plan : PlanValue) (traces : PeerNoValue → Entries) (life : FinishedValue)
        → HasCounted plan among.now counting.now traces
        → one.now.0.0 < length plan.peers
        → life.trace ≡ traces one.now.0
        → remains_of life ≡ one.now.1
        → result ≡ meshes_if among.now (one.now.0, life) }
{
    if !among.contains(one.0) {
        return None;
    }
    span_of_meshes(counting.topics(one.0), one.1.meshes.as_slice())
}

fn span_of_meshes(topics: &[Topic], members: &[(Topic, PeerNo)]) -> Option<Span>
    ensures { result ≡ span_of (map pos (map (members_in members.now) topics.now)) }
{
    let mut span = None;
    for topic in topics {
        let size = members_in(members, topic) as i128;
        span = widened(&span, &size);
    }
    span
}

/// Returns how many of these members of meshes are in the mesh of a topic.
fn members_in(members: &[(Topic, PeerNo)], topic: &Topic) -> u64
    ensures { result ≡ members_in members.now topic.now }
{
    members.iter().filter(|member| member.0 == *topic).count() as u64
}

/// Returns how each peer stands, with the sizes of its meshes.
///
/// # Errors
/// `AllocError` when out of memory.
pub(crate) fn standings_of(
    alloc: Global,
    meshes: &[Option<Span>],
    remains: Vec<(PeerNo, Remains)>,
) -> Result<Seq<Standing>, AllocError>
    ensures { IfOk result (λ standings. (among : ChosenValue) (lives : List (PeerNoValue × FinishedValue))
        → meshes.now ≡ map (meshes_if among) lives
        → map (λ x. (x.0, remains_of x.1)) lives ≡ remains.items
        → standings ≡ map (standing_of among) lives) }
{
    let mut standings = Seq::new(alloc);
    for (peer, one) in remains {
        let meshes = meshes_at(meshes, standings.len());
        standings.push(Standing {
            peer,
            meshes,
            remains: one,
        })?;
    }
    Ok(standings)
}

fn meshes_at(meshes: &[Option<Span>], place: usize) -> Option<Span>
    ensures { result ≡ unwrap_or (slice_get meshes.now place) None }
{
    match meshes.get(place) {
        Some(span) => *span,
        None => None,
    }
}
