//! What sees the entries of a peer: readers of a trace that exists, and watchers of a run that goes on.
ghost use Rattle.std.specs.Prelude.{◌≡◌, [], IfOk, reverse};
ghost use Rattle.std.specs.List.{AllByRecursion};
ghost use Rattle.gs_base.specs.declared.names.PeerNo.{PeerNo as PeerNoValue};
ghost use Rattle.gs_plan.specs.Plans.{IsInRange};
ghost use Rattle.gs_plan.specs.declared.plan.Plan.{Plan as PlanValue};
ghost use Rattle.gs_report.specs.declared.finished.Finished.{Finished as FinishedValue};
ghost use Rattle.gs_report.specs.declared.report.Report.{Report as ReportValue};
ghost use Rattle.gs_router.specs.Following.{AreInOrder, Follows};
ghost use Rattle.gs_router.specs.Watching.{Watches};
ghost use Rattle.gs_seats.specs.Own.{AreNeighbourhoods};
ghost use Rattle.gs_seats.specs.Reports.{IsReport};
ghost use Rattle.gs_seats.specs.Rounds.{neighbours_in, peer_in};

use crate::neighbourhoods::Neighbourhoods;
use crate::neighbours::neighbours_of;
use gs_base::{Neighbour, PeerNo, clone_of};
use gs_plan::Plan;
use gs_router::{Follower, Watcher};
use gs_rules::Trace;
use std::alloc::{AllocError, Global};

/// Returns a reader of the trace of a peer of a plan, which has read no entry.
///
/// # Errors
/// `AllocError` when out of memory.
pub fn follower_of<'a>(
    alloc: Global,
    plan: &Plan,
    number: PeerNo,
    trace: &'a Trace,
) -> Result<Follower<'a>, AllocError>
    requires range { IsInRange plan.now }
    requires order { AreInOrder trace.now }
    ensures { IfOk result (λ follower. Follows follower (record {
      peer = peer_in plan.now number;
      before = [];
      left = reverse trace.now;
    })) }
{
    let neighbours = neighbours_of(alloc, plan, number)?;
    let params = clone_of(&plan.params)?;
    let follower = Follower::new(alloc, params, neighbours, trace)?;
    Ok(follower)
}

/// Returns a watcher of a peer of a plan, which has seen no entry. It finds the peer's neighbours in what concerns each peer,
/// and does not walk over the plan.
///
/// # Errors
/// `AllocError` when out of memory.
pub fn watcher_among(
    alloc: Global,
    plan: &Plan,
    neighbourhoods: &Neighbourhoods,
    number: PeerNo,
) -> Result<Watcher, AllocError>
    requires range { IsInRange plan.now }
    requires sorted { AreNeighbourhoods plan.now neighbourhoods.now }
    ensures { IfOk result (λ watcher. Watches watcher (peer_in plan.now number) []) }
{
    let neighbours = neighbourhoods.neighbours(alloc, plan, number)?;
    let watcher = watcher_with(alloc, plan, number, neighbours)?;
    Ok(watcher)
}

/// Returns a watcher of a peer of a plan with these neighbours, which has seen no entry.
fn watcher_with(
    alloc: Global,
    plan: &Plan,
    number: PeerNo,
    neighbours: Vec<Neighbour>,
) -> Result<Watcher, AllocError>
    requires range { IsInRange plan.now }
    requires neighbours { neighbours.items ≡ neighbours_in plan.now number }
    ensures { IfOk result (λ watcher. Watches watcher (peer_in plan.now number) []) }
{
    let params = clone_of(&plan.params)?;
    let watcher = Watcher::new(alloc, params, neighbours)?;
    Ok(watcher)
}

/// No entry of a trace of a report is earlier than the one before it. The law is only about definitions, and its function
/// does nothing.
pub fn traces_of_a_report_are_in_order()
    ensures { (plan : PlanValue) (report : ReportValue)
        → IsReport plan report
        → AllByRecursion (λ (x : PeerNoValue × FinishedValue). AreInOrder x.1.trace) report.peers.items }
{}
