//! Readers of the traces of a run. They say what had no effect at each entry.
ghost use Rattle.std.specs.Prelude.{◌≡◌, true, false, IfOk};
ghost use Rattle.std.specs.List.{AllByRecursion};
ghost use Rattle.gs_base.specs.declared.names.PeerNo.{PeerNo as PeerNoValue};
ghost use Rattle.gs_plan.specs.Plans.{IsInRange};
ghost use Rattle.gs_report.specs.declared.finished.Finished.{Finished as FinishedValue};
ghost use Rattle.gs_router.specs.Following.{AreInOrder, Follows, Reading};
ghost use Rattle.gs_rules.specs.Events.{of_round_end};
ghost use Rattle.gs_trace.specs.Starts.{Sees, StandAt, StandsAt};

use gs_base::PeerNo;
use gs_plan::Plan;
use gs_report::Finished;
use gs_router::{Followed, Follower};
use gs_rules::Event;
use gs_seats::follower_of;
use std::alloc::{AllocError, Global};

/// Returns a reader of each peer's trace that has seen none of its entries.
pub(crate) fn readers_of<'a>(
    alloc: Global,
    plan: &Plan,
    peers: &'a [(PeerNo, Finished)],
) -> Result<Vec<Follower<'a>>, AllocError>
    requires range { IsInRange plan.now }
    requires order { AllByRecursion (λ (x : PeerNoValue × FinishedValue). AreInOrder x.1.trace) peers.now }
    ensures { IfOk result (λ readers. StandAt plan.now 0 0 peers.now readers.items) }
{
    let mut readers = Vec::with_capacity(alloc, peers.len())?;
    for peer in peers {
        let reader = reader_of(alloc, plan, peer)?;
        readers.push(reader)?;
    }
    Ok(readers)
}

/// A reader of a peer's trace.
fn reader_of<'a>(
    alloc: Global,
    plan: &Plan,
    peer: &'a (PeerNo, Finished),
) -> Result<Follower<'a>, AllocError>
    requires range { IsInRange plan.now }
    requires order { AreInOrder peer.now.1.trace }
    ensures { IfOk result (λ reader. StandsAt plan.now 0 peer.now reader) }
{
    let reader = follower_of(alloc, plan, peer.0, &peer.1.trace)?;
    Ok(reader)
}

/// Reads the entries of a round: those up to its end, or in the last round all that are left.
pub(crate) fn entries_of_round<'a>(
    alloc: Global,
    reader: &mut Follower<'a>,
    is_last: bool,
) -> Result<Vec<Followed<'a>>, AllocError>
    requires { (v : Reading) × Follows reader.old v }
    ensures { IfOk result (λ list. (v : Reading) → Follows reader.old v → Sees is_last v list.items reader.new) }
{
    let mut entries = Vec::new(alloc);
    while let Some(followed) = reader.advance()? {
        let is_end = ends_round(followed.entry.event());
        entries.push(followed)?;
        if is_end && !is_last {
            return Ok(entries);
        }
    }
    Ok(entries)
}

fn ends_round(event: &Event) -> bool
    ensures { result ≡ of_round_end (λ r. true) false event.now }
{
    match event {
        Event::RoundEnd(_) => true,
        Event::Heard(_, _) => false,
        Event::Late(_, _) => false,
        Event::Part(_, _) => false,
        Event::BeatBegin => false,
        Event::Step(_) => false,
        Event::Own(_) => false,
        Event::Lost(_, _) => false,
        Event::Decay => false,
        Event::Shut => false,
    }
}
