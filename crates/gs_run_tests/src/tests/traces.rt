//! A trace that is made entry by entry, and what one who reads it knows before the first entry.
ghost use Rattle.std.specs.Prelude.{◌≤◌, ◌^◌, All, IfOk, unsigned_abs};
ghost use Rattle.gs_base.specs.Names.{peers_of};
ghost use Rattle.gs_base.specs.declared.neighbour.Neighbour.{Neighbour as NeighbourValue};
ghost use Rattle.gs_params.specs.Params.{AreInRange};
ghost use Rattle.gs_params.specs.Picks.{IsAscending};
ghost use Rattle.gs_router.specs.Following.{AreInOrder};

use bytes::Bytes;
use gs_base::{Millis, Neighbour, PeerNo};
use gs_params::Params;
use gs_router::Follower;
use gs_rules::{Effects, Entry, Event, Trace};
use std::alloc::{AllocError, Global};

/// The end of a round, at as many milliseconds as its number.
fn round_end(alloc: Global, number: u64) -> Entry {
    Entry {
        at: Millis(number),
        event: Event::RoundEnd(number),
        effects: Effects::none(alloc),
    }
}

/// How many entries a trace has, and the moment of the newest.
fn length_and_moment(trace: &Trace) -> (usize, Millis) {
    (trace.entries().len(), trace.last_moment())
}

fn push_two(alloc: Global, trace: &mut Trace) -> Result<(), AllocError> {
    trace.push(round_end(alloc, 0))?;
    trace.push(round_end(alloc, 1))
}

/// What a trace with the ends of rounds 0 and 1 tells.
fn told_of_two(alloc: Global) -> Result<(usize, Millis), AllocError> {
    let mut trace = Trace::new(alloc);
    let pushed = push_two(alloc, &mut trace);
    let told = length_and_moment(&trace);
    drop(trace);
    pushed?;
    Ok(told)
}

#[test]
fn what_is_pushed_is_the_newest_entry(rt: HostRuntime) -> Result<(), AllocError> {
    assert_eq!(rt; told_of_two(rt.alloc())?, (2, Millis(1)));
    Ok(())
}

/// The only neighbour: the application gives it a score of 3.
fn neighbours(alloc: Global) -> Result<Vec<Neighbour>, AllocError>
    ensures ascending { IfOk result (λ list. IsAscending (peers_of list.items)) }
    ensures apps { IfOk result (λ list. All (λ (n : NeighbourValue). unsigned_abs n.app ≤ 10 ^ 12) list.items) }
{
    let mut list = Vec::new(alloc);
    list.push(Neighbour {
        app: 3_000_000,
        ..Neighbour::new(PeerNo(1), Bytes::new())
    })?;
    Ok(list)
}

/// What the neighbour scores before the first entry of a trace, and a peer that is no neighbour.
fn scores_at_first(alloc: Global, params: Params, trace: &Trace) -> Result<(i128, i128), AllocError>
    requires in_range { AreInRange params }
    requires order { AreInOrder trace.now }
{
    let follower = Follower::new(alloc, params, neighbours(alloc)?, trace)?;
    Ok((
        follower.score(PeerNo(1), Millis(0)),
        follower.score(PeerNo(2), Millis(0)),
    ))
}

/// These scores before a trace that has no entry.
fn scores_of_nothing(alloc: Global) -> Result<(i128, i128), AllocError> {
    let trace = Trace::new(alloc);
    let scores = match Params::new(alloc).check() {
        Ok(params) => scores_at_first(alloc, params, &trace),
        Err(_) => Err(AllocError),
    };
    drop(trace);
    scores
}

#[test]
fn a_follower_begins_with_the_scores_of_the_application(rt: HostRuntime) -> Result<(), AllocError> {
    assert_eq!(rt; scores_of_nothing(rt.alloc())?, (3_000_000, 0));
    Ok(())
}
