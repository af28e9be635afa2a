//! Runs of a peer with one neighbour, over lists in memory: what it says, and how it ends.
ghost use Rattle.std.specs.Prelude.{◌≡◌, IfOk, IfSome, true};
ghost use Rattle.gs_ends.specs.Ends.{has};
ghost use Rattle.gs_ends.specs.Lists.{joints_in_lists};

mod cases;
mod crowds;
mod gates;
mod items;
mod made;

use crate::tests::peer::cases::{CASES, Case, NOTHING, SCRIPT, SUBSCRIBER};
use crate::tests::peer::items::{lines, said};
use crate::tests::peer::made::{AtMost, ONE, flag, lists, payloads, task, task_in};
use futures::executor::block_on;
use gs_base::PeerNo;
use gs_ends::ListEnds;
use gs_link::Item;
use gs_peer::{FinishedTask, NoGate, PeerFault, Surroundings};
use std::alloc::{AllocError, AllocGlobal, Global};
use std::io;
use std::random::RandomSource;
use std::sync::Wait;
use std::test::*;

// ---- runs

/// What remains of the run of a case over lists, where one put in `every` is refused. It is None if the run doesn't end within
/// 10,000 polls. If the run ends with a fault, the test fails.
fn lives<R>(rt: &R, case: &Case<'_>, every: u64) -> io::Result<Option<FinishedTask<ListEnds>>>
where
    R: Wait + RandomSource + AllocGlobal,
    ensures { IfOk result (λ ended. IfSome ended (λ life. has (joints_in_lists life.ends) case.now.pair.other ≡ true)) }
{
    if case.rounds > 100_000 {
        return Ok(None);
    }
    let lines = lines(rt.alloc(), case.script)?;
    let hears = said(rt.alloc(), case.hears)?;
    let ends = lists(rt.alloc(), case.pair.other, hears, case.room, every)?;
    let task = task(rt.alloc(), case.pair, lines, case.rounds, ends)?;
    let polled = AtMost {
        inner: task,
        left: 10_000,
    };
    match block_on(rt, polled)? {
        Some(Ok(life)) => Ok(Some(life)),
        Some(Err(_)) => Err(io::Error::from(AllocError)),
        None => Ok(None),
    }
}

/// What is said, as text.
fn text(alloc: Global, says: &[Item]) -> Result<String, AllocError> {
    format!(in alloc; "{says:?}")
}

/// What a run said to its neighbour, as text.
fn came(alloc: Global, other: PeerNo, life: &FinishedTask<ListEnds>) -> Result<String, AllocError>
    requires { has (joints_in_lists life.now.ends) other ≡ true }
{
    let says = life.ends.sent(other);
    text(alloc, says)
}

/// The same as a case has it.
fn wanted(alloc: Global, case: &Case<'_>) -> Result<String, AllocError> {
    let says = said(alloc, case.says)?;
    text(alloc, says.as_slice())
}

const ENDLESS: &str = "no end";

/// What the run of a case said, where one put in `every` is refused.
fn came_of<R>(rt: &R, case: &Case<'_>, every: u64) -> io::Result<String>
where
    R: Wait + RandomSource + AllocGlobal,
{
    match lives(rt, case, every)? {
        Some(life) => Ok(came(rt.alloc(), case.pair.other, &life)?),
        None => Ok(String::from_str(rt.alloc(), ENDLESS)?),
    }
}

#[test]
fn scripts_over_lists_end(rt: HostRuntime) -> Result<(), Fail> {
    for case in CASES {
        let wanted = wanted(rt.alloc(), case)?;
        for every in case.refusals {
            let came = came_of(&rt, case, *every)?;
            assert_eq!(rt; came.as_str(), wanted.as_str(), "{}, {every}", case.name);
        }
    }
    Ok(())
}

/// Where a neighbour takes only one item, the run never ends.
#[test]
fn what_is_never_accepted_keeps_a_task_pending(rt: HostRuntime) -> Result<(), Fail> {
    let case = Case {
        script: SCRIPT,
        hears: SUBSCRIBER,
        rounds: 2,
        room: 1,
        ..NOTHING
    };
    assert_eq!(rt; came_of(&rt, &case, 0)?.as_str(), ENDLESS);
    Ok(())
}

/// The fault of a task whose flag is set.
fn stopped<R>(rt: &R) -> io::Result<Option<PeerFault>>
where
    R: Wait + RandomSource + AllocGlobal,
{
    let stop = flag(rt.alloc())?;
    stop.set();
    let surroundings = Surroundings {
        ends: lists(rt.alloc(), ONE.other, said(rt.alloc(), SUBSCRIBER)?, 10, 0)?,
        gate: NoGate,
        stop,
        payloads: payloads(rt.alloc())?,
    };
    let task = task_in(rt.alloc(), ONE, lines(rt.alloc(), SCRIPT)?, 2, surroundings)?;
    Ok(block_on(rt, task)?.err())
}

#[test]
fn a_flag_stops_a_task(rt: HostRuntime) -> Result<(), Fail> {
    assert!(rt; matches!(stopped(&rt)?, Some(PeerFault::Stopped(_))));
    Ok(())
}

/// Whether a task finishes its run while someone else holds its payloads.
fn goes_on_without_payloads<R>(rt: &R) -> io::Result<bool>
where
    R: Wait + RandomSource + AllocGlobal,
{
    let payloads = payloads(rt.alloc())?;
    let surroundings = Surroundings {
        ends: lists(rt.alloc(), ONE.other, said(rt.alloc(), SUBSCRIBER)?, 10, 0)?,
        gate: NoGate,
        stop: flag(rt.alloc())?,
        payloads: payloads.clone()?,
    };
    let held = payloads.try_lock();
    let task = task_in(rt.alloc(), ONE, lines(rt.alloc(), SCRIPT)?, 2, surroundings)?;
    Ok(block_on(rt, task)?.is_ok() && held.is_some())
}

#[test]
fn a_task_goes_on_while_its_payloads_are_in_use(rt: HostRuntime) -> Result<(), Fail> {
    assert!(rt; goes_on_without_payloads(&rt)?);
    Ok(())
}
