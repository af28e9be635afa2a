//! Futures that are run on worker threads.
ghost use Rattle.std.specs.Prelude.{◌≤◌};

mod faults;
mod made;

use crate::tests::workers::made::{Guest, Meeting, given};
use gs_workers::{StopFlag, WorkerFault, run_all};
use std::alloc::{AllocError, AllocGlobal, Global};
use std::random::RandomSource;
use std::sync::Wait;
use std::test::*;
use std::thread::Threads;

/// Whether `count` futures on `workers` workers give these numbers on `workers` threads, and leave
/// the flag as it is.
fn gives<R>(rt: &R, workers: usize, count: u8, numbers: &[u16]) -> bool
where
    R: Threads + Wait + RandomSource + AllocGlobal + Sync,
    requires { 1 ≤ workers }
{
    let Ok(stop) = StopFlag::new(rt.alloc()) else {
        return false;
    };
    match given(rt, workers, count, &stop) {
        Ok(ran) => { ran.outputs.as_slice() == numbers && ran.threads == workers && !stop.is_set() }
        Err(_) => false,
    }
}

#[test]
fn outputs_come_in_the_order_of_the_futures(rt: HostRuntime) {
    for workers in 1..7 {
        assert!(rt; gives(&rt, workers, 2, &[0, 1]));
        assert!(rt; gives(&rt, workers, 5, &[0, 1, 2, 3, 4]));
    }
}

#[test]
fn no_futures_give_no_outputs(rt: HostRuntime) {
    for workers in 1..4 {
        assert!(rt; gives(&rt, workers, 0, &[]));
    }
}

/// Memory runs out for this many workers, and the flag is set.
#[test]
fn too_many_workers_run_out_of_memory(rt: HostRuntime) -> Result<(), AllocError> {
    let stop = StopFlag::new(rt.alloc())?;
    let ran = given(&rt, usize::MAX, 1, &stop);
    assert!(rt; stop.is_set());
    assert!(rt; matches!(ran, Err(WorkerFault::NoMemory(_))));
    Ok(())
}

#[test]
fn a_flag_is_set_once_it_was_set(rt: HostRuntime) -> Result<(), AllocError> {
    let stop = StopFlag::new(rt.alloc())?;
    assert!(rt; !stop.is_set());
    assert!(rt; stop.look().is_ok());
    let raised = stop.set();
    let found = stop.look().err();
    assert!(rt; stop.is_set() && found.is_some());
    let shown = format!(in rt.alloc();
        "{raised:?} {found:?} {:?}",
        StopFlag::new(rt.alloc())?.look().ok()
    )?;
    assert_eq!(rt; shown.as_str(), "Raised Some(FoundSet) Some(FoundUnset)");
    Ok(())
}

fn four_guests<'m>(alloc: Global, meeting: &'m Meeting) -> Result<Vec<Guest<'m>>, AllocError> {
    let mut guests = Vec::new(alloc);
    for number in 0..4u32 {
        guests.push(Guest { number, meeting })?;
    }
    Ok(guests)
}

/// Whether four futures on four workers all meet.
fn all_meet<R>(rt: &R, meeting: &Meeting) -> Result<bool, AllocError>
where
    R: Threads + Wait + RandomSource + AllocGlobal + Sync,
{
    let stop = StopFlag::new(rt.alloc())?;
    let guests = four_guests(rt.alloc(), meeting)?;
    match run_all(rt, 4, &stop, guests) {
        Ok(ran) => Ok(ran.outputs.as_slice() == [true; 4].as_slice()),
        Err(_) => Ok(false),
    }
}

/// Each of four workers drives its future while the others drive theirs.
#[test]
fn workers_run_side_by_side(rt: HostRuntime) -> Result<(), AllocError> {
    let meeting = Meeting::new();
    assert!(rt; all_meet(&rt, &meeting)?);
    Ok(())
}
