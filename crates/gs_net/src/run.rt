ghost use Rattle.std.specs.Prelude.{◌≡◌, ◌≤◌, ◌*◌, IfErr, IfOk, length, map};
ghost use Rattle.std.specs.Arc.{arc_value};
ghost use Rattle.std.specs.List.{All, AllByRecursion, AllZip};
ghost use Rattle.gs_workers.specs.declared.fault.WorkerFault.{WorkerFault as WorkerFaultValue};
ghost use Rattle.gs_plan.specs.Plans.{IsInRange};
ghost use Rattle.gs_net.specs.Faults.{of_workers};
ghost use Rattle.gs_peer.specs.Task.{CanPoll, Gives, flag_of};
ghost use Rattle.gs_seats.specs.Reports.{IsReport};

use crate::dials::{settle_all, wire_all};
use crate::driving::{fault_of, run_tasks};
use crate::lives::lives_of;
use crate::tasks::{Builder, payloads_of_workers};
use gs_ends::Ends;
use gs_peer::{FinishedTask, Gate, PeerFault, PeerTask};
use gs_plan::Plan;
use gs_report::Report;
use gs_seats::{NetFault, lines_by_peer};
use gs_workers::{Ran, StopFlag};
use std::alloc::{AllocError, AllocGlobal, Global};
use std::random::RandomSource;
use std::sync::{Arc, Wait};
use std::thread::Threads;

/// Runs the peers of a plan on worker threads, and returns the report. Peer i runs on worker i mod `workers`. What one peer says
/// to another goes over a link of their own. The gate is called for each round that a peer begins. All threads have ended when
/// the function returns. Its clause speaks only about the report. Contracts within this crate speak about workers and links.
/// Only tests show that the gate is called and that threads end.
///
/// # Errors
/// `NoMemory` with the lowest peer that ran out of memory, or with none if memory ran out outside of the peers. `NoThread` if a
/// thread could not be started or could not wait. No clause says which fault comes, or why.
pub fn run_net<G, R>(rt: &R, plan: &Plan, gate: &G) -> Result<Report, NetFault>
where
    G: Gate + Sync,
    R: Threads + Wait + RandomSource + AllocGlobal + Sync + Send + Copy,
    requires { IsInRange plan.now }
    ensures { IfOk result (IsReport plan.now) }
{
    run_with(rt, plan, gate)
}

/// `run_net` with a gate that can be copied. Each task keeps a copy.
fn run_with<G, R>(rt: &R, plan: &Plan, gate: G) -> Result<Report, NetFault>
where
    G: Gate + Copy + Send,
    R: Threads + Wait + RandomSource + AllocGlobal + Sync + Send + Copy,
    requires { IsInRange plan.now }
    ensures { IfOk result (IsReport plan.now) }
{
    let alloc = rt.alloc();
    let stop = flag(alloc)?;
    let ends = wire_all(
        alloc,
        plan.capacity as usize,
        plan.peers.len(),
        plan.dials.as_slice(),
    )?;
    let lines = lines_by_peer(alloc, plan)?;
    let payloads = payloads_of_workers(alloc, plan.workers)?;
    let builder = Builder {
        rt: *rt,
        alloc,
        plan,
        gate,
        stop: &stop,
        payloads: &payloads,
    };
    let tasks = builder.tasks(lines, ends)?;
    let ran = drive(rt, plan, &stop, tasks)?;
    let lives = lives_of(alloc, ran.outputs)?;
    let settled = settle_all(rt, plan.dials.as_slice(), lives.ends);
    Ok(Report {
        peers: lives.peers,
        settled,
    })
}

/// Drives the tasks on as many threads as the plan says. The flag must be that of each task.
///
/// # Errors
/// The fault of a run in which the workers had their fault (`fault_of`).
fn drive<G, S, R>(
    rt: &R,
    plan: &Plan,
    stop: &Arc<StopFlag>,
    tasks: Vec<PeerTask<G, S>>,
) -> Result<Ran<Result<FinishedTask<S>, PeerFault>>, NetFault>
where
    G: Gate + Send,
    S: Ends + Send,
    R: Threads + Wait + RandomSource + AllocGlobal + Sync,
    requires workers { 1 ≤ plan.now.workers }
    requires ready { All (CanPoll S.Ends) tasks.items }
    requires flags { AllByRecursion (λ task. flag_of task ≡ arc_value stop.now) tasks.items }
    ensures given { IfOk result (λ ran. AllZip (Gives S.Ends) tasks.items ran.outputs.items) }
    ensures threads { IfOk result (λ ran. ran.threads ≡ plan.now.workers) }
    ensures fault { IfErr result (λ fault. (why : WorkerFaultValue) × (fault ≡ of_workers why)) }
{
    match run_tasks(rt, plan.workers as usize, stop, tasks) {
        Ok(ran) => Ok(ran),
        Err(fault) => Err(fault_of(fault)),
    }
}

fn flag(alloc: Global) -> Result<Arc<StopFlag>, AllocError> {
    let stop = Arc::new(alloc, StopFlag::new(alloc)?)?;
    Ok(stop)
}
