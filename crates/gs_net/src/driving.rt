//! Peers' tasks, driven by workers.
ghost use Rattle.std.specs.Prelude.{◌≡◌, ◌≤◌, IfErr, IfOk};
ghost use Rattle.std.specs.Arc.{arc_value};
ghost use Rattle.std.specs.List.{All, AllByRecursion, AllZip};
ghost use Rattle.gs_workers.specs.Faults.{flag_in};
ghost use Rattle.gs_peer.specs.Task.{CanPoll, Gives, flag_of};
ghost use Rattle.gs_net.specs.Faults.{of_workers};

use gs_ends::Ends;
use gs_peer::{FinishedTask, Gate, PeerFault, PeerTask};
use gs_seats::NetFault;
use gs_workers::{Ran, StopFlag, WorkerFault, run_all};
use std::alloc::AllocGlobal;
use std::random::RandomSource;
use std::sync::{Arc, Wait};
use std::thread::Threads;

/// Runs the tasks on `workers` worker threads to their ends, and returns their outputs in the order of the tasks. It also
/// returns the number of threads. The task at place i runs on worker i mod `workers`. The workers have ended when it returns.
///
/// The workers set the flag `stop`, which must be the flag of each task.
///
/// # Errors
/// `NoMemory` if memory runs out, and `NoThread` if a thread could not be started or could not wait. The flag is set before
/// the workers that still run are joined, so that the tasks end.
pub fn run_tasks<
    G: Gate + Send,
    S: Ends + Send,
    R: Threads + Wait + RandomSource + AllocGlobal + Sync,
>(
    rt: &R,
    workers: usize,
    stop: &Arc<StopFlag>,
    tasks: Vec<PeerTask<G, S>>,
) -> Result<Ran<Result<FinishedTask<S>, PeerFault>>, WorkerFault>
    requires workers { 1 ≤ workers }
    requires ready { All (CanPoll S.Ends) tasks.items }
    requires flags { AllByRecursion (λ task. flag_of task ≡ arc_value stop.now) tasks.items }
    ensures given { IfOk result (λ ran. AllZip (Gives S.Ends) tasks.items ran.outputs.items) }
    ensures threads { IfOk result (λ ran. ran.threads ≡ workers) }
    ensures fault { IfErr result (λ fault. flag_in fault ≡ arc_value stop.now) }
{
    run_all(rt, workers, stop, tasks)
}

/// Returns the fault of a run in which the workers had this fault.
pub fn fault_of(fault: WorkerFault) -> NetFault
    ensures { result ≡ of_workers fault }
{
    match fault {
        WorkerFault::NoMemory(_) => NetFault::NoMemory(None),
        WorkerFault::NoThread(_) => NetFault::NoThread,
    }
}
