//! Worker threads. Each drives a group of futures.
ghost use Rattle.std.specs.Prelude.{◌≡◌, ◌≤◌, IfErr, IfOk, MatchResult, [], length, map, vec_capacity};
ghost use Rattle.std.specs.List.{All, AllByRecursion, AllZip};
ghost use Rattle.std.specs.VecDeque.{deque_len};
ghost use Rattle.futures.specs.declared.future.made.maybe_done.MaybeDone.TheVariants.{Future as FutureValue};
ghost use Rattle.gs_workers.specs.Deals.{IsDealt, lists_of};
ghost use Rattle.gs_workers.specs.Faults.{HasSet, flag_in};
ghost use Rattle.gs_workers.specs.Flags.{FlagId};
ghost use Rattle.gs_workers.specs.Groups.{AllEnd, AllLive, EndsAs};

use crate::deal::{Groups, deal, gather};
use crate::fault::{Want, WorkerFault};
use crate::group::Group;
use crate::stop_flag::{Raised, StopFlag};
use futures::Future;
use futures::executor::block_on;
use futures::future::MaybeDone;
use std::alloc::{AllocGlobal, Global};
use std::collections::VecDeque;
use std::random::RandomSource;
use std::snapshot::Snapshot;
use std::sync::Wait;
use std::thread;
use std::thread::{Promise, PromisedHandle, Scope, Threads};

/// A group whose futures are all done. If its thread could not wait, there is no group, and the flag is set.
type Driven<F, T> = Result<Vec<MaybeDone<F, T>>, Raised>;

/// A worker that is still to be joined.
type Worker<F, T> = PromisedHandle<Driven<F, T>, OfGroup<F, T>>;

/// What a worker promises about its group and its flag. Each future of the group gives what it may give, or the flag is set.
#[derive(Drop)]
struct OfGroup<F, T>(Snapshot<Vec<MaybeDone<F, T>>>, Snapshot<StopFlag>);

impl<F: Future<Output: Drop>> Promise<Driven<F, F::Output>> for OfGroup<F, F::Output> {
    ghost kept_by = { λ promise driven. MatchResult driven
        (λ ended. AllEnd F.gives promise.0.value.items ended.items)
        (λ raised. raised ≡ promise.1.value) };
}

/// What futures gave, and on how many threads they ran.
#[derive(Drop)]
pub struct Ran<T> {
    /// The outputs, in the order of the futures.
    pub outputs: Vec<T>,
    /// How many threads drove the futures, and were joined.
    pub threads: usize,
}

/// Runs the futures on `workers` threads to their ends, and returns their outputs in order. The future at place i runs on thread
/// i mod `workers`. No thread still runs after the call.
///
/// # Errors
/// `NoMemory` if memory runs out, and `NoThread` if a thread could not be started or could not wait. The flag is set before the
/// threads that still run are joined.
pub fn run_all<F, R>(
    rt: &R,
    workers: usize,
    stop: &StopFlag,
    futures: Vec<F>,
) -> Result<Ran<F::Output>, WorkerFault>
where
    F: Future<Output: Send + Drop> + Send,
    R: Threads + Wait + RandomSource + AllocGlobal + Sync,
    requires workers { 1 ≤ workers }
    requires ready { All F.can_poll futures.items }
    ensures given { IfOk result (λ ran. AllZip F.gives futures.items ran.outputs.items) }
    ensures threads { IfOk result (λ ran. ran.threads ≡ workers) }
    ensures fault { IfErr result (λ fault. flag_in fault ≡ stop.now) }
{
    thread::scope(
        thread::scope_env(),
        rt,
        move |scope| -> Result<Ran<F::Output>, WorkerFault>
            requires { (1 ≤ workers) × All F.can_poll futures.items }
            ensures { MatchResult result
                (λ ran. AllZip F.gives futures.items ran.outputs.items × (ran.threads ≡ workers))
                (λ fault. flag_in fault ≡ stop.entry.now) }
        {
            match run_in(scope, rt, workers, stop, futures) {
                Ok(ran) => Ok(ran),
                Err(Want::Memory) => Err(WorkerFault::NoMemory(stop.set())),
                Err(Want::Thread(raised)) => Err(WorkerFault::NoThread(raised)),
            }
        },
    )
}

/// `run_all` within a scope. The scope joins the threads that are not joined here.
fn run_in<'s, E, F, R>(
    scope: &Scope<'s, E>,
    rt: &'s R,
    workers: usize,
    stop: &'s StopFlag,
    futures: Vec<F>,
) -> Result<Ran<F::Output>, Want>
where
    F: Future<Output: Send + Drop + 's> + Send + 's,
    R: Threads + Wait + RandomSource + AllocGlobal + Sync,
    requires workers { 1 ≤ workers }
    requires ready { All F.can_poll futures.items }
    ensures given { IfOk result (λ ran. AllZip F.gives futures.items ran.outputs.items) }
    ensures threads { IfOk result (λ ran. ran.threads ≡ workers) }
    ensures want { IfErr result (HasSet stop.now) }
{
    let groups = drive_all(scope, rt, workers, stop, futures)?;
    let threads = groups.len();
    let outputs = gather(rt.alloc(), groups)?;
    Ok(Ran { outputs, threads })
}

/// Deals the futures to `workers` groups, and drives each group to its end on a worker of its own.
fn drive_all<'s, E, F, R>(
    scope: &Scope<'s, E>,
    rt: &'s R,
    workers: usize,
    stop: &'s StopFlag,
    futures: Vec<F>,
) -> Result<Groups<F, F::Output>, Want>
where
    F: Future<Output: Send + Drop + 's> + Send + 's,
    R: Threads + Wait + RandomSource + AllocGlobal + Sync,
    requires workers { 1 ≤ workers }
    requires ready { All F.can_poll futures.items }
    ensures threads { IfOk result (λ groups. deque_len groups ≡ workers) }
    ensures dealt { IfOk result (λ groups. IsDealt
        (λ future member. EndsAs F.gives (FutureValue future) member) futures.items (lists_of groups.items)) }
    ensures want { IfErr result (HasSet stop.now) }
{
    let alloc = rt.alloc();
    let groups = deal(alloc, workers, futures)?;
    let room = Vec::with_capacity(alloc, workers)?;
    let started = start_all(scope, rt, stop, groups, room)?;
    let ended = join_all(rt, alloc, started)?;
    Ok(ended)
}

/// Starts a worker for each group, in a list that has room for them.
///
/// # Errors
/// `Raised` if a thread could not be started.
fn start_all<'s, E, F, R>(
    scope: &Scope<'s, E>,
    rt: &'s R,
    stop: &'s StopFlag,
    mut groups: Groups<F, F::Output>,
    mut workers: Vec<Worker<F, F::Output>>,
) -> Result<Vec<Worker<F, F::Output>>, Raised>
where
    F: Future<Output: Send + Drop + 's> + Send + 's,
    R: Wait + RandomSource + AllocGlobal + Sync,
    requires live { AllByRecursion (AllLive F.can_poll) (lists_of groups.items) }
    requires none { workers.items ≡ [] }
    requires room { deque_len groups ≤ vec_capacity workers }
    ensures count { IfOk result (λ started. length started.items ≡ deque_len groups) }
    ensures each { IfOk result (λ started.
        map (λ worker. worker.promise.0.value.items) started.items ≡ lists_of groups.items) }
    ensures flags { IfOk result (λ started.
        AllByRecursion (λ worker. worker.promise.1.value ≡ stop.now) started.items) }
    ensures raised { IfErr result (λ raised. raised ≡ stop.now) }
{
    while let Some(group) = groups.pop_front() {
        let promise = OfGroup(Snapshot::of(&group), Snapshot::of(stop));
        let Ok(worker) = scope.spawn_with(promise, move || drive(rt, stop, group)) else {
            return Err(stop.set());
        };
        let Ok(()) = workers.push(worker) else {
            unreachable!()
        };
    }
    Ok(workers)
}

/// Drives a group to its end on this thread.
///
/// # Errors
/// `Raised` if the thread could not wait.
fn drive<F, R>(
    rt: &R,
    stop: &StopFlag,
    members: Vec<MaybeDone<F, F::Output>>,
) -> Driven<F, F::Output>
where
    F: Future<Output: Drop>,
    R: Wait + RandomSource + AllocGlobal,
    requires { AllLive F.can_poll members.items }
    ensures { MatchResult result (λ ended. AllEnd F.gives members.items ended.items)
        (λ raised. raised ≡ stop.now) }
{
    match block_on(rt, Group { members }) {
        Ok(ended) => Ok(ended),
        Err(_) => Err(stop.set()),
    }
}

/// Joins the workers, and returns their groups in order.
fn join_all<F, R>(
    rt: &R,
    alloc: Global,
    workers: Vec<Worker<F, F::Output>>,
) -> Result<Groups<F, F::Output>, Want>
where
    F: Future<Output: Drop>,
    R: Threads,
    ensures count { IfOk result (λ groups. deque_len groups ≡ length workers.items) }
    ensures each { IfOk result (λ groups. AllZip (AllEnd F.gives)
        (map (λ worker. worker.promise.0.value.items) workers.items) (lists_of groups.items)) }
    ensures want { IfErr result (λ want. (flag : FlagId)
        → AllByRecursion (λ worker. worker.promise.1.value ≡ flag) workers.items
        → HasSet flag want) }
{
    let mut groups = VecDeque::with_capacity(alloc, workers.len())?;
    for worker in workers {
        let group = worker.join(rt)?;
        groups.push_back(group)?;
    }
    Ok(groups)
}
