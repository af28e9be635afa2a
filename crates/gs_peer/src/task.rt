ghost use Rattle.std.specs.Prelude.{◌≡◌, None, Err, IfErr, IfOk, IfSome, OnOk, true};
ghost use Rattle.std.specs.Arc.{arc_value};
ghost use Rattle.futures.specs.Poll.{IfReady, OnPending};
ghost use Rattle.futures.specs.Task.{Covers, Keeps};
ghost use Rattle.gs_ends.specs.Ends.{GrewBy};
ghost use Rattle.gs_peer.specs.Faults.{IsOfFlag, number_of};
ghost use Rattle.gs_peer.specs.Life.{IsLife};
ghost use Rattle.gs_peer.specs.Moves.{is_over};
ghost use Rattle.gs_peer.specs.Running.{Goes, IsKept, IsOver, MayBegin, seat_of};
ghost use Rattle.gs_peer.specs.Stepping.{Polls};
ghost use Rattle.gs_peer.specs.Task.{Bounded, CanPoll, Gives, HasEnds, IsSuspended, IsTaskOf, flag_of, given_of};

use crate::assignment::Assignment;
use crate::finished_task::{FinishedTask, PeerFault};
use crate::gate::Gate;
use crate::running::{Chooser, Running};
use futures::Future;
use futures::task::{Context, Poll};
use gs_cache::Payloads;
use gs_ends::Ends;
use gs_params::SeededWords;
use gs_router::Router;
use gs_workers::{FoundUnset, StopFlag};
use std::alloc::{AllocError, Global};
use std::sync::{Arc, Mutex};

/// What a task uses besides its router: the ends of its peer's links, a gate, a stop flag, and what is known about payloads.
#[derive(Drop)]
pub struct Surroundings<G: Gate, S: Ends> {
    /// The ends of the links to and from each neighbour. Nothing has gone through them yet.
    pub ends: S,
    /// It is called for each round that the peer begins.
    pub gate: G,
    /// A task that runs out of memory sets it. A task that finds it set stops with a fault.
    pub stop: Arc<StopFlag>,
    /// What is known about payloads. The tasks that one thread polls share it, so that each payload is hashed once on that
    /// thread. A poll goes on without it while another thread holds it.
    pub payloads: Arc<Mutex<Payloads>>,
}

/// A peer's whole run as a future, which is polled by hand. Its output is what remains of the run, or a fault.
///
/// Contracts see what it has done wherever it may be suspended (`IsSuspended`). They also see that its output describes a
/// whole run (`IsLife`).
#[derive(Drop)]
pub struct PeerTask<G: Gate, S: Ends> {
    running: Option<Running<G, S>>,
    stop: Arc<StopFlag>,
    payloads: Arc<Mutex<Payloads>>,
}

impl<G: Gate, S: Ends> PeerTask<G, S> {
    /// Creates the task of a peer that has done nothing yet, with its router and the random words for the router's choices.
    /// The router must be new and have the assignment's neighbours. There must be unused ends to and from each neighbour. All
    /// rounds together must take less than 2^64 milliseconds.
    ///
    /// # Errors
    /// `NoMemory` if memory runs out. The stop flag is then set.
    pub fn new(
        alloc: Global,
        assignment: Assignment,
        router: Router,
        words: SeededWords,
        surroundings: Surroundings<G, S>,
    ) -> Result<PeerTask<G, S>, PeerFault>
        requires { MayBegin S.Ends assignment router surroundings.ends }
        ensures can { IfOk result (λ task. CanPoll S.Ends task) }
        ensures is { IfOk result (λ task. IsTaskOf S.joints assignment router words surroundings.ends task) }
        ensures ends { IfOk result (λ task. HasEnds surroundings.ends task) }
        ensures suspended { IfOk result (λ task. IsSuspended S.Ends task) }
        ensures flag { IfOk result (λ task. flag_of task ≡ arc_value surroundings.stop) }
        ensures memory { IfErr result (λ fault. number_of fault ≡ 22) }
        ensures fault { IfErr result (IsOfFlag (arc_value surroundings.stop)) }
    {
        let Surroundings {
            ends,
            gate,
            stop,
            payloads,
        } = surroundings;
        let chooser = Chooser { router, words };
        match Running::new(alloc, assignment, chooser, ends, gate) {
            Ok(running) => Ok(PeerTask {
                running: Some(running),
                stop,
                payloads,
            }),
            Err(_) => Err(PeerFault::NoMemory(stop.set())),
        }
    }
}

impl<G: Gate, S: Ends> Future for PeerTask<G, S> {
    type Output = Result<FinishedTask<S>, PeerFault>;

    ghost can_poll = { λ task. CanPoll S.Ends task };

    ghost gives = { λ task result. Gives S.Ends task result };

    /// Takes at most 64 items from the neighbours, and has at most 64 items accepted for them. A close counts as an item. The
    /// poll may stop between any two items. It asks to be polled again at once if the run has not ended.
    ///
    /// The output is what remains of the run, `NoMemory` with the task's stop flag set, or `Stopped` if the flag was found
    /// set. After any output, each further poll answers `Over`.
    // Not inlined: a caller that polls many tasks would otherwise clear the stack space of a whole task at each poll.
    #[inline(never)]
    fn poll(&mut self, cx: &mut Context<'_>) -> Poll<Result<FinishedTask<S>, PeerFault>>
        requires { CanPoll S.Ends self.old }
        ensures value { IfReady result (Gives S.Ends self.old) }
        ensures again { OnPending result (CanPoll S.Ends self.new) }
        ensures same { OnPending result ((x : _)
            → Gives S.Ends self.new x
            → Gives S.Ends self.old x) }
        ensures registered { OnPending result (Covers cx.new (λ _. ⊥)) }
        ensures kept { Keeps cx.old cx.new }
        ensures suspended { OnPending result (IsSuspended S.Ends self.new) }
        ensures stays { OnPending result (given_of S.joints self.new ≡ given_of S.joints self.old) }
        ensures bounded { Bounded S.Ends 64 self.old self.new result }
        ensures after { IfReady result (λ _. given_of S.joints self.new ≡ None) }
        ensures spent { given_of S.joints self.old ≡ None → result ≡ Poll.Ready (Err PeerFault.Over) }
        ensures flag { flag_of self.new ≡ flag_of self.old }
    {
        let Some(running) = &mut self.running else {
            return Poll::Ready(Err(PeerFault::Over));
        };
        match go_on(&self.stop, &self.payloads, running) {
            Ok(Went { is_over: true, .. }) => Poll::Ready(finish(&self.stop, &mut self.running)),
            Ok(Went { is_over: false, .. }) => cx.yield_now(),
            Err(fault) => {
                give_up(&mut self.running);
                Poll::Ready(Err(fault))
            }
        }
    }
}

/// How a run went on.
#[derive(Drop)]
struct Went {
    is_over: bool,
    /// Evidence that the flag was checked first, and was not set.
    unset: FoundUnset,
}

/// Continues a run by the steps of a poll, unless the flag is set. If memory runs out, the flag is set before the answer.
fn go_on<G: Gate, S: Ends>(
    stop: &StopFlag,
    payloads: &Mutex<Payloads>,
    running: &mut Running<G, S>,
) -> Result<Went, PeerFault>
    requires { IsKept S.Ends running.old }
    ensures goes { OnOk result (Goes S.Ends running.old running.new) }
    ensures taken { OnOk result (GrewBy 64 (S.taken running.old.ends) (S.taken running.new.ends)) }
    ensures accepted { OnOk result (GrewBy 64 (S.accepted running.old.ends) (S.accepted running.new.ends)) }
    ensures polls { OnOk result (Polls S.Ends 64 running.old running.new) }
    ensures over { IfOk result (λ went. went.is_over ≡ is_over running.new) }
    ensures unset { IfOk result (λ went. went.unset ≡ stop.now) }
    ensures fault { IfErr result (IsOfFlag stop.now) }
{
    let unset = match stop.look() {
        Ok(unset) => unset,
        Err(found) => return Err(PeerFault::Stopped(found)),
    };
    match run_knowing(payloads, running) {
        Ok(is_over) => Ok(Went { is_over, unset }),
        Err(_) => Err(PeerFault::NoMemory(stop.set())),
    }
}

/// Takes the steps of a poll, and returns whether the run has ended. It uses what is known about payloads if no other
/// thread holds that.
fn run_knowing<G: Gate, S: Ends>(
    payloads: &Mutex<Payloads>,
    running: &mut Running<G, S>,
) -> Result<bool, AllocError>
    requires { IsKept S.Ends running.old }
    ensures goes { OnOk result (Goes S.Ends running.old running.new) }
    ensures taken { OnOk result (GrewBy 64 (S.taken running.old.ends) (S.taken running.new.ends)) }
    ensures accepted { OnOk result (GrewBy 64 (S.accepted running.old.ends) (S.accepted running.new.ends)) }
    ensures polls { OnOk result (Polls S.Ends 64 running.old running.new) }
    ensures over { IfOk result (λ over. over ≡ is_over running.new) }
{
    let Some(mut known) = payloads.try_lock() else {
        return running.run();
    };
    running.exchange_payloads(&mut known);
    let done = running.run();
    running.exchange_payloads(&mut known);
    done
}

/// Finishes a run that is over, and takes it out of its task. If memory runs out, the flag is set before the answer.
// Not inlined into `poll`, which would otherwise clear the stack space of a whole run each time.
#[inline(never)]
fn finish<G: Gate, S: Ends>(
    stop: &StopFlag,
    running: &mut Option<Running<G, S>>,
) -> Result<FinishedTask<S>, PeerFault>
    requires kept { IfSome running.old (IsKept S.Ends) }
    requires over { IfSome running.old IsOver }
    ensures life { IfSome running.old (λ t. IfOk result (λ f. IsLife S.Ends (seat_of t) t.first.value f)) }
    ensures ends { IfSome running.old (λ t. IfOk result (λ f. f.ends ≡ t.ends)) }
    ensures taken { running.new ≡ None }
    ensures memory { IfSome running.old (λ t. IfErr result (λ fault. number_of fault ≡ 22)) }
    ensures fault { IfSome running.old (λ t. IfErr result (IsOfFlag stop.now)) }
{
    let Some(mut life) = running.take() else {
        return Err(PeerFault::Over);
    };
    match life.final_state() {
        Ok(state) => Ok(life.finish(state)),
        Err(_) => Err(PeerFault::NoMemory(stop.set())),
    }
}

/// Drops a run that goes no further.
// Not inlined into `poll`: the reason is that of `finish`.
#[inline(never)]
fn give_up<G: Gate, S: Ends>(running: &mut Option<Running<G, S>>)
    ensures { running.new ≡ None }
{
    *running = None;
}
