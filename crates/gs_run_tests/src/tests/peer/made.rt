//! Peers with one neighbour, and ends to it.
ghost use Rattle.std.specs.Prelude.{◌≡◌, ◌≤◌, ◌<◌, ◌+◌, ◌*◌, ◌^◌, unsigned_abs, pos, [], ◌∷◌, IfOk, IfSome, true, false};
ghost use Rattle.std.specs.List.{All, AllByRecursion};
ghost use Rattle.gs_base.specs.Names.{peers_of};
ghost use Rattle.gs_base.specs.declared.names.PeerNo.{PeerNo as PeerNoValue};
ghost use Rattle.gs_base.specs.declared.neighbour.Neighbour.{Neighbour as NeighbourValue};
ghost use Rattle.gs_params.specs.Params.{AreInRange};
ghost use Rattle.gs_params.specs.Picks.{IsAscending};
ghost use Rattle.gs_link.specs.Items.{IsSendable};
ghost use Rattle.gs_ends.specs.Ends.{has};
ghost use Rattle.gs_ends.specs.Lists.{accepted_in_lists, joints_in_lists, taken_in_lists};
ghost use Rattle.gs_rules.specs.Peers.{links_of};
ghost use Rattle.gs_peer.specs.Task.{CanPoll, HasJoints};

use bytes::Bytes;
use futures::Future;
use futures::task::{Context, Poll};
use gs_base::{Neighbour, PeerNo};
use gs_cache::Payloads;
use gs_ends::{Ends, ListEnds};
use gs_link::Item;
use gs_params::{Params, SeededWords};
use gs_peer::{Assignment, Gate, NoGate, PeerTask, Surroundings};
use gs_plan::Line;
use gs_player::Agenda;
use gs_router::Router;
use gs_workers::StopFlag;
use std::alloc::{AllocError, Global};
use std::sync::{Arc, Mutex};

/// A peer and its neighbour.
#[derive(Clone, Copy, Debug)]
pub struct Pair {
    pub me: PeerNo,
    pub other: PeerNo,
}

/// Peer 1 with neighbour 2.
pub const ONE: Pair = Pair {
    me: PeerNo(1),
    other: PeerNo(2),
};

/// A neighbour that dialled, at no address.
fn neighbour(peer: PeerNo) -> Neighbour
    ensures peer { result.peer ≡ peer }
    ensures app { result.app ≡ pos 0 }
{
    Neighbour::new(peer, Bytes::new())
}

/// Parameters that pass their checks. With any others the test fails.
fn checked(params: Params) -> Result<Params, AllocError>
    ensures { IfOk result AreInRange }
{
    match params.check() {
        Ok(params) => Ok(params),
        Err(_) => Err(AllocError),
    }
}

/// Neighbours of these numbers.
fn neighbours(alloc: Global, numbers: &[PeerNo]) -> Result<Vec<Neighbour>, AllocError>
    ensures peers { IfOk result (λ list. peers_of list.items ≡ numbers.now) }
    ensures apps { IfOk result (λ list. All (λ (n : NeighbourValue). unsigned_abs n.app ≤ 10 ^ 12) list.items) }
{
    let mut list = Vec::new(alloc);
    for number in numbers {
        let one = neighbour(*number);
        list.push(one)?;
    }
    Ok(list)
}

/// A router with these neighbours that has done nothing.
fn router(alloc: Global, numbers: &[PeerNo]) -> Result<Router, AllocError>
    requires { IsAscending numbers.now }
    ensures links { IfOk result (λ router. links_of router.peer ≡ numbers.now) }
    ensures trace { IfOk result (λ router. router.trace ≡ []) }
    ensures runs { IfOk result (λ router. router.is_stopped ≡ false) }
{
    let params = checked(Params::new(alloc))?;
    let list = neighbours(alloc, numbers)?;
    Router::new(alloc, params, list)
}

/// What a peer on worker 4 is given with these neighbours and lines, in rounds of 100 milliseconds up to `rounds`.
pub fn assignment(
    alloc: Global,
    number: PeerNo,
    neighbours: Vec<PeerNo>,
    lines: Vec<(usize, Line)>,
    rounds: u64,
) -> Result<Assignment, AllocError>
    ensures neighbours { IfOk result (λ assignment. assignment.neighbours ≡ neighbours) }
    ensures rounds { IfOk result (λ assignment. assignment.rounds ≡ rounds) }
    ensures length { IfOk result (λ assignment. assignment.round_ms ≡ 100) }
    ensures phase { IfOk result (λ assignment. assignment.phase_ms ≡ 0) }
{
    let lines = Agenda::of(alloc, lines)?;
    Ok(Assignment {
        number,
        neighbours,
        lines,
        round_ms: 100,
        rounds,
        phase_ms: 0,
        worker: 4,
    })
}

/// The task of a peer that is given this.
pub fn task_given<G: Gate, S: Ends>(
    alloc: Global,
    assignment: Assignment,
    surroundings: Surroundings<G, S>,
) -> Result<PeerTask<G, S>, AllocError>
    requires small { assignment.rounds * assignment.round_ms + assignment.phase_ms < 2 ^ 64 }
    requires ascending { IsAscending assignment.neighbours.items }
    requires known { AllByRecursion (λ q. has (S.joints surroundings.ends) q ≡ true) assignment.neighbours.items }
    requires accepted { (q : PeerNoValue) → S.accepted surroundings.ends q ≡ [] }
    requires taken { (q : PeerNoValue) → S.taken surroundings.ends q ≡ [] }
    ensures can { IfOk result (λ task. CanPoll S.Ends task) }
    ensures ends { IfOk result (λ task. HasJoints S.joints (S.joints surroundings.ends) task) }
{
    let words = SeededWords::new(Vec::new(alloc), 1, assignment.number);
    // (last, so that no exit has a router to drop)
    let router = router(alloc, &assignment.neighbours)?;
    match PeerTask::new(alloc, assignment, router, words, surroundings) {
        Ok(task) => Ok(task),
        Err(_) => Err(AllocError),
    }
}

/// The task of a peer on worker 4 with one neighbour and these lines, in rounds of 100 milliseconds up to `rounds`.
pub fn task_in<G: Gate, S: Ends>(
    alloc: Global,
    pair: Pair,
    lines: Vec<(usize, Line)>,
    rounds: u64,
    surroundings: Surroundings<G, S>,
) -> Result<PeerTask<G, S>, AllocError>
    requires rounds { rounds ≤ 100_000 }
    requires known { has (S.joints surroundings.ends) pair.other ≡ true }
    requires accepted { (q : PeerNoValue) → S.accepted surroundings.ends q ≡ [] }
    requires taken { (q : PeerNoValue) → S.taken surroundings.ends q ≡ [] }
    ensures can { IfOk result (λ task. CanPoll S.Ends task) }
    ensures ends { IfOk result (λ task. HasJoints S.joints (S.joints surroundings.ends) task) }
{
    let neighbours = vec![in alloc; pair.other]?;
    let given = assignment(alloc, pair.me, neighbours, lines, rounds)?;
    let task = task_given(alloc, given, surroundings)?;
    Ok(task)
}

/// Payloads that nobody else shares. None is known yet.
pub fn payloads(alloc: Global) -> Result<Arc<Mutex<Payloads>>, AllocError> {
    let payloads = Arc::new(alloc, Mutex::new(Payloads::new(alloc)))?;
    Ok(payloads)
}

/// A flag that nobody has set.
pub fn flag(alloc: Global) -> Result<Arc<StopFlag>, AllocError> {
    let stop = Arc::new(alloc, StopFlag::new(alloc)?)?;
    Ok(stop)
}

/// These ends and this gate, a flag that nobody sets, and payloads that nobody else shares.
pub fn surrounded<G: Gate, S: Ends>(
    alloc: Global,
    ends: S,
    gate: G,
) -> Result<Surroundings<G, S>, AllocError>
    ensures { IfOk result (λ surroundings. surroundings.ends ≡ ends) }
{
    Ok(Surroundings {
        ends,
        gate,
        stop: flag(alloc)?,
        payloads: payloads(alloc)?,
    })
}

/// `task_in` with a gate that does nothing and a flag that nobody sets.
pub fn task<S: Ends>(
    alloc: Global,
    pair: Pair,
    lines: Vec<(usize, Line)>,
    rounds: u64,
    ends: S,
) -> Result<PeerTask<NoGate, S>, AllocError>
    requires rounds { rounds ≤ 100_000 }
    requires known { has (S.joints ends) pair.other ≡ true }
    requires accepted { (q : PeerNoValue) → S.accepted ends q ≡ [] }
    requires taken { (q : PeerNoValue) → S.taken ends q ≡ [] }
    ensures can { IfOk result (λ task. CanPoll S.Ends task) }
    ensures ends { IfOk result (λ task. HasJoints S.joints (S.joints ends) task) }
{
    let surroundings = Surroundings {
        ends,
        gate: NoGate,
        stop: flag(alloc)?,
        payloads: payloads(alloc)?,
    };
    task_in(alloc, pair, lines, rounds, surroundings)
}

/// Whether each of these items may be sent.
pub fn are_sendable(items: &[Item]) -> bool
    ensures { result ≡ true → All IsSendable items.now }
{
    for item in items {
        if !item.is_sendable() {
            return false;
        }
    }
    true
}

/// Ends to a neighbour, from which these items come.
pub fn lists(
    alloc: Global,
    other: PeerNo,
    items: Vec<Item>,
    room: usize,
    every: u64,
) -> Result<ListEnds, AllocError>
    ensures known { IfOk result (λ ends. has (joints_in_lists ends) other ≡ true) }
    ensures accepted { IfOk result (λ ends. (q : PeerNoValue) → accepted_in_lists ends q ≡ []) }
    ensures taken { IfOk result (λ ends. (q : PeerNoValue) → taken_in_lists ends q ≡ []) }
{
    if !are_sendable(&items) {
        return Err(AllocError);
    }
    let inbound = vec![in alloc; (other, items)]?;
    let ends = ListEnds::new(alloc, inbound, room, every)?;
    Ok(ends)
}

/// A future that gives up after `left` polls.
#[derive(Drop)]
pub struct AtMost<F: Future> {
    pub inner: F,
    pub left: u32,
}

impl<F: Future> Future for AtMost<F> {
    type Output = Option<F::Output>;

    ghost can_poll = { λ s. F.can_poll s.inner };

    ghost gives = { λ s given. IfSome given (F.gives s.inner) };

    fn poll(&mut self, cx: &mut Context<'_>) -> Poll<Option<F::Output>> {
        if self.left == 0 {
            return Poll::Ready(None);
        }
        self.left -= 1;
        match self.inner.poll(cx) {
            Poll::Ready(given) => Poll::Ready(Some(given)),
            Poll::Pending => Poll::Pending,
        }
    }
}
