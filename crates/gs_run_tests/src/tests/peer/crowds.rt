//! Peers with many neighbours, and how far they come in a number of polls.
ghost use Rattle.std.specs.Prelude.{◌≡◌, ◌≤◌, [], IfOk, true};
ghost use Rattle.std.specs.List.{All, AllByRecursion};
ghost use Rattle.gs_base.specs.declared.names.PeerNo.{PeerNo as PeerNoValue};
ghost use Rattle.gs_params.specs.Picks.{IsAscending};
ghost use Rattle.gs_link.specs.Items.{IsSendable};
ghost use Rattle.gs_ends.specs.Ends.{has};
ghost use Rattle.gs_ends.specs.Lists.{BringsSendable, accepted_in_lists, joints_in_lists, list_ends, senders_of, taken_in_lists};
ghost use Rattle.gs_peer.specs.Task.{CanPoll};

use crate::tests::peer::gates::Turns;
use crate::tests::peer::items::{Word, lines, said};
use crate::tests::peer::made::{AtMost, are_sendable, assignment, surrounded, task_given};
use futures::executor::block_on;
use gs_base::PeerNo;
use gs_ends::ListEnds;
use gs_link::Item;
use gs_peer::{PeerTask, Surroundings};
use gs_router_testkit::Call;
use std::alloc::{AllocError, AllocGlobal, Global};
use std::io;
use std::process::Abort;
use std::random::RandomSource;
use std::sync::atomic::{AtomicU64, Ordering};
use std::sync::{Arc, Wait};
use std::test::*;

/// A peer with many neighbours that all say the same, and how far it comes.
#[derive(Clone, Copy, Debug)]
struct Crowd<'a> {
    name: &'a str,
    /// How many neighbours it has; their numbers begin at 1.
    neighbours: u16,
    /// Its lines, each with its place in the plan and its round.
    script: &'a [(usize, u64, Call<'a>)],
    /// What each neighbour says, and then closes its link.
    hears: &'a [Word<'a>],
    /// The last round.
    rounds: u64,
    /// How many slots each neighbour accepts.
    room: usize,
    /// Every put whose count is a multiple of this is refused, and none where it is 0.
    every: u64,
    /// How often it is polled at most.
    polls: u32,
    /// Whether its run has ended then.
    ends: bool,
    /// The rounds that it has begun then on worker 4, two digits each.
    begun: u64,
}

/// Two rounds, with a neighbour that ends the first one and closes.
const TWO_ROUNDS: Crowd<'static> = Crowd {
    name: "",
    neighbours: 0,
    script: &[],
    hears: &[Word::Rounds(0, 0)],
    rounds: 1,
    room: 100,
    every: 0,
    polls: 1,
    ends: true,
    begun: 4041,
};

/// Two neighbours that accept one slot each, which the end of round 0 takes. From round 1 on a frame waits for each, and is
/// refused.
const FULL: Crowd<'static> = Crowd {
    name: "a frame that is refused keeps no turn, so each round is played",
    neighbours: 2,
    script: &[(0, 1, Call::Subscribe("a"))],
    hears: &[Word::Rounds(0, 2)],
    rounds: 3,
    room: 1,
    ends: false,
    begun: 40414243,
    ..TWO_ROUNDS
};

/// A step looks at one neighbour, and a poll has 64 steps. Round 0 takes two steps at the first of n neighbours and
/// one at each other. Round 1 is played when the last one is looked at. The end of the round and the close go out to it, and
/// then to each other one, in two steps each. In one step in between nobody has the turn. So a run takes
/// 2 + (n - 1) + 2 + 1 + 2 (n - 1) = 3 n + 2 steps: 53 with 17 neighbours, 101 with 33.
static CROWDS: &[Crowd<'static>] = &[
    Crowd {
        name: "one poll is enough for two rounds of 17 neighbours",
        neighbours: 17,
        ..TWO_ROUNDS
    },
    Crowd {
        name: "one poll plays both rounds of 33 neighbours, and does not tell all of it",
        neighbours: 33,
        ends: false,
        ..TWO_ROUNDS
    },
    Crowd {
        name: "two polls are enough for two rounds of 33 neighbours",
        neighbours: 33,
        polls: 2,
        ..TWO_ROUNDS
    },
    Crowd {
        name: "a put in three is refused, and what was refused is offered again to each of 33 neighbours",
        neighbours: 33,
        every: 3,
        polls: 10,
        ..TWO_ROUNDS
    },
    FULL,
    Crowd {
        name: "two polls more in which nothing moves play no round again",
        polls: 3,
        ..FULL
    },
];

/// The numbers from 1 to this one.
fn numbers(alloc: Global, count: u16) -> Result<Vec<PeerNo>, AllocError>
    ensures { IfOk result (λ numbers. IsAscending numbers.items) }
{
    let mut numbers = Vec::new(alloc);
    for below in 0..count {
        numbers.push(PeerNo(below + 1))?;
    }
    Ok(numbers)
}

/// What each neighbour says. The test fails if an item may not be sent.
fn words(alloc: Global, words: &[Word<'_>]) -> Result<Vec<Item>, AllocError>
    ensures { IfOk result (λ items. All IsSendable items.items) }
{
    let items = said(alloc, words)?;
    if !are_sendable(&items) {
        return Err(AllocError);
    }
    Ok(items)
}

/// What each of these neighbours says.
fn inbound(
    alloc: Global,
    numbers: &[PeerNo],
    hears: &[Word<'_>],
) -> Result<Vec<(PeerNo, Vec<Item>)>, AllocError>
    ensures senders { IfOk result (λ inbound. senders_of inbound.items ≡ numbers.now) }
    ensures size { IfOk result (λ inbound. All BringsSendable inbound.items) }
{
    let mut inbound = Vec::new(alloc);
    for number in numbers {
        let says = words(alloc, hears)?;
        inbound.push((*number, says))?;
    }
    Ok(inbound)
}

/// Ends to and from these neighbours.
fn ends(alloc: Global, numbers: &[PeerNo], crowd: &Crowd<'_>) -> Result<ListEnds, AllocError>
    requires { IsAscending numbers.now }
    ensures known { IfOk result (λ ends. AllByRecursion (λ q. has (joints_in_lists ends) q ≡ true) numbers.now) }
    ensures accepted { IfOk result (λ ends. (q : PeerNoValue) → accepted_in_lists ends q ≡ []) }
    ensures taken { IfOk result (λ ends. (q : PeerNoValue) → taken_in_lists ends q ≡ []) }
{
    let inbound = inbound(alloc, numbers, crowd.hears)?;
    let ends = ListEnds::new(alloc, inbound, crowd.room, crowd.every)?;
    Ok(ends)
}

/// The task of a peer in a crowd, which reports its rounds there.
fn task_in_crowd(
    alloc: Global,
    crowd: &Crowd<'_>,
    seen: Arc<AtomicU64>,
) -> Result<PeerTask<Turns, ListEnds>, AllocError>
    ensures { IfOk result (λ task. CanPoll list_ends task) }
{
    if crowd.rounds > 100_000 {
        return Err(AllocError);
    }
    let numbers = numbers(alloc, crowd.neighbours)?;
    let ends = ends(alloc, &numbers, crowd)?;
    let surroundings = surrounded(alloc, ends, Turns { seen })?;
    task_among(alloc, crowd, numbers, surroundings)
}

/// The task of a peer with these neighbours and surroundings.
fn task_among(
    alloc: Global,
    crowd: &Crowd<'_>,
    numbers: Vec<PeerNo>,
    surroundings: Surroundings<Turns, ListEnds>,
) -> Result<PeerTask<Turns, ListEnds>, AllocError>
    requires rounds { crowd.now.rounds ≤ 100_000 }
    requires ascending { IsAscending numbers.items }
    requires known { AllByRecursion (λ q. has (joints_in_lists surroundings.ends) q ≡ true) numbers.items }
    requires accepted { (q : PeerNoValue) → accepted_in_lists surroundings.ends q ≡ [] }
    requires taken { (q : PeerNoValue) → taken_in_lists surroundings.ends q ≡ [] }
    ensures { IfOk result (λ task. CanPoll list_ends task) }
{
    let lines = lines(alloc, crowd.script)?;
    let given = assignment(alloc, PeerNo(1000), numbers, lines, crowd.rounds)?;
    task_given(alloc, given, surroundings)
}

/// Whether a run in a crowd has ended after its polls, and which rounds it has begun.
fn comes_to<R>(rt: &R, crowd: &Crowd<'_>) -> io::Result<(bool, u64)>
where
    R: Wait + RandomSource + AllocGlobal,
{
    let seen = Arc::new(rt.alloc(), AtomicU64::new(0))?;
    let polled = AtMost {
        inner: task_in_crowd(rt.alloc(), crowd, seen.clone()?)?,
        left: crowd.polls,
    };
    match block_on(rt, polled)? {
        Some(Ok(_)) => Ok((true, seen.load(Ordering::SeqCst))),
        Some(Err(_)) => Err(io::Error::from(AllocError)),
        None => Ok((false, seen.load(Ordering::SeqCst))),
    }
}

#[test]
fn turns_come_round_in_a_crowd(rt: HostRuntime) -> Result<(), Fail> {
    for crowd in CROWDS {
        assert_eq!(rt;
            comes_to(&rt, crowd)?,
            (crowd.ends, crowd.begun),
            "{}",
            crowd.name
        );
    }
    Ok(())
}
