//! Runs over links: which worker runs which peer, and what happens where a worker cannot wait.
ghost use Rattle.std.specs.Prelude.{IfOk};
ghost use Rattle.gs_plan.specs.Plans.{IsInRange};

use gs_net::run_net;
use gs_peer::{Gate, NoGate};
use gs_plan::{Limits, Plan};
use gs_scenario::read_plan;
use gs_seats::NetFault;
use std::alloc::{Alloc, AllocError, AllocGlobal, Global};
use std::io;
use std::random::RandomSource;
use std::sync::Wait;
use std::sync::atomic::{AtomicU64, Ordering};
use std::test::*;
use std::thread::Threads;

/// Rounds 0 to 5 of 100 milliseconds, and three peers on two workers.
const PEERS: &str = "round_ms = 100\nrounds = 5\nworkers = 2\ncapacity = 8\nseed = 1\n\
    topic = [{name = \"news\"}]\npeer = [{name = \"a\"}, {name = \"b\"}, {name = \"c\"}]\n";

fn plan(alloc: Global) -> Result<Plan, AllocError>
    ensures { IfOk result (λ plan. IsInRange plan) }
{
    match read_plan(alloc, Limits::Standard, PEERS) {
        Ok(plan) => Ok(plan),
        Err(_) => Err(AllocError),
    }
}

/// Counts the rounds that are begun on worker 0, on worker 1 and on others.
#[derive(Drop)]
struct Turns {
    first: AtomicU64,
    second: AtomicU64,
    others: AtomicU64,
}

impl Gate for Turns {
    fn begin_round(&self, worker: usize, _round: u64) {
        let count = match worker {
            0 => &self.first,
            1 => &self.second,
            _ => &self.others,
        };
        count.fetch_add(1, Ordering::SeqCst);
    }
}

/// Whether three peers begin twelve rounds on the first of two workers, and six on the second.
fn takes_turns<R>(rt: &R) -> Result<bool, AllocError>
where
    R: Threads + Wait + RandomSource + AllocGlobal + Sync + Send + Copy,
{
    let plan = plan(rt.alloc())?;
    let turns = Turns {
        first: AtomicU64::new(0),
        second: AtomicU64::new(0),
        others: AtomicU64::new(0),
    };
    let ended = run_net(rt, &plan, &turns);
    Ok(
        ended.is_ok()
            && turns.first.load(Ordering::SeqCst) == 12
            && turns.second.load(Ordering::SeqCst) == 6
            && turns.others.load(Ordering::SeqCst) == 0,
    )
}

#[test]
fn peers_take_turns_on_workers(rt: HostRuntime) -> Result<(), Fail> {
    assert!(rt; takes_turns(&rt)?);
    Ok(())
}

/// A runtime without random bytes, which a thread needs before it drives its peers.
#[derive(Clone, Copy)]
struct Unseeded<R>(R);

impl<R: Threads> Threads for Unseeded<R> {}

impl<R: Wait> Wait for Unseeded<R> {}

impl<R: Alloc> Alloc for Unseeded<R> {
    type A = R::A;

    fn alloc(&self) -> R::A {
        self.0.alloc()
    }
}

impl<R> RandomSource for Unseeded<R> {
    fn fill_bytes(&self, _buf: &mut [u8]) -> io::Result<()> {
        Err(io::Error::from(io::ErrorKind::Unsupported))
    }
}

#[test]
fn a_run_without_a_thread_has_no_report(rt: HostRuntime) -> Result<(), AllocError> {
    let plan = plan(rt.alloc())?;
    let fault = run_net(&Unseeded(rt), &plan, &NoGate).err();
    drop(plan);
    assert_eq!(rt; fault, Some(NetFault::NoThread));
    Ok(())
}
