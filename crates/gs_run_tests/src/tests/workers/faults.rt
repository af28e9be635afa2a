//! What ends a run without outputs.
ghost use Rattle.std.specs.Prelude.{◌≤◌};

use futures::Future;
use futures::task::{Context, Poll};
use gs_workers::{StopFlag, WorkerFault, run_all};
use std::alloc::{Alloc, AllocError, AllocGlobal, Global};
use std::io;
use std::random::RandomSource;
use std::sync::Wait;
use std::sync::atomic::{AtomicU64, Ordering};
use std::test::*;
use std::thread::Threads;

/// A runtime whose source of randomness fails the first time. Each thread needs it before it drives futures.
#[derive(Drop)]
struct FailsFirst<R> {
    inner: R,
    draws: AtomicU64,
}

impl<R: Threads> Threads for FailsFirst<R> {}

impl<R: Wait> Wait for FailsFirst<R> {}

impl<R: Alloc> Alloc for FailsFirst<R> {
    type A = R::A;

    fn alloc(&self) -> R::A {
        self.inner.alloc()
    }
}

impl<R: RandomSource> RandomSource for FailsFirst<R> {
    fn fill_bytes(&self, buf: &mut [u8]) -> io::Result<()> {
        if self.draws.fetch_add(1, Ordering::SeqCst) == 0 {
            return Err(io::Error::from(io::ErrorKind::Unsupported));
        }
        self.inner.fill_bytes(buf)
    }
}

/// How many of the futures that wait for a flag ended by it, and how many in vain.
#[derive(Drop)]
struct EndCounts {
    by_flag: AtomicU64,
    in_vain: AtomicU64,
}

/// A future that ends once the flag is set. After very many polls it ends in vain.
#[derive(Drop)]
struct Waiting<'w> {
    stop: &'w StopFlag,
    ends: &'w EndCounts,
    polls: u32,
}

impl<'w> Future for Waiting<'w> {
    type Output = ();

    fn poll(&mut self, cx: &mut Context<'_>) -> Poll<()> {
        if self.stop.is_set() {
            self.ends.by_flag.fetch_add(1, Ordering::SeqCst);
            return Poll::Ready(());
        }
        if self.polls == 0 {
            self.ends.in_vain.fetch_add(1, Ordering::SeqCst);
            return Poll::Ready(());
        }
        self.polls -= 1;
        cx.yield_now()
    }
}

fn futures_that_wait<'w>(
    alloc: Global,
    count: u64,
    stop: &'w StopFlag,
    ends: &'w EndCounts,
) -> Result<Vec<Waiting<'w>>, AllocError> {
    let mut futures = Vec::new(alloc);
    for _ in 0..count {
        futures.push(Waiting {
            stop,
            ends,
            polls: 10_000_000,
        })?;
    }
    Ok(futures)
}

/// Whether `workers` workers, each with one future that waits for the flag, end with `NoThread` if one of them has no random
/// bytes. Each of the other futures must end by the flag.
fn a_thread_is_missing<R>(rt: R, workers: usize) -> Result<bool, AllocError>
where
    R: Threads + Wait + RandomSource + AllocGlobal + Sync + Drop,
    requires { 1 ≤ workers }
{
    let stop = StopFlag::new(rt.alloc())?;
    let ends = EndCounts {
        by_flag: AtomicU64::new(0),
        in_vain: AtomicU64::new(0),
    };
    let rt = FailsFirst {
        inner: rt,
        draws: AtomicU64::new(0),
    };
    let futures = futures_that_wait(rt.alloc(), workers as u64, &stop, &ends)?;
    let fault = run_all(&rt, workers, &stop, futures).err();
    Ok(
        stop.is_set()
            && matches!(fault, Some(WorkerFault::NoThread(_)))
            && ends.by_flag.load(Ordering::SeqCst) == workers as u64 - 1
            && ends.in_vain.load(Ordering::SeqCst) == 0,
    )
}

#[test]
fn a_thread_that_cannot_wait_stops_the_others(rt: HostRuntime) -> Result<(), Fail> {
    for workers in 1..4 {
        assert!(rt; a_thread_is_missing(&rt, workers)?);
    }
    Ok(())
}
