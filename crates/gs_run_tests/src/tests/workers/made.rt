//! Futures that give their numbers, and futures that meet.
ghost use Rattle.std.specs.Prelude.{◌≡◌, ◌≤◌};

use futures::Future;
use futures::task::{Context, Poll};
use gs_workers::{Ran, StopFlag, WorkerFault, run_all};
use std::alloc::{AllocError, AllocGlobal, Global};
use std::random::RandomSource;
use std::sync::Wait;
use std::sync::atomic::{AtomicU64, Ordering};
use std::thread;
use std::thread::Threads;

/// A future that gives its number after this many polls.
#[derive(Drop)]
pub struct Numbered {
    pub number: u16,
    pub polls: u8,
}

impl Future for Numbered {
    type Output = u16;

    ghost gives = { λ future given. given ≡ future.number };

    fn poll(&mut self, cx: &mut Context<'_>) -> Poll<u16> {
        if self.polls == 0 {
            return Poll::Ready(self.number);
        }
        self.polls -= 1;
        cx.yield_now()
    }
}

/// Futures with the numbers from 0 on. Each waits for one poll more than the one before it.
pub fn first_numbers(alloc: Global, count: u8) -> Result<Vec<Numbered>, AllocError> {
    let mut futures = Vec::new(alloc);
    for number in 0..count {
        futures.push(Numbered {
            number: u16::from(number),
            polls: number,
        })?;
    }
    Ok(futures)
}

/// What `count` futures give on `workers` workers, and on how many threads they ran.
pub fn given<R>(rt: &R, workers: usize, count: u8, stop: &StopFlag) -> Result<Ran<u16>, WorkerFault>
where
    R: Threads + Wait + RandomSource + AllocGlobal + Sync,
    requires { 1 ≤ workers }
{
    let Ok(futures) = first_numbers(rt.alloc(), count) else {
        return Err(WorkerFault::NoMemory(stop.set()));
    };
    run_all(rt, workers, stop, futures)
}

/// A place where four futures wait for each other.
#[derive(Drop)]
pub struct Meeting {
    here: AtomicU64,
}

impl Meeting {
    pub fn new() -> Meeting {
        Meeting {
            here: AtomicU64::new(0),
        }
    }

    /// Comes to the place, and waits until all four are there. Returns false if that takes too long.
    fn wait(&self, number: u32) -> bool {
        self.here.fetch_or(1 << (number % 4), Ordering::SeqCst);
        for _ in 0..10_000_000u32 {
            if self.here.load(Ordering::SeqCst) == 0b1111 {
                return true;
            }
            thread::yield_now();
        }
        false
    }
}

/// Whether the others were at the meeting while this future was.
#[derive(Drop)]
pub struct Guest<'m> {
    pub number: u32,
    pub meeting: &'m Meeting,
}

impl<'m> Future for Guest<'m> {
    type Output = bool;

    fn poll(&mut self, _cx: &mut Context<'_>) -> Poll<bool> {
        Poll::Ready(self.meeting.wait(self.number))
    }
}
