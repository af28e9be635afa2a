//! A gate that a task passes at each round.
use crate::tests::peer::cases::{SCRIPT, SUBSCRIBER};
use crate::tests::peer::items::{lines, said};
use crate::tests::peer::made::{ONE, flag, lists, payloads, task_in};
use futures::executor::block_on;
use gs_peer::{Gate, Surroundings};
use std::sync::Arc;
use std::sync::atomic::{AtomicU64, Ordering};
use std::test::*;

/// The workers and rounds of all calls so far, two digits each.
#[derive(Drop)]
pub struct Turns {
    pub seen: Arc<AtomicU64>,
}

impl Gate for Turns {
    fn begin_round(&self, worker: usize, round: u64) {
        let turn = round.wrapping_add((worker as u64).wrapping_mul(10));
        let before = self.seen.load(Ordering::SeqCst);
        self.seen.store(
            before.wrapping_mul(100).wrapping_add(turn),
            Ordering::SeqCst,
        );
    }
}

/// A gate hears of each round, once, in order, with the worker: of worker 4 in rounds 0, 1 and 2.
#[test]
fn a_gate_hears_of_each_round(rt: HostRuntime) -> Result<(), Fail> {
    let seen = Arc::new(rt.alloc(), AtomicU64::new(0))?;
    let surroundings = Surroundings {
        ends: lists(rt.alloc(), ONE.other, said(rt.alloc(), SUBSCRIBER)?, 10, 0)?,
        gate: Turns {
            seen: seen.clone()?,
        },
        stop: flag(rt.alloc())?,
        payloads: payloads(rt.alloc())?,
    };
    let task = task_in(rt.alloc(), ONE, lines(rt.alloc(), SCRIPT)?, 2, surroundings)?;
    assert!(rt; block_on(&rt, task)?.is_ok());
    assert_eq!(rt; seen.load(Ordering::SeqCst), 404142);
    Ok(())
}
