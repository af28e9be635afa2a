//! Which messages were seen.
ghost use Rattle.std.specs.Prelude.{◌≡◌};

use crate::seen::Seen;
use gs_base::{Millis, MsgId, PeerNo, Verdict};
use gs_cache::SeenCache;
use std::alloc::{AllocError, Global};

/// Marks and notes of messages, by a number, at the moment 0.
#[derive(Clone, Copy)]
enum Call {
    Mark(u8, Verdict),
    Note(u8, u16),
}

static CALLS: [Call; 10] = [
    Call::Mark(1, Verdict::Accept),
    Call::Note(1, 1),
    Call::Mark(2, Verdict::Reject),
    Call::Mark(3, Verdict::Ignore),
    Call::Note(2, 1),
    Call::Note(1, 2),
    Call::Note(1, 3),
    Call::Note(1, 4),
    Call::Note(1, 5),
    Call::Mark(1, Verdict::Ignore),
];

/// What a cache says about three messages and two neighbours.
#[derive(Clone, Copy, Debug, PartialEq, Eq)]
struct Reading {
    held: usize,
    verdicts: (Option<Verdict>, Option<Verdict>, Option<Verdict>),
    is_first_near: (bool, bool),
    is_second_near: (bool, bool),
}

fn id(number: u8) -> MsgId {
    MsgId([number; 32])
}

/// Whether a delivery of a message is near, for each of the two neighbours.
fn near(cache: &SeenCache, number: u8) -> (bool, bool) {
    (
        cache.is_near(&id(number), PeerNo(1), Millis(5), Millis(10)),
        cache.is_near(&id(number), PeerNo(2), Millis(5), Millis(10)),
    )
}

fn told(cache: &SeenCache) -> Reading {
    Reading {
        held: cache.held(),
        verdicts: (
            cache.seen(&id(1), Millis(5)),
            cache.seen(&id(2), Millis(5)),
            cache.seen(&id(3), Millis(5)),
        ),
        is_first_near: near(cache, 1),
        is_second_near: near(cache, 2),
    }
}

fn perform(cache: &mut SeenCache, call: &Call) -> Result<(), AllocError>
    requires early { cache.old.moment ≡ 0 }
    ensures { cache.new.moment ≡ 0 }
{
    match call {
        Call::Mark(number, verdict) => cache.mark(id(*number), Millis(0), *verdict),
        Call::Note(number, peer) => cache.note(&id(*number), PeerNo(*peer)),
    }
}

fn try_one(cache: &mut SeenCache, call: &Call) -> Seen
    requires early { cache.old.moment ≡ 0 }
    ensures { cache.new.moment ≡ 0 }
{
    let before = told(cache);
    match perform(cache, call) {
        Ok(()) => Seen::Whole,
        Err(_) => Seen::after(told(cache) == before),
    }
}

/// Tries each call of a cache of what was seen that needs memory.
pub fn try_sightings(alloc: Global) -> Seen {
    let mut cache = SeenCache::new(alloc, Millis(1_000));
    let mut seen = Seen::Whole;
    for call in &CALLS {
        seen = seen.and(try_one(&mut cache, call));
    }
    // (enough for the table to grow while it holds the first ones)
    for number in 4..100u8 {
        seen = seen.and(try_one(&mut cache, &Call::Mark(number, Verdict::Accept)));
    }
    seen
}
