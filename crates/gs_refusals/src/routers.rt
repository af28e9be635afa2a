//! Routers: two that do the same. The second may be short of memory.
use crate::moments::{Moment, TraceEnd};
use crate::seen::Seen;
use gs_base::{Mark, Millis, PeerNo, Seq, Topic};
use gs_router::{Router, RouterFault};
use gs_router_testkit::Call::{
    Decay, EndRound, Fault, Gone, HangUp, Hear, Heartbeat, Publish, Raw, Shut, Subscribe,
    Unsubscribe,
};
use gs_router_testkit::{Call, Case, CasePart, Player};
use gs_rules::{Refusal, StoredEntry};
use std::alloc::{AllocError, Global};

/// Each call of a router; some of them may also be refused for another reason, and some have nothing to do.
static CALLS: [Call<'static>; 15] = [
    Hear(1, &[CasePart::On("a")]),
    Hear(99, &[CasePart::On("a")]),
    Subscribe("b"),
    Subscribe("a"),
    Unsubscribe("a"),
    Publish("a", b"xyz"),
    HangUp(1),
    HangUp(99),
    Raw(1, &[0]),
    Gone(1),
    Fault(1),
    Heartbeat,
    Decay,
    EndRound(0),
    Shut,
];

/// The most neighbours that a case has.
static NEIGHBOURS: [u16; 13] = [1, 2, 3, 4, 5, 6, 7, 8, 9, 10, 11, 12, 13];

// ---- what a router says about itself

/// What a router says about itself, besides its entries.
#[derive(Debug, Drop, PartialEq, Eq)]
struct Reading {
    entries: usize,
    last_moment: Millis,
    ups: u64,
    scores: Seq<(PeerNo, i128)>,
    meshes: Seq<(Topic, PeerNo)>,
}

/// Which neighbours are up, as the digits of a number.
fn ups_of(router: &Router) -> u64 {
    let mut digits = 0u64;
    for number in &NEIGHBOURS {
        digits = digits
            .wrapping_mul(2)
            .wrapping_add(u64::from(router.is_up(PeerNo(*number))));
    }
    digits
}

fn told(router: &Router, now: Millis) -> Result<Reading, AllocError> {
    Ok(Reading {
        entries: router.trace().entries().len(),
        last_moment: router.last_moment(),
        ups: ups_of(router),
        scores: router.scores(now)?,
        meshes: router.meshes()?,
    })
}

/// How many RPCs entries send.
fn sends_in(entries: &[StoredEntry]) -> usize {
    let mut count = 0usize;
    for entry in entries {
        count = count.saturating_add(entry.sends().len());
    }
    count
}

/// How often an entry charges a neighbour for its behaviour.
fn charges_of(entry: &StoredEntry) -> usize {
    let mut count = 0usize;
    for mark in entry.marks() {
        if let Mark::Misbehaviour(_) = mark {
            count = count.saturating_add(1);
        }
    }
    count
}

fn charges_in(entries: &[StoredEntry]) -> usize {
    let mut count = 0usize;
    for entry in entries {
        count = count.saturating_add(charges_of(entry));
    }
    count
}

/// Whether two entries say the same.
fn are_one(entry: &StoredEntry, other: &StoredEntry) -> bool {
    let is_event = entry.at() == other.at() && entry.event() == other.event();
    let is_told = entry.sends() == other.sends() && entry.delivered() == other.delivered();
    is_event && is_told && entry.promise() == other.promise() && entry.marks() == other.marks()
}

/// Whether these are the members of meshes, in order.
fn are_members(meshes: &[(Topic, PeerNo)], numbers: &[u16]) -> bool {
    let pairs = meshes.iter().zip(numbers);
    let mut are = meshes.len() == numbers.len();
    for ((_, peer), number) in pairs {
        are = are && peer.0 == *number;
    }
    are
}

fn has_ended(router: &Router, ends: &TraceEnd) -> Result<bool, AllocError> {
    let entries = router.trace().entries();
    let meshes = router.meshes()?;
    let are_sent = sends_in(entries) == ends.sends && charges_in(entries) == ends.charges;
    Ok(entries.len() == ends.entries && are_sent && are_members(meshes.as_slice(), ends.members))
}

// ---- two routers

/// Two routers of a case. The first one shows what the second one must leave.
#[derive(Drop)]
struct Pair {
    whole: Player,
    tried: Player,
}

fn pair_of(alloc: Global, case: &Case<'_>) -> Result<Pair, AllocError> {
    let whole = Player::new(alloc, case)?;
    let tried = Player::new(alloc, case)?;
    Ok(Pair { whole, tried })
}

impl Pair {
    /// Whether the second one's entries are the first of the first one's.
    fn is_front(&self) -> bool {
        let whole = self.whole.router().trace().entries();
        let tried = self.tried.router().trace().entries();
        let mut is_front = tried.len() <= whole.len();
        for (entry, other) in tried.iter().zip(whole) {
            is_front = is_front && are_one(entry, other);
        }
        is_front
    }

    /// Whether the second one, which had this many entries, was left with a front of the entries of the first one. That
    /// front must lack an entry of the call that was broken off.
    fn is_broken_off(&self, before: usize) -> bool {
        let left = self.tried.router().trace().entries().len();
        let whole = self.whole.router().trace().entries().len();
        before <= left && left < whole && self.is_front()
    }

    /// Whether the second one refuses a call as stopped and does nothing. `before` is what it said about itself before.
    fn refuses(
        &mut self,
        before: &Reading,
        now: Millis,
        call: Call<'_>,
    ) -> Result<bool, AllocError> {
        match self.tried.answer(now, call)? {
            Err(RouterFault::Refused(Refusal::Stopped)) => {}
            _ => return Ok(false),
        }
        let after = told(self.tried.router(), now)?;
        Ok(after == *before && self.is_front())
    }

    /// Whether the second one refuses each further call.
    fn refuses_all(&mut self, now: Millis) -> Result<bool, AllocError> {
        let before = told(self.tried.router(), now)?;
        for call in &CALLS {
            if !self.refuses(&before, now, *call)? {
                return Ok(false);
            }
        }
        Ok(true)
    }

    /// What is seen of the second one, which had this many entries and ran out of memory.
    fn seen_broken_off(&mut self, before: usize, now: Millis) -> Result<Seen, AllocError> {
        if !self.is_broken_off(before) {
            return Ok(Seen::Wrong);
        }
        Ok(Seen::after(self.refuses_all(now)?))
    }

    /// Has both do this.
    fn step(&mut self, now: Millis, call: Call<'_>) -> Result<Seen, AllocError> {
        match self.whole.answer(now, call)? {
            Ok(()) => {}
            Err(RouterFault::NoMemory) => return Ok(Seen::NoMemory),
            Err(_) => return Ok(Seen::Wrong),
        }
        let before = self.tried.router().trace().entries().len();
        match self.tried.answer(now, call)? {
            Ok(()) => Ok(Seen::Whole),
            Err(RouterFault::NoMemory) => self.seen_broken_off(before, now),
            Err(_) => Ok(Seen::Wrong),
        }
    }

    /// What is seen of both in the end.
    fn end(&self, moment: &Moment) -> Result<Seen, AllocError> {
        let now = self.whole.router().last_moment();
        let are_same = told(self.whole.router(), now)? == told(self.tried.router(), now)?;
        let has_ended = has_ended(self.whole.router(), &moment.ends)?;
        Ok(match are_same && has_ended && self.is_front() {
            true => Seen::Whole,
            false => Seen::Wrong,
        })
    }

    fn play(&mut self, moment: &Moment) -> Result<Seen, AllocError> {
        for (at, call) in moment.calls {
            let seen = self.step(Millis(*at), *call)?;
            if seen != Seen::Whole {
                return Ok(seen);
            }
        }
        self.end(moment)
    }
}

/// Tries each call of a moment of a router.
pub fn try_moment(alloc: Global, moment: &Moment) -> Seen {
    let Ok(mut pair) = pair_of(alloc, &moment.case) else {
        return Seen::NoMemory;
    };
    let seen = pair.play(moment);
    drop(pair);
    match seen {
        Ok(seen) => seen,
        Err(_) => Seen::NoMemory,
    }
}
