//! How neighbours stand.
ghost use Rattle.std.specs.Prelude.{◌≡◌, ◌≤◌, ◌^◌, unsigned_abs, IfOk};

use crate::seen::Seen;
use bytes::Bytes;
use gs_base::{Mark, Millis, MsgId, Neighbour, PeerNo, Topic};
use gs_params::Params;
use gs_score::{Kind, Scores};
use std::alloc::{AllocError, Global};

enum Call {
    First(u16),
    Near(u16),
    Invalid(u16),
    Deficit(u16),
    Misbehaviour(u16),
    Graft(u16),
}

static CALLS: [Call; 10] = [
    Call::First(1),
    Call::Graft(2),
    Call::Near(1),
    Call::Misbehaviour(1),
    Call::Deficit(2),
    Call::Invalid(1),
    Call::Graft(1),
    Call::Near(2),
    Call::Misbehaviour(2),
    Call::First(2),
];

/// What scores say about a neighbour: its score, its counters on a topic, and what it misses.
#[derive(Clone, Copy, Debug, PartialEq, Eq)]
struct Reading {
    score: i128,
    first: (u64, u64),
    near: (u64, u64),
    deficit: (u64, u64),
    invalid: (u64, u64),
    misbehaviour: (u64, u64),
    decayed: u64,
    missing: u64,
}

fn told_of(scores: &Scores, peer: PeerNo, topic: &Topic) -> Reading {
    Reading {
        score: scores.score(peer, Millis(5_000)),
        first: scores.stored(peer, topic, Kind::First),
        near: scores.stored(peer, topic, Kind::Near),
        deficit: scores.stored(peer, topic, Kind::Deficit),
        invalid: scores.stored(peer, topic, Kind::Invalid),
        misbehaviour: scores.stored_misbehaviour(peer),
        decayed: scores.misbehaviour(peer),
        missing: scores.missing(peer, topic, Millis(5_000)),
    }
}

fn told(scores: &Scores, topic: &Topic) -> (Reading, Reading) {
    (
        told_of(scores, PeerNo(1), topic),
        told_of(scores, PeerNo(2), topic),
    )
}

/// Makes the mark of a call, where it is one.
fn mark_of(alloc: Global, call: &Call) -> Result<Option<Mark>, AllocError> {
    let topic = topic(alloc)?;
    let id = MsgId([0; 32]);
    Ok(match call {
        Call::First(peer) => Some(Mark::First(PeerNo(*peer), topic, id)),
        Call::Near(peer) => Some(Mark::Near(PeerNo(*peer), topic, id)),
        Call::Invalid(peer) => Some(Mark::Invalid(PeerNo(*peer), topic)),
        Call::Deficit(peer) => Some(Mark::Deficit(PeerNo(*peer), topic, 7)),
        Call::Misbehaviour(peer) => Some(Mark::Misbehaviour(PeerNo(*peer))),
        Call::Graft(_) => None,
    })
}

fn apply(scores: &mut Scores, mark: &Mark) -> Result<(), AllocError> {
    match scores.accepts(mark) {
        true => scores.apply(mark),
        false => Ok(()),
    }
}

fn graft(scores: &mut Scores, peer: PeerNo, topic: &Topic) -> Result<(), AllocError> {
    match scores.has_room(peer, topic) {
        true => scores.graft(peer, topic, Millis(0)),
        false => Ok(()),
    }
}

/// Makes a call, and reports whether the scores ran out of memory.
fn perform(alloc: Global, scores: &mut Scores, topic: &Topic, call: &Call) -> Seen {
    let Ok(mark) = mark_of(alloc, call) else {
        return Seen::NoMemory;
    };
    let answer = match (&mark, call) {
        (Some(mark), _) => apply(scores, mark),
        (None, Call::Graft(peer)) => graft(scores, PeerNo(*peer), topic),
        _ => Ok(()),
    };
    match answer {
        Ok(()) => Seen::Whole,
        Err(_) => Seen::Refused,
    }
}

fn try_one(alloc: Global, scores: &mut Scores, topic: &Topic, call: &Call) -> Seen {
    let before = told(scores, topic);
    match perform(alloc, scores, topic, call) {
        Seen::Refused => Seen::after(told(scores, topic) == before),
        seen => seen,
    }
}

fn try_all(alloc: Global, scores: &mut Scores, topic: &Topic) -> Seen {
    let mut seen = Seen::Whole;
    for call in &CALLS {
        seen = seen.and(try_one(alloc, scores, topic, call));
    }
    seen
}

fn topic(alloc: Global) -> Result<Topic, AllocError> {
    Ok(Topic(Bytes::copy_from_slice(alloc, b"t")?))
}

fn neighbour(alloc: Global, peer: u16) -> Result<Neighbour, AllocError>
    ensures peer { IfOk result (λ n. n.peer.0 ≡ peer) }
    ensures app { IfOk result (λ n. unsigned_abs n.app ≤ 10 ^ 12) }
{
    let address = Bytes::copy_from_slice(alloc, &peer.to_be_bytes())?;
    Ok(Neighbour::new(PeerNo(peer), address))
}

/// The scores of two neighbours, before anything happened.
fn scores(alloc: Global) -> Result<Scores, AllocError> {
    let Ok(params) = Params::new(alloc).check() else {
        return Err(AllocError);
    };
    let first = neighbour(alloc, 1)?;
    let second = neighbour(alloc, 2)?;
    let neighbours = vec![in alloc; first, second]?;
    Scores::new(alloc, &params, neighbours.as_slice())
}

/// Tries each call of scores that needs memory.
pub fn try_standings(alloc: Global) -> Seen {
    let Ok(topic) = topic(alloc) else {
        return Seen::NoMemory;
    };
    match scores(alloc) {
        Ok(mut scores) => try_all(alloc, &mut scores, &topic),
        Err(_) => Seen::NoMemory,
    }
}
