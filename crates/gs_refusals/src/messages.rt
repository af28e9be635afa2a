//! Which messages are kept.
use crate::seen::Seen;
use bytes::Bytes;
use gs_base::{Message, MsgId, PeerNo, Seq, SharedPart, Topic};
use gs_cache::{Answer, MessageCache};
use std::alloc::{AllocError, Global};

enum Call {
    Put(u8),
    Count(u8, u16),
    Shift,
}

static CALLS: [Call; 9] = [
    Call::Put(1),
    Call::Count(1, 1),
    Call::Put(2),
    Call::Shift,
    Call::Put(3),
    Call::Count(1, 2),
    Call::Count(3, 1),
    Call::Put(1),
    Call::Count(1, 1),
];

/// What a cache says about a message and a neighbour: whether it is kept, and how many answers are left.
type Kept = (bool, u64);

/// What a cache says about three messages and two neighbours, and what it announces.
#[derive(Debug, Drop, PartialEq, Eq)]
struct Reading {
    first: (Kept, Kept),
    second: (Kept, Kept),
    third: (Kept, Kept),
    announced: Seq<MsgId>,
}

fn id(number: u8) -> MsgId {
    MsgId([number; 32])
}

fn kept(cache: &MessageCache, number: u8, peer: u16) -> Kept {
    let is_kept = match cache.answer_for(&id(number), PeerNo(peer)) {
        Answer::Absent => false,
        _ => true,
    };
    (is_kept, cache.left_for(&id(number), PeerNo(peer)))
}

fn kept_for_both(cache: &MessageCache, number: u8) -> (Kept, Kept) {
    (kept(cache, number, 1), kept(cache, number, 2))
}

fn told(cache: &MessageCache, topic: &Topic) -> Result<Reading, AllocError> {
    let announced = cache.gossip_ids(topic)?;
    Ok(Reading {
        first: kept_for_both(cache, 1),
        second: kept_for_both(cache, 2),
        third: kept_for_both(cache, 3),
        announced,
    })
}

fn topic(alloc: Global) -> Result<Topic, AllocError> {
    Ok(Topic(Bytes::copy_from_slice(alloc, b"a")?))
}

fn message(alloc: Global, number: u8) -> Result<SharedPart<Message>, AllocError> {
    let message = Message {
        origin: None,
        payload: Some(Bytes::copy_from_slice(alloc, &[number])?),
        seqno: None,
        topic: None,
        signature: None,
        key: None,
    };
    message.share(alloc)
}

/// Makes a call, and reports whether the cache ran out of memory.
fn perform(alloc: Global, cache: &mut MessageCache, call: &Call) -> Result<Seen, AllocError> {
    let answer = match call {
        Call::Put(number) => {
            let topic = topic(alloc)?;
            let message = message(alloc, *number)?;
            cache.put(id(*number), topic, message)
        }
        Call::Count(number, peer) => cache.count_answer(&id(*number), PeerNo(*peer)),
        Call::Shift => {
            cache.shift();
            Ok(())
        }
    };
    match answer {
        Ok(()) => Ok(Seen::Whole),
        Err(_) => Ok(Seen::Refused),
    }
}

fn try_one(
    alloc: Global,
    cache: &mut MessageCache,
    topic: &Topic,
    call: &Call,
) -> Result<Seen, AllocError> {
    let before = told(cache, topic)?;
    match perform(alloc, cache, call)? {
        Seen::Refused => Ok(Seen::after(told(cache, topic)? == before)),
        seen => Ok(seen),
    }
}

fn try_all(alloc: Global, cache: &mut MessageCache, topic: &Topic) -> Seen {
    let mut seen = Seen::Whole;
    for call in &CALLS {
        seen = seen.and(match try_one(alloc, cache, topic, call) {
            Ok(seen) => seen,
            Err(_) => Seen::NoMemory,
        });
    }
    seen
}

/// Tries each call of a cache of messages that needs memory.
pub fn try_messages(alloc: Global) -> Seen {
    let Ok(topic) = topic(alloc) else {
        return Seen::NoMemory;
    };
    match MessageCache::new(alloc, 3, 2, 2) {
        Ok(mut cache) => try_all(alloc, &mut cache, &topic),
        Err(_) => Seen::NoMemory,
    }
}
