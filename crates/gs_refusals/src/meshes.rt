//! The meshes of a topic.
use crate::seen::Seen;
use bytes::Bytes;
use gs_base::{Millis, PeerNo, Topic};
use gs_mesh::Meshes;
use std::alloc::{AllocError, Global};

enum Call {
    Join,
    Graft(u16),
    Backoff(u16, u64),
    Fan(u16),
    Publish(u64),
}

/// Each list grows while the others hold something.
static CALLS: [Call; 15] = [
    Call::Fan(2),
    Call::Fan(1),
    Call::Publish(500),
    Call::Join,
    Call::Graft(2),
    Call::Backoff(2, 900),
    Call::Graft(1),
    Call::Backoff(1, 900),
    Call::Backoff(2, 950),
    Call::Graft(3),
    Call::Graft(4),
    Call::Graft(5),
    Call::Fan(3),
    Call::Fan(4),
    Call::Fan(5),
];

/// What meshes say about a topic, and about the two neighbours that have backoffs.
#[derive(Clone, Copy, Debug, PartialEq, Eq)]
struct Reading {
    is_joined: bool,
    members: u64,
    fanout: u64,
    last_published: Option<Millis>,
    backoffs: (Millis, Millis),
}

/// The numbers of a list, in order, as the digits of one number: each is below 10.
fn digits_of(list: &[PeerNo]) -> u64 {
    let mut digits = 0u64;
    for peer in list {
        digits = digits.wrapping_mul(10).wrapping_add(u64::from(peer.0));
    }
    digits
}

fn told(meshes: &Meshes, topic: &Topic) -> Reading {
    Reading {
        is_joined: meshes.is_joined(topic),
        members: digits_of(meshes.members(topic)),
        fanout: digits_of(meshes.fanout(topic)),
        last_published: meshes.last_published(topic),
        backoffs: (
            meshes.backoff_until(PeerNo(1), topic),
            meshes.backoff_until(PeerNo(2), topic),
        ),
    }
}

fn perform(meshes: &mut Meshes, topic: &Topic, call: &Call) -> Result<(), AllocError> {
    match call {
        Call::Join => meshes.join(topic),
        Call::Graft(peer) => meshes.graft(PeerNo(*peer), topic),
        Call::Backoff(peer, end) => meshes.note_backoff(PeerNo(*peer), topic, Millis(*end)),
        Call::Fan(peer) => meshes.fan(PeerNo(*peer), topic),
        Call::Publish(at) => meshes.publish_at(topic, Millis(*at)),
    }
}

fn try_one(meshes: &mut Meshes, topic: &Topic, call: &Call) -> Seen {
    let before = told(meshes, topic);
    match perform(meshes, topic, call) {
        Ok(()) => Seen::Whole,
        Err(_) => Seen::after(told(meshes, topic) == before),
    }
}

fn try_all(meshes: &mut Meshes, topic: &Topic) -> Seen {
    let mut seen = Seen::Whole;
    for call in &CALLS {
        seen = seen.and(try_one(meshes, topic, call));
    }
    seen
}

/// Tries each call of meshes that needs memory.
pub fn try_meshes(alloc: Global) -> Seen {
    let Ok(name) = Bytes::copy_from_slice(alloc, b"a") else {
        return Seen::NoMemory;
    };
    let topic = Topic(name);
    let mut meshes = Meshes::new(alloc);
    try_all(&mut meshes, &topic)
}
