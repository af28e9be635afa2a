ghost use Rattle.std.specs.Prelude.{◌≡◌, All, IfOk};
ghost use Rattle.gs_base.specs.Names.{message_id};
ghost use Rattle.gs_cache.specs.Payloads.{IsRight};

use bytes::Bytes;
use gs_base::{Message, MsgId, Topic, clone_of};
use std::alloc::{AllocError, Global};
use std::hash::{FoldHasher, Hasher};
use std::marker::Model;

/// The most payloads that are held.
const SLOTS: usize = 1_024;

/// The least length, in bytes, of a known payload that a message takes over. To look for a shorter one costs more than its
/// memory is worth.
const SHARED_FROM: usize = 256;

/// A payload, the topic that it came on, and its SHA-256.
#[derive(Drop)]
pub struct Known {
    payload: Bytes,
    topic: Topic,
    id: MsgId,
}

/// The latest payloads with their identifiers (libp2p pubsub, "Message Identification"). A payload that comes again is
/// found by comparing its bytes, which costs far less than its SHA-256.
///
/// Each payload lies in the slot that a hash of its bytes chooses, until another one takes that slot. So at most 1,024 are
/// held, each with the whole body that it is a slice of. A message with a long payload that is held takes it over. So a body
/// is freed if all its messages were known before.
#[derive(Drop)]
pub struct Payloads {
    slots: Vec<Option<Known>>,
}

impl Model for Payloads {
    ghost use Rattle.std.specs.Prelude.{⊤, All};
    ghost use Rattle.gs_cache.specs.Payloads.{IsRight};

    ghost Value = { ⊤ };

    ghost view = { λ _. tt };

    ghost invariant = { λ payloads. All IsRight payloads.slots.items };
}

impl Payloads {
    /// Returns a store in which no payload is known. It takes no memory.
    pub fn new(alloc: Global) -> Payloads {
        Payloads {
            slots: Vec::new(alloc),
        }
    }

    /// Returns the identifier of a payload. If there is memory for it, the payload is known from now on, with its topic.
    #[inline(always)]
    pub fn identifier(&mut self, payload: &Bytes, topic: &Topic) -> MsgId
        ensures { result ≡ message_id payload.now }
    {
        if self.slots.is_empty() {
            set_up(&mut self.slots);
        }
        match self.slots.get_mut(slot_of(payload.as_slice())) {
            Some(slot) => identifier_by(slot, payload, topic),
            None => MsgId::of(payload.as_slice()),
        }
    }

    /// Makes messages share the memory of known payloads of 256 bytes or more, and of the topics of these if they are the
    /// same. The value of each message stays the same. It takes no memory.
    pub fn share(&self, messages: &mut [Message])
        ensures { messages.new ≡ messages.old }
    {
        for message in messages {
            self.share_one(message);
        }
    }

    /// Makes a message share the memory of its payload and its topic, if they are known.
    fn share_one(&self, message: &mut Message)
        ensures { message.new ≡ message.old }
    {
        if let Some(payload) = &mut message.payload
            && payload.len() >= SHARED_FROM
            && let Some(Some(known)) = self.slots.get(slot_of(payload.as_slice()))
        {
            take_over(payload, &known.payload);
            if let Some(topic) = &mut message.topic {
                take_over(&mut topic.0, &known.topic.0);
            }
        }
    }
}

/// Makes bytes share the memory of others that are the same.
fn take_over(bytes: &mut Bytes, known: &Bytes)
    ensures { bytes.new ≡ bytes.old }
{
    if *bytes == *known
        && let Ok(shared) = clone_of(known)
    {
        *bytes = shared;
    }
}

/// Makes the slots, as many as there is memory for.
fn set_up(slots: &mut Vec<Option<Known>>)
    requires { All IsRight slots.old.items }
    ensures { All IsRight slots.new.items }
{
    for _ in 0..SLOTS {
        if slots.push(None).is_err() {
            return;
        }
    }
}

/// Returns the slot of a payload, by a hash that anybody can compute. If a peer sends payloads that share a slot, each of
/// them is hashed by SHA-256, as it would be without slots. The peer gains no more.
fn slot_of(payload: &[u8]) -> usize {
    let mut hasher = FoldHasher::default();
    hasher.write(payload);
    hasher.finish() as usize % SLOTS
}

/// Returns the identifier of a payload. If there is memory for it, the payload lies in its slot from now on, with its topic.
fn identifier_by(slot: &mut Option<Known>, payload: &Bytes, topic: &Topic) -> MsgId
    requires { IsRight slot.old }
    ensures identifies { result ≡ message_id payload.now }
    ensures right { IsRight slot.new }
{
    if let Some(known) = &*slot
        && known.payload == *payload
    {
        return known.id;
    }
    let id = MsgId::of(payload.as_slice());
    if let Ok(known) = known_of(payload, topic, id) {
        *slot = Some(known);
    }
    id
}

fn known_of(payload: &Bytes, topic: &Topic, id: MsgId) -> Result<Known, AllocError>
    ensures { IfOk result (λ known. known ≡ record { payload = payload.now; topic = topic.now; id = id }) }
{
    Ok(Known {
        payload: clone_of(payload)?,
        topic: clone_of(topic)?,
        id,
    })
}
