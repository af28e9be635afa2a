//! Names of peers, topics and messages, and moments.
ghost use Rattle.std.specs.Prelude.{◌≡◌, IfOk};
ghost use Rattle.gs_base.specs.Names.{HasIdentifierLength, id_of, longest_topic, message_id, most_topics, topic_or_empty};

use crate::exact::{ExactClone, clone_of};
use bytes::Bytes;
use sha2::{Digest, Sha256};
use std::alloc::AllocError;
use std::hash::{Hash, Hasher};

/// A peer of a run, numbered from 0.
#[derive(Clone, Copy, Debug, PartialEq, Eq, PartialOrd, Ord, Hash)]
pub struct PeerNo(pub u16);

/// A topic: any bytes. Nothing checks whether they are UTF-8.
#[derive(Debug, Drop, PartialEq, Eq, PartialOrd, Ord)]
pub struct Topic(pub Bytes);

/// A topic is hashed as one block, and not byte by byte. Hash maps are `IndexMap`s in all crates. Their entries have the
/// order of insertion, so no trace and no report depends on a hash.
impl Hash for Topic {
    ghost use Rattle.std.specs.Prelude.{[], ◌∷◌};
    ghost use Rattle.std.proofs.Common.{rules};

    ghost hash_input = { λ topic. topic.0 ∷ [] };

    ghost respects_eq = { Prim.search rules };

    fn hash<H: Hasher>(&self, state: &mut H) {
        state.write(self.0.as_slice());
    }
}

impl Clone for Topic {
    ghost is_clone = { λ source copy. copy ≡ source };

    fn clone(&self) -> Result<Topic, AllocError> {
        Ok(Topic(self.0.clone()?))
    }
}

impl ExactClone for Topic {
    ghost exact = { λ source copy same. same };
}

impl Topic {
    /// Returns the named topic, or the empty topic if it is absent.
    ///
    /// # Errors
    /// `AllocError` when out of memory.
    pub fn or_empty(topic: &Option<Topic>) -> Result<Topic, AllocError>
        ensures { IfOk result (λ named. named ≡ topic_or_empty topic.now) }
    {
        match topic {
            Some(topic) => clone_of(topic),
            None => Ok(Topic(Bytes::new())),
        }
    }
}

/// The longest topic that a peer subscribes to or publishes on, in bytes.
pub const LONGEST_TOPIC: usize = 1_024;

/// How many topics a peer may ever be subscribed to.
pub const MOST_TOPICS: usize = 1_024;

/// The length of an identifier, in bytes: that of a SHA-256.
const ID_LENGTH: usize = 32;

/// The identifier of a message: the SHA-256 of its payload.
#[derive(Clone, Copy, Debug, PartialEq, Eq, PartialOrd, Ord)]
pub struct MsgId(pub [u8; 32]);

/// An identifier is hashed as one block. An array would be hashed byte by byte, at five times the cost.
impl Hash for MsgId {
    ghost use Rattle.std.specs.Prelude.{[], ◌∷◌};
    ghost use Rattle.std.proofs.Common.{rules};

    ghost hash_input = { λ id. id.0 ∷ [] };

    ghost respects_eq = { Prim.search rules };

    fn hash<H: Hasher>(&self, state: &mut H) {
        state.write(&self.0);
    }
}

impl MsgId {
    /// Returns the SHA-256 of the payload. Neither the topic nor the author counts, so one payload on two topics is one
    /// message.
    pub fn of(payload: &[u8]) -> MsgId
        ensures { result ≡ message_id payload.now }
    {
        MsgId(Sha256::digest(payload))
    }

    /// Returns the identifier with these bytes, or `None` if there are not 32 of them.
    pub fn from_bytes(bytes: &[u8]) -> Option<MsgId>
        ensures { result ≡ id_of bytes.now }
    {
        if bytes.len() != ID_LENGTH {
            return None;
        }
        Some(MsgId::from_exact(bytes))
    }

    /// Returns the identifier with these 32 bytes.
    pub fn from_exact(bytes: &[u8]) -> MsgId
        requires { HasIdentifierLength bytes.now }
        ensures { result.0 ≡ bytes.now }
    {
        let mut id = [0; ID_LENGTH];
        id.copy_from_slice(bytes);
        MsgId(id)
    }
}

/// A moment or a span of time, in milliseconds.
#[derive(Clone, Copy, Debug, PartialEq, Eq, PartialOrd, Ord, Hash)]
pub struct Millis(pub u64);

/// The limits of topics in code equal those in the definitions.
pub fn limits_of_topics()
    ensures longest { LONGEST_TOPIC ≡ longest_topic }
    ensures most { MOST_TOPICS ≡ most_topics }
{}
