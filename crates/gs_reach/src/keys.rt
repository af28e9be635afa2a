//! What messages, deliveries and subscriptions are filed under.
use bytes::Bytes;
use gs_base::Topic;
use std::hash::{Hash, Hasher};

/// A payload on a topic, regardless of its publisher.
#[derive(Debug, Drop, PartialEq, Eq)]
pub(crate) struct TopicPayload {
    pub(crate) topic: Topic,
    pub(crate) payload: Bytes,
}

/// Topic and payload are each hashed at once, and not byte by byte.
impl Hash for TopicPayload {
    ghost use Rattle.std.specs.Prelude.{[], ◌∷◌};
    ghost use Rattle.std.proofs.Common.{rules};

    ghost hash_input = { λ said. said.topic.0 ∷ said.payload ∷ [] };

    ghost respects_eq = { Prim.search rules };

    fn hash<H: Hasher>(&self, state: &mut H) {
        state.write(self.topic.0.as_slice());
        state.write(self.payload.as_slice());
    }
}

/// A payload, regardless of its topic.
#[derive(Debug, Drop, PartialEq, Eq)]
pub(crate) struct Payload(pub(crate) Bytes);

/// All of it is hashed at once.
impl Hash for Payload {
    ghost use Rattle.std.specs.Prelude.{[], ◌∷◌};
    ghost use Rattle.std.proofs.Common.{rules};

    ghost hash_input = { λ payload. payload.0 ∷ [] };

    ghost respects_eq = { Prim.search rules };

    fn hash<H: Hasher>(&self, state: &mut H) {
        state.write(self.0.as_slice());
    }
}
