//! What two peers send each other: the messages of gossipsub's `rpc.proto`.
ghost use Rattle.std.specs.Prelude.{◌≡◌, None, IfOk};
ghost use Rattle.gs_base.specs.Names.{is_signed, payload_of, topic_of, topic_or_empty};
ghost use Rattle.gs_base.specs.Rpcs.{unsigned};

mod sent;

use crate::control::Control;
use crate::exact::{ExactClone, clone_of, clone_option};
use crate::names::Topic;
use crate::seq::Seq;
use crate::shared::Shared;
use bytes::Bytes;
pub use sent::{LONGEST_BACKOFF, MOST_IDENTIFIERS, limits_of_rpcs};
use std::alloc::AllocError;

/// A change of a subscription (`RPC.SubOpts`).
#[derive(Debug, Drop, PartialEq, Eq)]
pub struct SubOpt {
    /// Whether the sender subscribes or unsubscribes.
    pub subscribe: Option<bool>,
    /// The topic (`topicid`).
    pub topic: Option<Topic>,
}

impl Clone for SubOpt {
    ghost is_clone = { λ source copy. copy ≡ source };

    fn clone(&self) -> Result<SubOpt, AllocError> {
        Ok(SubOpt {
            subscribe: self.subscribe,
            topic: clone_option(&self.topic)?,
        })
    }
}

impl SubOpt {
    /// Returns the topic, or the empty topic if it is absent.
    ///
    /// # Errors
    /// `AllocError` when out of memory.
    pub fn topic_or_empty(&self) -> Result<Topic, AllocError>
        ensures { IfOk result (λ topic. topic ≡ topic_or_empty self.now.topic) }
    {
        Topic::or_empty(&self.topic)
    }
}

impl ExactClone for SubOpt {
    ghost exact = { λ source copy same. same };
}

/// A published message (`Message`). Under StrictNoSign only `payload` and `topic` are present.
#[derive(Debug, Drop, PartialEq, Eq)]
pub struct Message {
    /// The author (`from`). This field and the others that StrictNoSign forbids are stored outside the message, so that it
    /// is small.
    pub origin: Option<Shared<Bytes>>,
    /// What is published (`data`).
    pub payload: Option<Bytes>,
    /// The number that the author gave the message (`seqno`).
    pub seqno: Option<Shared<Bytes>>,
    /// The topic that it is published on.
    pub topic: Option<Topic>,
    /// The author's signature.
    pub signature: Option<Shared<Bytes>>,
    /// The author's public key.
    pub key: Option<Shared<Bytes>>,
}

impl Clone for Message {
    ghost is_clone = { λ source copy. copy ≡ source };

    // Each message that is heard is cloned. Inlined, the clone writes each field once, to its final place.
    #[inline(always)]
    fn clone(&self) -> Result<Message, AllocError> {
        Ok(Message {
            origin: clone_option(&self.origin)?,
            payload: clone_option(&self.payload)?,
            seqno: clone_option(&self.seqno)?,
            topic: clone_option(&self.topic)?,
            signature: clone_option(&self.signature)?,
            key: clone_option(&self.key)?,
        })
    }
}

impl Message {
    /// Returns a message without any field. It takes no memory.
    pub fn bare() -> Message
        ensures { result
            ≡ record { origin = None; payload = None; seqno = None; topic = None; signature = None; key = None } }
    {
        Message {
            origin: None,
            payload: None,
            seqno: None,
            topic: None,
            signature: None,
            key: None,
        }
    }

    /// Returns a message under StrictNoSign, with only a payload and a topic. It shares both.
    ///
    /// # Errors
    /// `AllocError` when out of memory.
    pub fn unsigned(topic: &Topic, payload: &Bytes) -> Result<Message, AllocError>
        ensures { IfOk result (λ message. message ≡ unsigned topic.now payload.now) }
    {
        Ok(Message {
            origin: None,
            payload: Some(clone_of(payload)?),
            seqno: None,
            topic: Some(clone_of(topic)?),
            signature: None,
            key: None,
        })
    }

    /// Returns the message's topic, or the empty topic if it is absent.
    ///
    /// # Errors
    /// `AllocError` when out of memory.
    pub fn topic_or_empty(&self) -> Result<Topic, AllocError>
        ensures { IfOk result (λ topic. topic ≡ topic_of self.now) }
    {
        Topic::or_empty(&self.topic)
    }

    /// Returns the bytes of the payload, or no bytes if it is absent.
    pub fn payload_bytes(&self) -> &[u8]
        ensures { result.now ≡ payload_of self.now }
    {
        match &self.payload {
            Some(payload) => payload.as_slice(),
            None => &[],
        }
    }

    /// Returns the payload, shared, or the empty payload if it is absent.
    ///
    /// # Errors
    /// `AllocError` when out of memory.
    pub fn payload_or_empty(&self) -> Result<Bytes, AllocError>
        ensures { IfOk result (λ payload. payload ≡ payload_of self.now) }
    {
        match &self.payload {
            Some(payload) => clone_of(payload),
            None => Ok(Bytes::new()),
        }
    }

    /// Says whether the message has a field that StrictNoSign forbids, even an empty one (libp2p pubsub, Signature Policy
    /// Options).
    pub fn is_signed(&self) -> bool
        ensures { result ≡ is_signed self.now }
    {
        self.origin.is_some()
            || self.seqno.is_some()
            || self.signature.is_some()
            || self.key.is_some()
    }
}

impl ExactClone for Message {
    ghost exact = { λ source copy same. same };
}

/// What one peer sends another at once (`RPC`).
#[derive(Debug, Drop, PartialEq, Eq)]
pub struct Rpc {
    /// The sender's changes of subscription (`subscriptions`).
    pub subs: Seq<SubOpt>,
    /// The messages that it passes on.
    pub publish: Seq<Message>,
    /// The sender's offers, requests, grafts and prunes.
    pub control: Option<Control>,
}

impl Clone for Rpc {
    ghost is_clone = { λ source copy. copy ≡ source };

    fn clone(&self) -> Result<Rpc, AllocError> {
        Ok(Rpc {
            subs: self.subs.clone()?,
            publish: self.publish.clone()?,
            control: clone_option(&self.control)?,
        })
    }
}

impl ExactClone for Rpc {
    ghost exact = { λ source copy same. same };
}
