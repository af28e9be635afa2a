//! The RPCs that a router sends.
ghost use Rattle.std.specs.Prelude.{◌≡◌, IfOk, map};
ghost use Rattle.std.specs.List.{flat_map};
ghost use Rattle.gs_base.specs.declared.names.MsgId.{MsgId as MsgIdValue};
ghost use Rattle.gs_base.specs.Rpcs.{announcement, empty_rpc, grafting, longest_backoff, most_identifiers, offering, passed_on, pruning, publication, requesting};

use crate::control::{Control, Graft, IHave, IWant, Prune};
use crate::exact::clone_of;
use crate::names::{MsgId, Topic};
use crate::rpc::{Message, Rpc, SubOpt};
use crate::seq::Seq;
use bytes::Bytes;
use std::alloc::{AllocError, Global};

/// The longest backoff that a router asks for or obeys, in seconds.
pub const LONGEST_BACKOFF: u64 = 86_400;

/// The most identifiers in an offer or a request.
pub const MOST_IDENTIFIERS: u64 = 5_000;

/// The limits of RPCs in code equal those in the definitions.
pub fn limits_of_rpcs()
    ensures backoff { LONGEST_BACKOFF ≡ longest_backoff }
    ensures identifiers { MOST_IDENTIFIERS ≡ most_identifiers }
{}

impl Rpc {
    /// Returns an RPC that says nothing. It takes no memory.
    pub fn empty(alloc: Global) -> Rpc
        ensures { result ≡ empty_rpc }
    {
        Rpc {
            subs: Seq::new(alloc),
            publish: Seq::new(alloc),
            control: None,
        }
    }

    /// Returns an RPC that says that its sender subscribes to a topic or leaves it.
    ///
    /// # Errors
    /// `AllocError` when out of memory.
    pub fn announcement(alloc: Global, subscribes: bool, topic: &Topic) -> Result<Rpc, AllocError>
        ensures { IfOk result (λ rpc. rpc ≡ announcement subscribes topic.now) }
    {
        let sub = SubOpt {
            subscribe: Some(subscribes),
            topic: Some(clone_of(topic)?),
        };
        Ok(Rpc {
            subs: Seq::only(alloc, sub)?,
            ..Rpc::empty(alloc)
        })
    }

    /// Returns an RPC that publishes one message under StrictNoSign. It shares the payload.
    ///
    /// # Errors
    /// `AllocError` when out of memory.
    pub fn publication(alloc: Global, topic: &Topic, payload: &Bytes) -> Result<Rpc, AllocError>
        ensures { IfOk result (λ rpc. rpc ≡ publication topic.now payload.now) }
    {
        let message = Message::unsigned(topic, payload)?;
        Ok(Rpc {
            publish: Seq::only(alloc, message)?,
            ..Rpc::empty(alloc)
        })
    }

    /// Returns an RPC with only one message, as it was heard. It shares the payload.
    ///
    /// # Errors
    /// `AllocError` when out of memory.
    pub fn passed_on(alloc: Global, message: &Message) -> Result<Rpc, AllocError>
        ensures { IfOk result (λ rpc. rpc ≡ passed_on message.now) }
    {
        Ok(Rpc {
            publish: Seq::only(alloc, clone_of(message)?)?,
            ..Rpc::empty(alloc)
        })
    }

    /// Returns an offer of messages on a topic (gossipsub v1.0, "Control messages", IHAVE). Its identifiers share one block
    /// of memory.
    ///
    /// # Errors
    /// `AllocError` when out of memory.
    pub fn offering(alloc: Global, topic: &Topic, ids: &[MsgId]) -> Result<Rpc, AllocError>
        ensures { IfOk result (λ rpc. rpc ≡ offering topic.now (map (λ (id : MsgIdValue). id.0) ids.now)) }
    {
        let offer = IHave {
            topic: Some(clone_of(topic)?),
            ids: in_one_block(alloc, ids)?,
        };
        let control = Control {
            ihave: Seq::only(alloc, offer)?,
            ..Control::empty(alloc)
        };
        Ok(control_only(alloc, control))
    }

    /// Returns a request for messages (gossipsub v1.0, "Control messages", IWANT).
    ///
    /// # Errors
    /// `AllocError` when out of memory.
    pub fn requesting(alloc: Global, ids: Seq<Bytes>) -> Result<Rpc, AllocError>
        ensures { IfOk result (λ rpc. rpc ≡ requesting ids) }
    {
        let control = Control {
            iwant: Seq::only(alloc, IWant { ids })?,
            ..Control::empty(alloc)
        };
        Ok(control_only(alloc, control))
    }

    /// Returns an RPC that says that its receiver was grafted (gossipsub v1.0, "Control messages", GRAFT).
    ///
    /// # Errors
    /// `AllocError` when out of memory.
    pub fn grafting(alloc: Global, topic: &Topic) -> Result<Rpc, AllocError>
        ensures { IfOk result (λ rpc. rpc ≡ grafting topic.now) }
    {
        let graft = Graft {
            topic: Some(clone_of(topic)?),
        };
        let control = Control {
            graft: Seq::only(alloc, graft)?,
            ..Control::empty(alloc)
        };
        Ok(control_only(alloc, control))
    }

    /// Returns an RPC that says that its receiver was pruned, and for how many seconds it must not come back: at most
    /// `LONGEST_BACKOFF` (gossipsub v1.1, "Prune Backoff").
    ///
    /// # Errors
    /// `AllocError` when out of memory.
    pub fn pruning(alloc: Global, topic: &Topic, seconds: u64) -> Result<Rpc, AllocError>
        ensures { IfOk result (λ rpc. rpc ≡ pruning topic.now seconds) }
    {
        let prune = Prune {
            topic: Some(clone_of(topic)?),
            backoff: Some(seconds.min(LONGEST_BACKOFF)),
        };
        let control = Control {
            prune: Seq::only(alloc, prune)?,
            ..Control::empty(alloc)
        };
        Ok(control_only(alloc, control))
    }
}

/// Returns an RPC with control messages only.
fn control_only(alloc: Global, control: Control) -> Rpc
    ensures { result ≡ record empty_rpc { control = Some control } }
{
    Rpc {
        control: Some(control),
        ..Rpc::empty(alloc)
    }
}

/// Returns the bytes of each identifier, which all share one block.
fn in_one_block(alloc: Global, ids: &[MsgId]) -> Result<Seq<Bytes>, AllocError>
    ensures { IfOk result (λ list. list ≡ map (λ (id : MsgIdValue). id.0) ids.now) }
{
    let mut rest = Bytes::from_vec(joined(alloc, ids)?)?;
    let mut list = Vec::with_capacity(alloc, ids.len())?;
    for id in ids {
        let bytes: &[u8] = &id.0;
        list.push(rest.split_to(bytes.len())?)?;
    }
    Ok(Seq::from(list))
}

/// Returns the bytes of all identifiers, one after the other.
fn joined(alloc: Global, ids: &[MsgId]) -> Result<Vec<u8>, AllocError>
    ensures { IfOk result (λ block. block.items ≡ flat_map (λ (id : MsgIdValue). id.0) ids.now) }
{
    let mut block = Vec::with_capacity(alloc, ids.len().saturating_mul(size_of::<MsgId>()))?;
    for id in ids {
        block.extend_from_slice(&id.0)?;
    }
    Ok(block)
}
