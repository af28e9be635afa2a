//! RPCs made of the parts that cases name.
use crate::cases::CasePart;
use crate::routers::topic_of;
use bytes::Bytes;
use gs_base::{Control, Graft, IHave, IWant, Message, MsgId, Prune, Rpc, Seq, SubOpt, Topic};
use std::alloc::{AllocError, Global};

/// The identifiers of the messages with these payloads.
fn ids_of(alloc: Global, payloads: &[&[u8]]) -> Result<Seq<Bytes>, AllocError> {
    let mut list = Seq::new(alloc);
    for payload in payloads {
        list.push(Bytes::copy_from_slice(alloc, &MsgId::of(payload).0)?)?;
    }
    Ok(list)
}

/// The topic with a name. An empty name stands for an absent topic.
fn topic_in(alloc: Global, name: &str) -> Result<Option<Topic>, AllocError> {
    if name.is_empty() {
        return Ok(None);
    }
    Ok(Some(topic_of(alloc, name)?))
}

fn sub_of(alloc: Global, name: &str) -> Result<SubOpt, AllocError> {
    Ok(SubOpt {
        subscribe: Some(true),
        topic: topic_in(alloc, name)?,
    })
}

fn message_of(alloc: Global, name: &str, payload: &[u8]) -> Result<Message, AllocError> {
    let mut message = Message::bare();
    message.topic = topic_in(alloc, name)?;
    message.payload = Some(Bytes::copy_from_slice(alloc, payload)?);
    Ok(message)
}

/// Adds a control message.
fn control(alloc: Global, control: &mut Control, said: CasePart<'_>) -> Result<(), AllocError> {
    match said {
        CasePart::Have(name, payloads) => {
            let topic = Some(topic_of(alloc, name)?);
            let ids = ids_of(alloc, payloads)?;
            control.ihave.push(IHave { topic, ids })
        }
        CasePart::Want(payloads) => {
            let ids = ids_of(alloc, payloads)?;
            control.iwant.push(IWant { ids })
        }
        CasePart::Graft(name) => {
            let topic = Some(topic_of(alloc, name)?);
            control.graft.push(Graft { topic })
        }
        CasePart::Prune(name, backoff) => {
            let topic = Some(topic_of(alloc, name)?);
            control.prune.push(Prune { topic, backoff })
        }
        _ => Err(AllocError),
    }
}

/// The control of an RPC with one control message.
fn only_control(alloc: Global, said: CasePart<'_>) -> Result<Control, AllocError> {
    let mut only = Control::empty(alloc);
    control(alloc, &mut only, said)?;
    Ok(only)
}

/// Adds a part to an RPC.
fn add(alloc: Global, rpc: &mut Rpc, said: CasePart<'_>) -> Result<(), AllocError> {
    match said {
        CasePart::On(name) => rpc.subs.push(sub_of(alloc, name)?),
        CasePart::Message(name, payload) => rpc.publish.push(message_of(alloc, name, payload)?),
        control => {
            rpc.control = Some(only_control(alloc, control)?);
            Ok(())
        }
    }
}

/// Adds these parts to an RPC.
fn add_all(alloc: Global, rpc: &mut Rpc, parts: &[CasePart<'_>]) -> Result<(), AllocError> {
    for said in parts {
        add(alloc, rpc, *said)?;
    }
    Ok(())
}

/// Returns the RPC of these parts. At most one of them is a control message.
pub fn rpc_of(alloc: Global, parts: &[CasePart<'_>]) -> Result<Rpc, AllocError> {
    let mut rpc = Rpc::empty(alloc);
    add_all(alloc, &mut rpc, parts)?;
    Ok(rpc)
}
