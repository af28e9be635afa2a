//! What an RPC says, compared with what its body must say.
use bytes::Bytes;
use gs_base::{Control, Graft, Message, Rpc, Seq, Shared, SubOpt, Topic};
use gs_wire::{WireFault, decode, encode_frame};
use std::alloc::Global;

/// What an RPC says, and nothing else.
pub enum Says {
    Nothing,
    /// It subscribes to this topic.
    Subscribes(&'static [u8]),
    /// On this topic it publishes this payload, without any other field.
    Publishes(&'static [u8], &'static [u8]),
    /// A message with six fields, each of its own length.
    SixFields,
    /// It has seen the messages `ab` and `c` on `news`.
    Offers,
    /// It asks for the messages `ab` and `c`.
    Asks,
    /// It takes the receiver into its meshes of these topics. Without topics, its control messages are there and say nothing.
    Grafts(&'static [&'static [u8]]),
    /// It takes the receiver out of its mesh of `news`, for 300 seconds.
    Prunes,
}

fn is(field: &Option<Bytes>, bytes: &[u8]) -> bool {
    match field {
        Some(field) => field.as_slice() == bytes,
        None => false,
    }
}

fn is_seldom(field: &Option<Shared<Bytes>>, bytes: &[u8]) -> bool {
    match field {
        Some(field) => field.get().as_slice() == bytes,
        None => false,
    }
}

fn is_topic(topic: &Option<Topic>, name: &[u8]) -> bool {
    match topic {
        Some(topic) => topic.0.as_slice() == name,
        None => false,
    }
}

fn are_ids(ids: &Seq<Bytes>) -> bool {
    match ids.as_slice() {
        [first, second] => first.as_slice() == b"ab".as_slice()
            && second.as_slice() == b"c".as_slice(),
        _ => false,
    }
}

fn are_grafts(grafts: &[Graft], topics: &[&[u8]]) -> bool {
    match (grafts, topics) {
        ([], []) => true,
        ([only], [topic]) => is_topic(&only.topic, topic),
        ([first, second], [topic, other]) => is_topic(&first.topic, topic)
            && is_topic(&second.topic, other),
        _ => false,
    }
}

fn is_subscription(sub: &SubOpt, says: &Says) -> bool {
    match says {
        Says::Subscribes(topic) => sub.subscribe == Some(true) && is_topic(&sub.topic, topic),
        _ => false,
    }
}

fn has_six_fields(message: &Message) -> bool {
    is_seldom(&message.origin, b"A")
        && is(&message.payload, b"DD")
        && is_seldom(&message.seqno, b"NNN")
        && is_topic(&message.topic, b"news")
        && is_seldom(&message.signature, b"SSSSS")
        && is_seldom(&message.key, b"KEYKEY")
}

fn is_message(message: &Message, says: &Says) -> bool {
    match says {
        Says::Publishes(topic, payload) => is_topic(&message.topic, topic)
            && is(&message.payload, payload)
            && !message.is_signed(),
        Says::SixFields => has_six_fields(message),
        _ => false,
    }
}

fn is_control(control: &Control, says: &Says) -> bool {
    let Control {
        ihave,
        iwant,
        graft,
        prune,
    } = control;
    match (says, ihave.as_slice(), iwant.as_slice(), prune.as_slice()) {
        (Says::Offers, [offer], [], []) => graft.is_empty()
            && is_topic(&offer.topic, b"news")
            && are_ids(&offer.ids),
        (Says::Asks, [], [request], []) => graft.is_empty() && are_ids(&request.ids),
        (Says::Grafts(topics), [], [], []) => are_grafts(graft.as_slice(), topics),
        (Says::Prunes, [], [], [prune]) => graft.is_empty()
            && is_topic(&prune.topic, b"news")
            && prune.backoff == Some(300),
        _ => false,
    }
}

/// Whether the RPC says this, and nothing else.
pub fn is_said(rpc: &Rpc, says: &Says) -> bool {
    match (rpc.subs.as_slice(), rpc.publish.as_slice(), &rpc.control) {
        ([], [], None) => matches!(says, Says::Nothing),
        ([sub], [], None) => is_subscription(sub, says),
        ([], [message], None) => is_message(message, says),
        ([], [], Some(control)) => is_control(control, says),
        _ => false,
    }
}

/// Whether the RPC says three things on `news`, and nothing else: a subscription, the message `abc`, and a GRAFT.
pub fn is_said_on_news(rpc: &Rpc) -> bool {
    match (rpc.subs.as_slice(), rpc.publish.as_slice(), &rpc.control) {
        ([sub], [message], Some(control)) => is_subscription(sub, &Says::Subscribes(b"news"))
            && is_message(message, &Says::Publishes(b"news", b"abc"))
            && is_control(control, &Says::Grafts(&[b"news"])),
        _ => false,
    }
}

/// Whether the body is read as an RPC that says this, and the RPC is written as the frame.
pub fn is_read_and_written(
    alloc: Global,
    body: &[u8],
    says: &Says,
    frame: &[u8],
) -> Result<bool, WireFault> {
    let rpc = decode(alloc, body)?;
    let mut written = Vec::new(alloc);
    let end = encode_frame(&rpc, &mut written);
    Ok(end.is_ok() && is_said(&rpc, says) && written.as_slice() == frame)
}
