//! Values that equal their clones, what is absent in a message, and identifiers.
use bytes::Bytes;
use gs_base::{
    Message, MsgId, Neighbour, PeerNo, Rpc, Seq, Shared, SubOpt, Text, Topic, clone_of,
    clone_option,
};
use std::alloc::{AllocError, Global};

mod parts;

fn topic(alloc: Global) -> Result<Topic, AllocError> {
    Ok(Topic(Bytes::copy_from_slice(alloc, b"news")?))
}

fn message(alloc: Global, payload: &[u8]) -> Result<Message, AllocError> {
    Ok(Message {
        origin: None,
        payload: Some(Bytes::copy_from_slice(alloc, payload)?),
        seqno: None,
        topic: Some(topic(alloc)?),
        signature: None,
        key: None,
    })
}

fn rpc(alloc: Global, payloads: &[&[u8]]) -> Result<Rpc, AllocError> {
    let mut publish = Seq::new(alloc);
    for payload in payloads {
        publish.push(message(alloc, payload)?)?;
    }
    Ok(Rpc {
        subs: Seq::new(alloc),
        publish,
        control: None,
    })
}

/// Whether RPCs of these payloads are equal.
fn are_equal(alloc: Global, left: &[&[u8]], right: &[&[u8]]) -> Result<bool, AllocError> {
    let left = rpc(alloc, left)?;
    let right = rpc(alloc, right)?;
    Ok(left == right)
}

/// A clone is equal to its source.
fn is_its_clone(alloc: Global) -> Result<bool, AllocError> {
    let source = rpc(alloc, &[b"abc", b""])?;
    let copy = source.clone()?;
    Ok(copy == source)
}

/// What `clone_option` makes of what may be there is equal to its source.
fn is_cloned_where_there(alloc: Global) -> Result<bool, AllocError> {
    let source = Some(topic(alloc)?);
    let copy = clone_option(&source)?;
    Ok(copy == source)
}

#[test]
fn rpcs_are_equal_where_their_parts_are(rt: HostRuntime) -> Result<(), AllocError> {
    let alloc = rt.alloc();
    assert!(rt; are_equal(alloc, &[b"abc", b""], &[b"abc", b""])?);
    assert!(rt; !are_equal(alloc, &[b"abc", b""], &[b"abc"])?);
    Ok(())
}

#[test]
fn a_clone_is_equal_to_its_source(rt: HostRuntime) -> Result<(), AllocError> {
    assert!(rt; is_its_clone(rt.alloc())?);
    assert!(rt; is_cloned_where_there(rt.alloc())?);
    Ok(())
}

#[test]
fn a_list_keeps_its_elements(rt: HostRuntime) -> Result<(), AllocError> {
    let mut list = Seq::new(rt.alloc());
    assert!(rt; list.is_empty());
    list.push(7u8)?;
    list.push(8)?;
    assert_eq!(rt; list.len(), 2);
    let copy = Seq::from(list.into_vec());
    assert_eq!(rt; copy.as_slice(), [7, 8].as_slice());
    Ok(())
}

#[test]
fn a_shared_value_is_the_value(rt: HostRuntime) -> Result<(), AllocError> {
    let alloc = rt.alloc();
    let shared = Shared::new(alloc, topic(alloc)?)?;
    let other = Shared::new(alloc, Topic(Bytes::new()))?;
    let again = clone_of(&shared)?;
    assert!(rt; *again.get() == topic(alloc)?);
    assert!(rt; again == shared && again != other);
    Ok(())
}

#[test]
fn a_text_keeps_its_bytes(rt: HostRuntime) -> Result<(), AllocError> {
    let text = Text::from_str(rt.alloc(), "topic[0].name")?;
    let made = Text::from(String::from_str(rt.alloc(), "topic[0].name")?);
    assert_eq!(rt; text.as_str(), "topic[0].name");
    assert!(rt; text.clone()? == made);
    Ok(())
}

/// The worked example of SHA-256 for "abc" (FIPS 180-4).
const OF_ABC: [u8; 32] = [
    0xba, 0x78, 0x16, 0xbf, 0x8f, 0x01, 0xcf, 0xea, 0x41, 0x41, 0x40, 0xde, 0x5d, 0xae, 0x22, 0x23,
    0xb0, 0x03, 0x61, 0xa3, 0x96, 0x17, 0x7a, 0x9c, 0xb4, 0x10, 0xff, 0x61, 0xf2, 0x00, 0x15, 0xad,
];

#[test]
fn an_identifier_is_the_digest_of_the_payload(rt: HostRuntime) {
    assert_eq!(rt; MsgId::of(b"abc"), MsgId(OF_ABC));
    assert!(rt; MsgId::of(b"") != MsgId(OF_ABC));
}

/// An identifier whose bytes can be read.
const ID: [u8; 32] = *b"abcdefghijklmnopqrstuvwxyz012345";

#[test]
fn bytes_of_an_identifiers_length_are_one(rt: HostRuntime) {
    assert_eq!(rt; MsgId::from_bytes(&ID), Some(MsgId(ID)));
    assert_eq!(rt; MsgId::from_exact(&ID), MsgId(ID));
    assert_eq!(rt; MsgId::from_bytes(b"abc"), None);
    assert_eq!(rt;
        MsgId::from_bytes(b"abcdefghijklmnopqrstuvwxyz0123456"),
        None
    );
}

/// A neighbour's clone is the neighbour, and one that was dialled is not one that dialled.
fn compares_neighbours(alloc: Global) -> Result<bool, AllocError> {
    let dialled = Neighbour {
        outbound: true,
        app: -1,
        ..Neighbour::new(PeerNo(1), Bytes::copy_from_slice(alloc, b"a")?)
    };
    let mut other = clone_of(&dialled)?;
    let is_same = other == dialled;
    other.outbound = false;
    Ok(is_same && other != dialled)
}

/// An explicit neighbour's clone is explicit, and one that is not is another.
fn compares_explicit_neighbours(alloc: Global) -> Result<bool, AllocError> {
    let explicit = Neighbour {
        explicit: true,
        ..Neighbour::new(PeerNo(1), Bytes::copy_from_slice(alloc, b"a")?)
    };
    let mut other = clone_of(&explicit)?;
    let is_same = other == explicit;
    other.explicit = false;
    Ok(is_same && other != explicit)
}

/// By default a neighbour dialled, has the application score 0, and is not explicit.
fn makes_a_neighbour(alloc: Global) -> Result<bool, AllocError> {
    let made = Neighbour::new(PeerNo(7), Bytes::copy_from_slice(alloc, b"a")?);
    let is_named = made.peer == PeerNo(7) && made.address.as_slice() == b"a".as_slice();
    Ok(is_named && !made.outbound && made.app == 0 && !made.explicit)
}

#[test]
fn a_new_neighbour_dialled_and_is_not_explicit(rt: HostRuntime) -> Result<(), AllocError> {
    assert!(rt; makes_a_neighbour(rt.alloc())?);
    Ok(())
}

#[test]
fn neighbours_are_equal_where_their_parts_are(rt: HostRuntime) -> Result<(), AllocError> {
    assert!(rt; compares_neighbours(rt.alloc())?);
    assert!(rt; compares_explicit_neighbours(rt.alloc())?);
    Ok(())
}

/// A pair is copied whole.
fn copies_a_pair(alloc: Global) -> Result<bool, AllocError> {
    let pair = (topic(alloc)?, Bytes::copy_from_slice(alloc, b"abc")?);
    Ok(clone_of(&pair)? == pair)
}

#[test]
fn a_clone_of_a_pair_has_both(rt: HostRuntime) -> Result<(), AllocError> {
    assert!(rt; copies_a_pair(rt.alloc())?);
    Ok(())
}

/// Whether a message has this topic.
fn is_on(heard: &Message, topic: &Topic) -> Result<bool, AllocError> {
    Ok(heard.topic_or_empty()? == *topic)
}

/// Whether a message has this payload.
fn holds(heard: &Message, payload: &[u8]) -> Result<bool, AllocError> {
    Ok(heard.payload_bytes() == payload && heard.payload_or_empty()?.as_slice() == payload)
}

/// Whether a message has what is in it, and empty values after that is taken away.
fn is_emptied(heard: &mut Message, topic: &Topic) -> Result<bool, AllocError> {
    let is_whole = is_on(heard, topic)? && holds(heard, b"abc")?;
    heard.topic = None;
    heard.payload = None;
    Ok(is_whole && is_on(heard, &Topic(Bytes::new()))? && holds(heard, b"")?)
}

/// What is absent in a message has a value.
fn absent_parts_have_values(alloc: Global) -> Result<bool, AllocError> {
    let topic = topic(alloc)?;
    let mut heard = message(alloc, b"abc")?;
    let is_emptied = is_emptied(&mut heard, &topic);
    drop(heard);
    drop(topic);
    is_emptied
}

/// What is absent in a subscription, or by itself, has one, too.
fn absent_topics_have_values(alloc: Global) -> Result<bool, AllocError> {
    let sub = SubOpt {
        subscribe: None,
        topic: None,
    };
    let empty = sub.topic_or_empty();
    drop(sub);
    Ok(empty? == Topic(Bytes::new()) && Topic::or_empty(&Some(topic(alloc)?))? == topic(alloc)?)
}

#[test]
fn what_is_absent_in_a_message_is_empty(rt: HostRuntime) -> Result<(), AllocError> {
    assert!(rt; absent_parts_have_values(rt.alloc())?);
    assert!(rt; absent_topics_have_values(rt.alloc())?);
    Ok(())
}

/// Each of the four fields that StrictNoSign forbids makes a message a signed one, even empty.
fn is_signed_by(alloc: Global, field: u8) -> Result<bool, AllocError> {
    let mut message = message(alloc, b"abc")?;
    let is_plain = !message.is_signed();
    let empty = Some(Shared::new(alloc, Bytes::new())?);
    match field {
        0 => message.origin = empty,
        1 => message.seqno = empty,
        2 => message.signature = empty,
        _ => message.key = empty,
    }
    Ok(is_plain && message.is_signed())
}

#[test]
fn a_message_with_a_signature_is_a_signed_one(rt: HostRuntime) -> Result<(), AllocError> {
    for field in 0..4 {
        assert!(rt; is_signed_by(rt.alloc(), field)?);
    }
    Ok(())
}

/// A published message is the only part of its RPC.
fn publishes_alone(alloc: Global) -> Result<bool, AllocError> {
    let abc = Bytes::copy_from_slice(alloc, b"abc")?;
    let published = Rpc::publication(alloc, &topic(alloc)?, &abc)?;
    let wanted = rpc(alloc, &[b"abc"])?;
    Ok(published == wanted)
}

/// Whether an RPC announces a subscription to this topic, and nothing more.
fn announces(joins: &Rpc, topic: &Topic) -> bool {
    match joins.subs.as_slice() {
        [sub] => match &sub.topic {
            Some(named) => {
                sub.subscribe == Some(true) && named == topic && joins.publish.is_empty()
            }
            None => false,
        },
        _ => false,
    }
}

/// A subscription is the only part of its RPC.
fn announces_alone(alloc: Global) -> Result<bool, AllocError> {
    let topic = topic(alloc)?;
    let joins = Rpc::announcement(alloc, true, &topic)?;
    let is_told = announces(&joins, &topic);
    drop(joins);
    drop(topic);
    Ok(is_told)
}

#[test]
fn a_publication_and_an_announcement_say_one_thing(rt: HostRuntime) -> Result<(), AllocError> {
    assert!(rt; publishes_alone(rt.alloc())?);
    assert!(rt; announces_alone(rt.alloc())?);
    Ok(())
}
