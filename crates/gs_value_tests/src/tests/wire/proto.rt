//! Bodies, what they say, and the frames that they are written as again. They were written by hand from `rpc.proto` (libp2p
//! pubsub, "The RPC"; gossipsub v1.0 and v1.1, "Control messages"). So the numbers of the fields are those that peers of any
//! implementation use.
use crate::tests::wire::said::Says;

/// The name of a case, a body, what it says, and the frame that its RPC is written as.
type Reading = (&'static str, &'static [u8], Says, &'static [u8]);

pub static BODIES: [Reading; 17] = [
    // each message of `rpc.proto` with each of its fields
    (
        "subscriptions 1: { subscribe 1: true, topicid 2: news }",
        b"\x0a\x08\x08\x01\x12\x04news",
        Says::Subscribes(b"news"),
        b"\x0a\x0a\x08\x08\x01\x12\x04news",
    ),
    (
        "publish 2: { from 1: A, data 2: DD, seqno 3: NNN, topic 4: news, signature 5: SSSSS, key 6: KEYKEY }",
        b"\x12\x21\x0a\x01A\x12\x02DD\x1a\x03NNN\x22\x04news\x2a\x05SSSSS\x32\x06KEYKEY",
        Says::SixFields,
        b"\x23\x12\x21\x0a\x01A\x12\x02DD\x1a\x03NNN\x22\x04news\x2a\x05SSSSS\x32\x06KEYKEY",
    ),
    (
        "control 3: { ihave 1: { topicID 1: news, messageIDs 2: ab, messageIDs 2: c } }",
        b"\x1a\x0f\x0a\x0d\x0a\x04news\x12\x02ab\x12\x01c",
        Says::Offers,
        b"\x11\x1a\x0f\x0a\x0d\x0a\x04news\x12\x02ab\x12\x01c",
    ),
    (
        "control 3: { iwant 2: { messageIDs 1: ab, messageIDs 1: c } }",
        b"\x1a\x09\x12\x07\x0a\x02ab\x0a\x01c",
        Says::Asks,
        b"\x0b\x1a\x09\x12\x07\x0a\x02ab\x0a\x01c",
    ),
    (
        "control 3: { graft 3: { topicID 1: news } }",
        b"\x1a\x08\x1a\x06\x0a\x04news",
        Says::Grafts(&[b"news"]),
        b"\x0a\x1a\x08\x1a\x06\x0a\x04news",
    ),
    (
        "control 3: { prune 4: { topicID 1: news, backoff 3: 300 } }",
        b"\x1a\x0b\x22\x09\x0a\x04news\x18\xac\x02",
        Says::Prunes,
        b"\x0d\x1a\x0b\x22\x09\x0a\x04news\x18\xac\x02",
    ),
    // which is written without its peers
    (
        "control 3: { prune 4: { topicID 1: news, peers 2: { peerID 1: P1, signedPeerRecord 2: REC }, \
         peers 2: { peerID 1: P2 }, backoff 3: 300 } }",
        b"\x1a\x1c\x22\x1a\x0a\x04news\x12\x09\x0a\x02P1\x12\x03REC\x12\x04\x0a\x02P2\x18\xac\x02",
        Says::Prunes,
        b"\x0d\x1a\x0b\x22\x09\x0a\x04news\x18\xac\x02",
    ),
    (
        "control 3: { prune 4 } with peers that are no messages, which are skipped",
        b"\x1a\x0f\x22\x0d\x0a\x04news\x12\x02\xff\xff\x18\xac\x02",
        Says::Prunes,
        b"\x0d\x1a\x0b\x22\x09\x0a\x04news\x18\xac\x02",
    ),
    // what producers may write
    (
        "a subscription",
        b"\x0a\x05\x08\x01\x12\x01\x61",
        Says::Subscribes(b"a"),
        b"\x07\x0a\x05\x08\x01\x12\x01\x61",
    ),
    (
        "a message",
        b"\x12\x08\x12\x03\x61\x62\x63\x22\x01\x61",
        Says::Publishes(b"a", b"abc"),
        b"\x0a\x12\x08\x12\x03\x61\x62\x63\x22\x01\x61",
    ),
    ("nothing", b"", Says::Nothing, b"\x00"),
    (
        "two control records, after an unknown field",
        b"\x78\x01\x1a\x05\x1a\x03\x0a\x01\x61\x1a\x05\x1a\x03\x0a\x01\x62",
        Says::Grafts(&[b"a", b"b"]),
        b"\x0c\x1a\x0a\x1a\x03\x0a\x01\x61\x1a\x03\x0a\x01\x62",
    ),
    (
        "a control record that says nothing",
        b"\x1a\x00",
        Says::Grafts(&[]),
        b"\x02\x1a\x00",
    ),
    (
        "longer varints",
        b"\x8a\x80\x00\x86\x00\x08\x81\x00\x12\x01\x61",
        Says::Subscribes(b"a"),
        b"\x07\x0a\x05\x08\x01\x12\x01\x61",
    ),
    (
        "unknown fields",
        b"\x78\x01\x0a\x07\x08\x01\x12\x01\x61\x18\x05\x0d\x01\x02\x03\x04",
        Says::Subscribes(b"a"),
        b"\x07\x0a\x05\x08\x01\x12\x01\x61",
    ),
    (
        "known fields of another wire type",
        b"\x0a\x08\x08\x01\x12\x01\x61\x0a\x01\x62\x08\x05",
        Says::Subscribes(b"a"),
        b"\x07\x0a\x05\x08\x01\x12\x01\x61",
    ),
    (
        "repeated scalars",
        b"\x0a\x0a\x08\x00\x12\x01\x62\x12\x01\x61\x08\x02",
        Says::Subscribes(b"a"),
        b"\x07\x0a\x05\x08\x01\x12\x01\x61",
    ),
];

/// Bodies that spell no RPC: field 0, groups, unknown wire types, truncated records, and varints of more than 64 bits.
pub static MALFORMED: [(&str, &[u8]); 9] = [
    ("field 0", b"\x00\x00"),
    ("a group that does not end", b"\x0b"),
    ("a group", b"\x0b\x0c"),
    ("an unknown wire type", b"\x0f"),
    ("a record without its end", b"\x0a\x05\x08\x01\x12\x01"),
    ("a record without its value", b"\x0a\x01\x0a"),
    (
        "a varint of more than 64 bits",
        b"\x08\xff\xff\xff\xff\xff\xff\xff\xff\xff\x02",
    ),
    (
        "a varint of eleven bytes",
        b"\x08\x80\x80\x80\x80\x80\x80\x80\x80\x80\x80\x00",
    ),
    (
        "a control record that ends within a GRAFT",
        b"\x1a\x03\x1a\x02\x0a\x1a\x02\x01\x61",
    ),
];
