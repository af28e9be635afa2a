//! RPCs that are gathered, and the frames that they go out as, written by hand.
use crate::tests::wire::gathering::{Act, all_done, does_all, is_news};
use crate::tests::wire::sizes::published;
use gs_base::{Rpc, Shared};
use gs_wire::{Gathered, GatheredRpcs, WireFault, WrittenRpc};
use std::alloc::Global;

/// `news` is subscribed to.
const ANNOUNCEMENT: Act = Act::Body(b"\x0a\x08\x08\x01\x12\x04news", true);
/// The messages `abc` and `d` on `news`.
const MESSAGE: Act = Act::Body(b"\x12\x0b\x12\x03abc\x22\x04news", true);

const SHORT_MESSAGE: Act = Act::Body(b"\x12\x09\x12\x01d\x22\x04news", true);
/// The message `ab` on `news` was seen, and is asked for.
const OFFER: Act = Act::Body(b"\x1a\x0c\x0a\x0a\x0a\x04news\x12\x02ab", true);

const REQUEST: Act = Act::Body(b"\x1a\x06\x12\x04\x0a\x02ab", true);
/// The sender's mesh of `news`.
const GRAFT: Act = Act::Body(b"\x1a\x08\x1a\x06\x0a\x04news", true);

const REFUSED_GRAFT: Act = Act::Body(b"\x1a\x08\x1a\x06\x0a\x04news", false);

const PRUNE: Act = Act::Body(b"\x1a\x08\x22\x06\x0a\x04news", true);

const EMPTY_CONTROL: Act = Act::Body(b"\x1a\x00", true);

const TWO_GRAFTS: Act = Act::Frame(b"\x12\x1a\x10\x1a\x06\x0a\x04news\x1a\x06\x0a\x04news");

const ANNOUNCEMENT_AND_MESSAGE: Act = Act::Frame(
    b"\x17\x0a\x08\x08\x01\x12\x04news\x12\x0b\x12\x03abc\x22\x04news",
);

const ANNOUNCEMENT_AND_GRAFT: Act = Act::Frame(
    b"\x14\x0a\x08\x08\x01\x12\x04news\x1a\x08\x1a\x06\x0a\x04news",
);

/// RPCs that are gathered in turn, and the frame that they go out as. A frame takes a body of 1,048,576 bytes. A message
/// takes eleven bytes more than its payload here, a GRAFT takes ten by itself, and each further one eight.
static CASES: [(&str, &[Act]); 23] = [
    ("nothing", &[Act::Nothing]),
    (
        "an announcement",
        &[
            ANNOUNCEMENT,
            Act::Frame(b"\x0a\x0a\x08\x08\x01\x12\x04news"),
            Act::Nothing,
        ],
    ),
    (
        "an announcement and a GRAFT",
        &[ANNOUNCEMENT, GRAFT, ANNOUNCEMENT_AND_GRAFT],
    ),
    (
        "a GRAFT and an announcement",
        &[GRAFT, ANNOUNCEMENT, ANNOUNCEMENT_AND_GRAFT],
    ),
    (
        "a message and an announcement",
        &[MESSAGE, ANNOUNCEMENT, ANNOUNCEMENT_AND_MESSAGE],
    ),
    (
        "two messages",
        &[
            MESSAGE,
            SHORT_MESSAGE,
            Act::Frame(b"\x18\x12\x0b\x12\x03abc\x22\x04news\x12\x09\x12\x01d\x22\x04news"),
        ],
    ),
    ("two GRAFTs", &[GRAFT, GRAFT, TWO_GRAFTS]),
    (
        "an empty control and an announcement",
        &[
            EMPTY_CONTROL,
            ANNOUNCEMENT,
            Act::Frame(b"\x0c\x0a\x08\x08\x01\x12\x04news\x1a\x00"),
        ],
    ),
    (
        "each kind of control message",
        &[
            PRUNE,
            GRAFT,
            REQUEST,
            OFFER,
            Act::Frame(
                b"\x24\x1a\x22\x0a\x0a\x0a\x04news\x12\x02ab\x12\x04\x0a\x02ab\x1a\x06\x0a\x04news\x22\x06\x0a\x04news",
            ),
        ],
    ),
    (
        "each kind of list",
        &[
            PRUNE,
            MESSAGE,
            REQUEST,
            ANNOUNCEMENT,
            Act::Frame(
                b"\x27\x0a\x08\x08\x01\x12\x04news\x12\x0b\x12\x03abc\x22\x04news\x1a\x0e\x12\x04\x0a\x02ab\x22\x06\x0a\x04news",
            ),
        ],
    ),
    (
        "no control after two GRAFTs went out",
        &[
            GRAFT,
            GRAFT,
            TWO_GRAFTS,
            ANNOUNCEMENT,
            MESSAGE,
            ANNOUNCEMENT_AND_MESSAGE,
        ],
    ),
    (
        "a GRAFT after two went out",
        &[
            GRAFT,
            GRAFT,
            TWO_GRAFTS,
            ANNOUNCEMENT,
            GRAFT,
            ANNOUNCEMENT_AND_GRAFT,
        ],
    ),
    (
        "the longest message",
        &[
            Act::Message(1_048_565, true),
            Act::Messages(1_048_579, &[1_048_565]),
        ],
    ),
    ("a longer message", &[Act::Message(1_048_566, false)]),
    (
        "two messages that just fit",
        &[Act::Message(524_277, true), Act::Message(524_277, true)],
    ),
    (
        "two messages with a byte more",
        &[
            Act::Message(524_277, true),
            Act::Message(524_278, false),
            Act::Messages(524_291, &[524_277]),
            Act::Message(524_278, true),
        ],
    ),
    (
        "two long messages",
        &[Act::Message(600_000, true), Act::Message(600_000, false)],
    ),
    (
        "a message and a GRAFT that just fit",
        &[Act::Message(1_048_555, true), GRAFT],
    ),
    (
        "a message and a GRAFT with a byte more",
        &[Act::Message(1_048_556, true), REFUSED_GRAFT],
    ),
    (
        "a message and two GRAFTs that just fit",
        &[Act::Message(1_048_547, true), GRAFT, GRAFT],
    ),
    (
        "a message and two GRAFTs with a byte more",
        &[Act::Message(1_048_548, true), GRAFT, REFUSED_GRAFT],
    ),
    (
        "what is refused changes nothing",
        &[
            Act::Message(600_000, true),
            Act::Message(700_000, false),
            Act::Message(448_554, true),
            Act::Messages(1_048_579, &[600_000, 448_554]),
        ],
    ),
    (
        "what is refused goes out by itself",
        &[
            Act::Message(600_000, true),
            Act::Message(700_000, false),
            Act::Messages(600_014, &[600_000]),
            Act::Message(700_000, true),
            Act::Messages(700_014, &[700_000]),
        ],
    ),
];

#[test]
fn gathered_rpcs_go_out_as_one(rt: HostRuntime) {
    for (name, acts) in &CASES {
        assert!(rt;
            all_done(rt.alloc(), Gathered::new(rt.alloc()), acts),
            "{name}"
        );
    }
}

#[test]
fn gathered_rpcs_are_taken_as_one(rt: HostRuntime) {
    for (name, acts) in &CASES {
        assert!(rt;
            all_done(rt.alloc(), GatheredRpcs::new(rt.alloc()), acts),
            "{name}"
        );
    }
}

#[test]
fn joined_rpcs_have_the_same_frames(rt: HostRuntime) {
    for (name, acts) in &CASES {
        assert!(rt;
            all_done(rt.alloc(), Rpc::empty(rt.alloc()), acts),
            "{name}"
        );
    }
}

/// Says whether an RPC with a payload of this length has a frame of this length, or is too long where that is none.
fn is_written(alloc: Global, payload: usize, frame: Option<usize>) -> Result<bool, WireFault> {
    let rpc = Shared::new(alloc, published(alloc, payload)?)?;
    match WrittenRpc::new(alloc, &rpc) {
        Ok(written) => Ok(frame == Some(written.frame()?.len())),
        Err(WireFault::TooLong) => Ok(frame.is_none()),
        Err(fault) => Err(fault),
    }
}

#[test]
fn a_written_body_has_a_mebibyte_at_most(rt: HostRuntime) {
    for (payload, frame) in &[(1_048_565, Some(1_048_579)), (1_048_566, None)] {
        assert!(rt;
            matches!(is_written(rt.alloc(), *payload, *frame), Ok(true)),
            "{payload}"
        );
    }
}

/// RPCs, and whether they are taken as a subscription, the message `abc` and a GRAFT, all on `news`.
static VALUES: [(&str, &[Act], bool); 3] = [
    ("three RPCs", &[GRAFT, ANNOUNCEMENT, MESSAGE], true),
    ("only two of them", &[ANNOUNCEMENT, MESSAGE], false),
    (
        "one RPC that says all",
        &[Act::Body(
            b"\x0a\x08\x08\x01\x12\x04news\x12\x0b\x12\x03abc\x22\x04news\x1a\x08\x1a\x06\x0a\x04news",
            true,
        )],
        true,
    ),
];

#[test]
fn the_values_are_joined(rt: HostRuntime) {
    for (name, acts, same) in &VALUES {
        let mut gathered = GatheredRpcs::new(rt.alloc());
        assert!(rt;
            matches!(is_news(rt.alloc(), &mut gathered, acts, *same), Ok(true)),
            "{name}"
        );
    }
}

/// Whether nothing is gathered before a GRAFT is, something after that, and nothing after an RPC was taken.
fn is_emptied(alloc: Global, gathered: &mut GatheredRpcs) -> Result<bool, WireFault> {
    let before = gathered.is_empty();
    does_all(alloc, gathered, &[GRAFT])?;
    let between = gathered.is_empty();
    let taken = gathered.take(alloc)?.is_some();
    Ok(before && !between && taken && gathered.is_empty())
}

#[test]
fn what_is_taken_is_gathered_no_more(rt: HostRuntime) {
    let mut gathered = GatheredRpcs::new(rt.alloc());
    assert!(rt; matches!(is_emptied(rt.alloc(), &mut gathered), Ok(true)));
}
