//! RPCs that are joined, as bodies that were written by hand.
use crate::tests::wire::sizes::add_body;
use gs_base::Rpc;
use gs_wire::{WireFault, decode, encode, join};
use std::alloc::Global;

/// Two bodies, and the body of the RPC that both are joined to.
static BODIES: [(&str, &[u8], &[u8], &[u8]); 10] = [
    ("neither says anything", b"", b"", b""),
    (
        "subscriptions, which are in order",
        b"\x0a\x05\x08\x01\x12\x01a",
        b"\x0a\x05\x08\x00\x12\x01b",
        b"\x0a\x05\x08\x01\x12\x01a\x0a\x05\x08\x00\x12\x01b",
    ),
    (
        "messages, which are in order",
        b"\x12\x08\x12\x03abc\x22\x01a",
        b"\x12\x06\x12\x01d\x22\x01b",
        b"\x12\x08\x12\x03abc\x22\x01a\x12\x06\x12\x01d\x22\x01b",
    ),
    (
        "only control messages of the first",
        b"\x1a\x05\x1a\x03\x0a\x01a",
        b"\x0a\x05\x08\x01\x12\x01a",
        b"\x0a\x05\x08\x01\x12\x01a\x1a\x05\x1a\x03\x0a\x01a",
    ),
    (
        "only control messages of the second",
        b"\x0a\x05\x08\x01\x12\x01a",
        b"\x1a\x05\x1a\x03\x0a\x01a",
        b"\x0a\x05\x08\x01\x12\x01a\x1a\x05\x1a\x03\x0a\x01a",
    ),
    (
        "control messages of both, which are one record",
        b"\x1a\x05\x1a\x03\x0a\x01a",
        b"\x1a\x05\x1a\x03\x0a\x01b",
        b"\x1a\x0a\x1a\x03\x0a\x01a\x1a\x03\x0a\x01b",
    ),
    (
        "control messages of the first that are there and say nothing",
        b"\x1a\x00",
        b"",
        b"\x1a\x00",
    ),
    (
        "control messages of the second that are there and say nothing",
        b"",
        b"\x1a\x00",
        b"\x1a\x00",
    ),
    (
        "control messages of which those of the first say nothing",
        b"\x1a\x00",
        b"\x1a\x05\x1a\x03\x0a\x01a",
        b"\x1a\x05\x1a\x03\x0a\x01a",
    ),
    (
        "each list of both: a subscription, a message, an offer, a request, a GRAFT and a PRUNE",
        b"\x0a\x05\x08\x01\x12\x01a\x12\x08\x12\x03abc\x22\x01a\
          \x1a\x19\x0a\x06\x0a\x01a\x12\x01x\x12\x03\x0a\x01y\x1a\x03\x0a\x01a\x22\x05\x0a\x01a\x18\x3c",
        b"\x0a\x05\x08\x00\x12\x01b\x12\x06\x12\x01d\x22\x01b\
          \x1a\x19\x0a\x06\x0a\x01b\x12\x01z\x12\x03\x0a\x01w\x1a\x03\x0a\x01b\x22\x05\x0a\x01b\x18\x3d",
        b"\x0a\x05\x08\x01\x12\x01a\x0a\x05\x08\x00\x12\x01b\
          \x12\x08\x12\x03abc\x22\x01a\x12\x06\x12\x01d\x22\x01b\
          \x1a\x32\x0a\x06\x0a\x01a\x12\x01x\x0a\x06\x0a\x01b\x12\x01z\
          \x12\x03\x0a\x01y\x12\x03\x0a\x01w\x1a\x03\x0a\x01a\x1a\x03\x0a\x01b\
          \x22\x05\x0a\x01a\x18\x3c\x22\x05\x0a\x01b\x18\x3d",
    ),
];

/// Joins the RPC of a body to another RPC, and returns the answer.
fn join_body(alloc: Global, rpc: &mut Rpc, body: &[u8]) -> Result<bool, WireFault> {
    let more = decode(alloc, body)?;
    let fits = join(alloc, rpc, &more);
    drop(more);
    fits
}

/// Joins the RPC of the second body to that of the first. It returns the answer, and adds the body of the first after that.
fn joined(
    alloc: Global,
    first: &[u8],
    second: &[u8],
    body: &mut Vec<u8>,
) -> Result<bool, WireFault> {
    let mut rpc = decode(alloc, first)?;
    let fits = join_body(alloc, &mut rpc, second);
    let end = encode(&rpc, body);
    drop(rpc);
    end?;
    fits
}

/// Whether the RPCs of two bodies are joined to that of the third.
fn are_joined(alloc: Global, first: &[u8], second: &[u8], both: &[u8]) -> Result<bool, WireFault> {
    let mut body = Vec::new(alloc);
    Ok(joined(alloc, first, second, &mut body)? && body.as_slice() == both)
}

#[test]
fn each_list_is_joined_in_order(rt: HostRuntime) {
    for (name, first, second, both) in &BODIES {
        assert!(rt;
            matches!(are_joined(rt.alloc(), first, second, both), Ok(true)),
            "{name}"
        );
    }
}

/// A message on the topic `t` and control messages, to which another RPC is joined or not.
struct Limit {
    /// How long the payload of the message is.
    payload: usize,
    control: &'static [u8],
    second: &'static [u8],
    fits: bool,
    /// How long the body of the first is then.
    body: usize,
}

/// A message takes eleven bytes more than its payload here, and a subscription seven. Two GRAFTs take seven bytes
/// each, and twelve together.
static LIMITS: [Limit; 4] = [
    Limit {
        payload: 1_048_558,
        control: b"",
        second: b"\x0a\x05\x08\x01\x12\x01a",
        fits: true,
        body: 1_048_576,
    },
    Limit {
        payload: 1_048_559,
        control: b"",
        second: b"\x0a\x05\x08\x01\x12\x01a",
        fits: false,
        body: 1_048_570,
    },
    Limit {
        payload: 1_048_553,
        control: b"\x1a\x05\x1a\x03\x0a\x01a",
        second: b"\x1a\x05\x1a\x03\x0a\x01b",
        fits: true,
        body: 1_048_576,
    },
    Limit {
        payload: 1_048_554,
        control: b"\x1a\x05\x1a\x03\x0a\x01a",
        second: b"\x1a\x05\x1a\x03\x0a\x01b",
        fits: false,
        body: 1_048_572,
    },
];

/// Whether the second RPC is joined to the first or not, as it must be. If not, the first is as it was.
fn keeps(alloc: Global, limit: &Limit) -> Result<bool, WireFault> {
    let mut first = Vec::new(alloc);
    let mut body = Vec::new(alloc);
    add_body(alloc, &mut first, &[limit.payload])?;
    first.extend_from_slice(limit.control)?;
    let fits = joined(alloc, &first, limit.second, &mut body)?;
    Ok(fits == limit.fits && body.len() == limit.body && (fits || body == first))
}

/// An RPC that is one byte too long is not joined, and the first is as it was.
#[test]
fn an_rpc_is_joined_up_to_the_limit(rt: HostRuntime) {
    for limit in &LIMITS {
        assert!(rt;
            matches!(keeps(rt.alloc(), limit), Ok(true)),
            "{}",
            limit.payload
        );
    }
}
