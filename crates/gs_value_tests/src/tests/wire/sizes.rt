//! Bodies and frames of many sizes, spelled by hand.
use crate::tests::wire::streams::feed_all;
use bytes::Bytes;
use gs_base::{Rpc, Topic};
use gs_wire::{FrameReader, MAX_BODY, WireFault, decode, encode, encode_frame, publish_len};
use std::alloc::{AllocError, Global};

/// The length of a payload, and those of its body and its frame.
static SIZES: [(usize, usize, usize); 7] = [
    (13, 20, 21),
    (98, 105, 106),
    (131, 140, 142),
    (1_000, 1_009, 1_011),
    (16_378, 16_388, 16_391),
    (65_536, 65_547, 65_550),
    (1_048_565, 1_048_576, 1_048_579),
];

/// How many bytes are fed at once.
static PIECES: [usize; 4] = [1, 64, 65_536, 4_194_304];

/// Adds the varint of a number below 2^21.
fn add_varint(bytes: &mut Vec<u8>, number: usize) -> Result<(), AllocError> {
    let low = (number % 128) as u8;
    let middle = (number / 128 % 128) as u8;
    let high = (number / 16_384 % 128) as u8;
    if number < 128 {
        bytes.extend_from_slice(&[low])
    } else if number < 16_384 {
        bytes.extend_from_slice(&[low + 128, middle])
    } else {
        bytes.extend_from_slice(&[low + 128, middle + 128, high])
    }
}

/// Adds the length of a part, and the part.
fn add_sized(bytes: &mut Vec<u8>, part: &[u8]) -> Result<(), AllocError> {
    add_varint(bytes, part.len())?;
    bytes.extend_from_slice(part)
}

/// Adds the fields of a message: a payload of this many sevens, and the topic `t`.
fn add_fields(fields: &mut Vec<u8>, len: usize) -> Result<(), AllocError> {
    fields.push(0x12)?;
    add_varint(fields, len)?;
    fields.resize(fields.len().saturating_add(len), 7)?;
    fields.extend_from_slice(b"\x22\x01t")
}

/// Adds the record of a message with a payload of this length.
fn add_message(alloc: Global, body: &mut Vec<u8>, len: usize) -> Result<(), AllocError> {
    let mut fields = Vec::new(alloc);
    add_fields(&mut fields, len)?;
    body.push(0x12)?;
    add_sized(body, &fields)
}

/// Adds the body of an RPC with messages whose payloads have these lengths.
pub fn add_body(alloc: Global, body: &mut Vec<u8>, lens: &[usize]) -> Result<(), AllocError> {
    for len in lens {
        add_message(alloc, body, *len)?;
    }
    Ok(())
}

/// Adds the frame of such an RPC.
pub fn add_frame(alloc: Global, frames: &mut Vec<u8>, lens: &[usize]) -> Result<(), AllocError> {
    let mut body = Vec::new(alloc);
    add_body(alloc, &mut body, lens)?;
    add_sized(frames, &body)
}

/// A payload of this many sevens.
fn payload_of(alloc: Global, len: usize) -> Result<Bytes, AllocError> {
    let payload = vec![in alloc; 7u8; len]?;
    Ok(Bytes::from_vec(payload)?)
}

/// The RPC that publishes a payload of this many sevens on the topic `t`.
pub fn published(alloc: Global, len: usize) -> Result<Rpc, WireFault> {
    let payload = payload_of(alloc, len)?;
    Ok(Rpc::publication(alloc, &Topic(Bytes::from_static(b"t")), &payload)?)
}

/// What `publish_len` answers for such a payload.
fn counted(alloc: Global, len: usize) -> Result<usize, AllocError> {
    let payload = payload_of(alloc, len)?;
    Ok(publish_len(&Topic(Bytes::from_static(b"t")), payload.as_slice()))
}

/// Whether the body is read as the RPC.
fn is_read(alloc: Global, body: &[u8], rpc: &Rpc) -> bool {
    match decode(alloc, body) {
        Ok(read) => read == *rpc,
        Err(_) => false,
    }
}

/// Whether the RPC is written as the body and as the frame.
fn is_written(alloc: Global, rpc: &Rpc, body: &[u8], frame: &[u8]) -> bool {
    let mut written = Vec::new(alloc);
    let as_body = encode(rpc, &mut written).is_ok() && written.as_slice() == body;
    written.clear();
    let as_frame = encode_frame(rpc, &mut written).is_ok() && written.as_slice() == frame;
    as_body && as_frame
}

/// Whether the RPC has a body and a frame of these lengths, which are decoded and encoded.
fn is_spelled(
    alloc: Global,
    rpc: &Rpc,
    payload: usize,
    body_len: usize,
    frame_len: usize,
) -> Result<bool, AllocError> {
    let mut body = Vec::new(alloc);
    let mut frame = Vec::new(alloc);
    add_body(alloc, &mut body, &[payload])?;
    add_frame(alloc, &mut frame, &[payload])?;
    let lens = body.len() == body_len && frame.len() == frame_len;
    Ok(lens && is_read(alloc, &body, rpc) && is_written(alloc, rpc, &body, &frame))
}

/// Whether all of this is so for a payload of this length, and `publish_len` answers the length of the body.
fn has_size(
    alloc: Global,
    payload: usize,
    body_len: usize,
    frame_len: usize,
) -> Result<bool, WireFault> {
    let len = counted(alloc, payload)?;
    let rpc = published(alloc, payload)?;
    let spelled = is_spelled(alloc, &rpc, payload, body_len, frame_len);
    drop(rpc);
    Ok(spelled? && len == body_len)
}

#[test]
fn bodies_of_each_size_are_decoded_and_encoded(rt: HostRuntime) {
    for (payload, body, frame) in &SIZES {
        assert!(rt;
            matches!(has_size(rt.alloc(), *payload, *body, *frame), Ok(true)),
            "{payload}"
        );
    }
}

/// Whether the stream, in pieces of this many bytes, is the RPC twice, and nothing is pending then.
fn is_fed(alloc: Global, stream: &[u8], piece: usize, rpc: &Rpc) -> bool {
    let mut reader = FrameReader::new(alloc, MAX_BODY);
    let mut rpcs = Vec::new(alloc);
    let (fault, _) = feed_all(alloc, &mut reader, stream, piece, &mut rpcs);
    let twice = match rpcs.as_slice() {
        [first, second] => *first == *rpc && *second == *rpc,
        _ => false,
    };
    matches!(fault, None) && twice && reader.pending() == 0
}

/// Whether two frames of a payload of this length are fed, in pieces of `piece` bytes.
fn is_fed_twice(alloc: Global, payload: usize, piece: usize) -> Result<bool, WireFault> {
    let mut stream = Vec::new(alloc);
    add_frame(alloc, &mut stream, &[payload])?;
    add_frame(alloc, &mut stream, &[payload])?;
    let rpc = published(alloc, payload)?;
    Ok(is_fed(alloc, &stream, piece, &rpc))
}

#[test]
fn frames_of_each_size_are_fed(rt: HostRuntime) {
    for (payload, _, _) in &SIZES {
        for piece in &PIECES {
            let fed = is_fed_twice(rt.alloc(), *payload, *piece);
            assert!(rt; matches!(fed, Ok(true)), "{payload} by {piece}");
        }
    }
}
