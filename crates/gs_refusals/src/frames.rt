//! Frames that are written and read.
use crate::seen::Seen;
use gs_base::Rpc;
use gs_wire::{FrameReader, WireFault, decode, encode, encode_frame};
use std::alloc::Global;

/// A body: a subscription, a message and two GRAFTs.
const BODY: &[u8] =
    b"\x0a\x05\x08\x01\x12\x01\x61\x12\x08\x12\x03abc\x22\x01\x61\x1a\x0a\x1a\x03\x0a\x01\x61\x1a\x03\x0a\x01\x62";

/// A stream of frames, as it comes: a subscription, a PRUNE, and the empty RPC.
static PIECES: [&[u8]; 4] = [
    b"\x07\x0a\x05\x08",
    b"\x01\x12\x01\x61\x09\x1a",
    b"\x07\x22\x05\x0a\x01\x61\x18\x3c\x00",
    b"\x07\x0a",
];

fn seen_as(answer: Result<(), WireFault>, is_same: bool) -> Seen {
    match answer {
        Ok(()) => Seen::Whole,
        Err(WireFault::NoMemory) => Seen::after(is_same),
        Err(_) => Seen::Wrong,
    }
}

/// Writes an RPC after what is written.
fn try_writing(rpc: &Rpc, buffer: &mut Vec<u8>) -> Seen {
    let answer = encode(rpc, buffer);
    let body = seen_as(answer, buffer.as_slice() == b"xy".as_slice());
    let before = buffer.len();
    let answer = encode_frame(rpc, buffer);
    body.and(seen_as(answer, buffer.len() == before))
}

fn try_body(alloc: Global) -> Seen {
    match decode(alloc, BODY) {
        Ok(rpc) => match b"xy".to_vec(alloc) {
            Ok(mut buffer) => try_writing(&rpc, &mut buffer),
            Err(_) => Seen::NoMemory,
        },
        Err(WireFault::NoMemory) => Seen::Refused,
        Err(_) => Seen::Wrong,
    }
}

/// Feeds a piece. If that runs out of memory, it feeds the same piece again.
fn try_piece(alloc: Global, reader: &mut FrameReader, rpcs: &mut Vec<Rpc>, piece: &[u8]) -> Seen {
    let before = (reader.pending(), rpcs.len());
    match reader.feed(alloc, piece, rpcs) {
        Ok(()) => Seen::Whole,
        Err(WireFault::NoMemory) if before == (reader.pending(), rpcs.len()) => {
            match reader.feed(alloc, piece, rpcs) {
                Ok(()) => Seen::Refused,
                Err(_) => Seen::NoMemory,
            }
        }
        Err(_) => Seen::Wrong,
    }
}

fn try_pieces(alloc: Global, reader: &mut FrameReader, rpcs: &mut Vec<Rpc>) -> Seen {
    let mut seen = Seen::Whole;
    for piece in PIECES {
        seen = seen.and(try_piece(alloc, reader, rpcs, piece));
    }
    match seen == Seen::NoMemory || (rpcs.len() == 3 && reader.pending() == 2) {
        true => seen,
        false => Seen::Wrong,
    }
}

/// Tries to read and write a body.
pub fn try_codec(alloc: Global) -> Seen {
    try_body(alloc)
}

/// Tries to read a stream.
pub fn try_reader(alloc: Global) -> Seen {
    let mut reader = FrameReader::new(alloc, 1_024);
    let mut rpcs = Vec::new(alloc);
    try_pieces(alloc, &mut reader, &mut rpcs)
}
