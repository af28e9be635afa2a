//! Streams of frames, whole and in pieces, and what is pending or refused in them.
use gs_base::Rpc;
use gs_wire::{FrameReader, MAX_BODY, WireFault, encode_frame};
use std::alloc::Global;

/// A stream, and what a reader finds in it.
struct Stream {
    name: &'static str,
    /// The longest body that the reader takes.
    limit: usize,
    bytes: &'static [u8],
    /// The frames of its RPCs, written again.
    frames: &'static [u8],
    /// How many there are.
    count: usize,
    /// The first refusal.
    fault: Option<WireFault>,
    /// How many bytes are pending in the end.
    pending: usize,
}

const EMPTY: Stream = Stream {
    name: "an empty body",
    limit: MAX_BODY,
    bytes: b"\x00",
    frames: b"\x00",
    count: 1,
    fault: None,
    pending: 0,
};

const REFUSED: Stream = Stream {
    name: "",
    frames: b"",
    count: 0,
    fault: Some(WireFault::Malformed),
    ..EMPTY
};

static STREAMS: [Stream; 13] = [
    EMPTY,
    Stream {
        name: "a subscription",
        bytes: b"\x07\x0a\x05\x08\x01\x12\x01\x61",
        frames: b"\x07\x0a\x05\x08\x01\x12\x01\x61",
        ..EMPTY
    },
    Stream {
        name: "a message",
        bytes: b"\x0a\x12\x08\x12\x03\x61\x62\x63\x22\x01\x61",
        frames: b"\x0a\x12\x08\x12\x03\x61\x62\x63\x22\x01\x61",
        ..EMPTY
    },
    Stream {
        name: "a PRUNE",
        bytes: b"\x09\x1a\x07\x22\x05\x0a\x01\x61\x18\x3c",
        frames: b"\x09\x1a\x07\x22\x05\x0a\x01\x61\x18\x3c",
        ..EMPTY
    },
    Stream {
        name: "two control records, after a longer length",
        bytes: b"\x90\x00\x78\x01\x1a\x05\x1a\x03\x0a\x01\x61\x1a\x05\x1a\x03\x0a\x01\x62",
        frames: b"\x0c\x1a\x0a\x1a\x03\x0a\x01\x61\x1a\x03\x0a\x01\x62",
        ..EMPTY
    },
    Stream {
        name: "seven bytes of an unfinished frame",
        bytes: b"\x07\x0a\x05\x08\x01\x12\x01",
        frames: b"",
        count: 0,
        pending: 7,
        ..EMPTY
    },
    Stream {
        name: "a length that never ends",
        bytes: b"\x80\x80\x80\x80\x80\x80\x80\x80\x80\x80\x00",
        ..REFUSED
    },
    Stream {
        name: "field 0",
        bytes: b"\x02\x00\x00",
        ..REFUSED
    },
    Stream {
        name: "a group",
        bytes: b"\x01\x0b",
        ..REFUSED
    },
    Stream {
        name: "a length over the longest",
        bytes: b"\x81\x80\x40",
        fault: Some(WireFault::TooLong),
        ..REFUSED
    },
    Stream {
        name: "two frames, and then a group",
        bytes: b"\x00\x02\x1a\x00\x01\x0b\x00",
        frames: b"\x00\x02\x1a\x00",
        count: 2,
        ..REFUSED
    },
    Stream {
        name: "a body as long as the limit",
        limit: 2,
        bytes: b"\x02\x1a\x00",
        frames: b"\x02\x1a\x00",
        ..EMPTY
    },
    Stream {
        name: "a body that is a byte longer than the limit",
        limit: 1,
        bytes: b"\x02\x1a\x00",
        fault: Some(WireFault::TooLong),
        ..REFUSED
    },
];

/// Feeds a stream in pieces of at most this many bytes. It returns the first refusal. It says whether each feed after that
/// answered that the reader has failed, and added nothing.
pub fn feed_all(
    alloc: Global,
    reader: &mut FrameReader,
    stream: &[u8],
    piece: usize,
    rpcs: &mut Vec<Rpc>,
) -> (Option<WireFault>, bool) {
    let mut fault = None;
    let mut stays_failed = true;
    for bytes in stream.chunks(piece.max(1)) {
        let before = rpcs.len();
        match (reader.feed(alloc, bytes, rpcs), fault) {
            (Ok(()), None) => {}
            (Err(first), None) => fault = Some(first),
            (answer, Some(_)) => {
                stays_failed &= answer == Err(WireFault::Failed) && rpcs.len() == before;
            }
        }
    }
    (fault, stays_failed)
}

/// Whether the RPCs are written as these frames.
fn are_written(alloc: Global, rpcs: &[Rpc], frames: &[u8]) -> bool {
    let mut written = Vec::new(alloc);
    let mut fit = true;
    for rpc in rpcs {
        fit &= encode_frame(rpc, &mut written).is_ok();
    }
    fit && written.as_slice() == frames
}

/// Whether this is found in a stream that is fed in pieces of at most this many bytes.
fn is_found(alloc: Global, stream: &Stream, piece: usize) -> bool {
    let mut reader = FrameReader::new(alloc, stream.limit.min(MAX_BODY));
    let mut rpcs = Vec::new(alloc);
    let (fault, stays_failed) = feed_all(alloc, &mut reader, stream.bytes, piece, &mut rpcs);
    let ends = fault == stream.fault && stays_failed && reader.pending() == stream.pending;
    ends && rpcs.len() == stream.count && are_written(alloc, &rpcs, stream.frames)
}

#[test]
fn streams_are_read_however_they_are_cut(rt: HostRuntime) {
    for stream in &STREAMS {
        let whole = is_found(rt.alloc(), stream, stream.bytes.len());
        let cut = is_found(rt.alloc(), stream, 1);
        assert!(rt; whole && cut, "{}", stream.name);
    }
}

/// A piece of a stream, and how many RPCs there are and how many bytes are pending after it.
struct Piece {
    name: &'static str,
    bytes: &'static [u8],
    count: usize,
    pending: usize,
}

static PIECES: [Piece; 4] = [
    Piece {
        name: "the front of a subscription",
        bytes: b"\x07\x0a\x05",
        count: 0,
        pending: 3,
    },
    Piece {
        name: "more of it",
        bytes: b"\x08\x01",
        count: 0,
        pending: 5,
    },
    Piece {
        name: "its end, a message, and the front of a PRUNE",
        bytes: b"\x12\x01\x61\x0a\x12\x08\x12\x03\x61\x62\x63\x22\x01\x61\x09\x1a\x07",
        count: 2,
        pending: 3,
    },
    Piece {
        name: "the rest of the PRUNE",
        bytes: b"\x22\x05\x0a\x01\x61\x18\x3c",
        count: 3,
        pending: 0,
    },
];

/// Whether the reader takes the piece, and this is found then.
fn goes_on(alloc: Global, reader: &mut FrameReader, rpcs: &mut Vec<Rpc>, piece: &Piece) -> bool {
    let fed = reader.feed(alloc, piece.bytes, rpcs).is_ok();
    fed && rpcs.len() == piece.count && reader.pending() == piece.pending
}

#[test]
fn a_piece_ends_a_body_and_goes_on(rt: HostRuntime) {
    let mut reader = FrameReader::new(rt.alloc(), MAX_BODY);
    let mut rpcs = Vec::new(rt.alloc());
    for piece in &PIECES {
        assert!(rt;
            goes_on(rt.alloc(), &mut reader, &mut rpcs, piece),
            "{}",
            piece.name
        );
    }
}
