//! Runs of a peer with one neighbour, over lists in memory, and what the peer says to it.
use crate::tests::peer::items::{PUBLISHES, SUBSCRIBES, Word};
use crate::tests::peer::made::{ONE, Pair};
use gs_router_testkit::Call;

/// The run of a peer, and what it says.
#[derive(Clone, Copy, Debug)]
pub struct Case<'a> {
    pub name: &'a str,
    /// The peer and its neighbour.
    pub pair: Pair,
    /// Its lines, each with its place in the plan and its round.
    pub script: &'a [(usize, u64, Call<'a>)],
    /// What its neighbour says, and then closes its link.
    pub hears: &'a [Word<'a>],
    /// The last round.
    pub rounds: u64,
    /// How many items the neighbour takes.
    pub room: usize,
    /// The case is played with each of these numbers. Every put whose count is a multiple of the number is refused, and none
    /// where it is 0.
    pub refusals: &'a [u64],
    /// What it says to its neighbour.
    pub says: &'a [Word<'a>],
}

/// Peer 1 without a script, in two rounds.
pub const NOTHING: Case<'static> = Case {
    name: "",
    pair: ONE,
    script: &[],
    hears: &[],
    rounds: 1,
    room: 100,
    refusals: &[0],
    says: &[],
};

/// Peer 1 subscribes to `a` in round 0 and again in round 2, and publishes `abc` in round 1.
pub const SCRIPT: &[(usize, u64, Call<'static>)] = &[
    (3, 2, Call::Subscribe("a")),
    (5, 0, Call::Subscribe("a")),
    (8, 1, Call::Publish("a", b"abc")),
];

/// What a neighbour says if it subscribes to `a` in the first of three rounds.
pub const SUBSCRIBER: &[Word<'static>] = &[Word::Piece(SUBSCRIBES), Word::Rounds(0, 2)];

/// The neighbour subscribes in round 0, which is heard in round 1, before `abc` is published. The line of round 2 is refused.
const SCRIPTED: Case<'static> = Case {
    name: "a script ends, however often a put is refused",
    script: SCRIPT,
    hears: SUBSCRIBER,
    rounds: 2,
    refusals: &[0, 2, 3],
    says: &[
        Word::Piece(SUBSCRIBES),
        Word::Rounds(0, 0),
        Word::Piece(PUBLISHES),
        Word::Rounds(1, 2),
    ],
    ..NOTHING
};

/// The peer hangs up after a message, in round 1. The neighbour hears that message, and nothing that comes after it.
const HANGS_UP: Case<'static> = Case {
    name: "a hang-up closes the link behind what was sent",
    script: &[
        (0, 0, Call::Subscribe("a")),
        (1, 1, Call::Publish("a", b"abc")),
        (2, 1, Call::HangUp(2)),
        (3, 1, Call::Publish("a", b"abd")),
        (4, 2, Call::Raw(2, b"abe")),
        (5, 2, Call::HangUp(2)),
    ],
    hears: SUBSCRIBER,
    rounds: 2,
    refusals: &[0, 2, 3],
    says: &[
        Word::Piece(SUBSCRIBES),
        Word::Rounds(0, 0),
        Word::Piece(PUBLISHES),
    ],
    ..NOTHING
};

const HANGS_UP_AT_ONCE: Case<'static> = Case {
    name: "behind a hang-up not even the end of the round is said",
    script: &[(0, 0, Call::HangUp(2))],
    ..NOTHING
};

/// 64 bytes, and the same 64 bytes backwards.
const FORTH: &[u8] = b"0123456789abcdefghijklmnopqrstuvwxyzABCDEFGHIJKLMNOPQRSTUVWXYZ-_";

const BACK: &[u8] = b"_-ZYXWVUTSRQPONMLKJIHGFEDCBAzyxwvutsrqponmlkjihgfedcba9876543210";

/// The first, and one byte more.
const OF_65: &[u8] = b"0123456789abcdefghijklmnopqrstuvwxyzABCDEFGHIJKLMNOPQRSTUVWXYZ-_+";

/// The first, the second, the first again, and eight bytes more.
const OF_200: &[u8] = b"0123456789abcdefghijklmnopqrstuvwxyzABCDEFGHIJKLMNOPQRSTUVWXYZ-_\
    _-ZYXWVUTSRQPONMLKJIHGFEDCBAzyxwvutsrqponmlkjihgfedcba9876543210\
    0123456789abcdefghijklmnopqrstuvwxyzABCDEFGHIJKLMNOPQRSTUVWXYZ-_\
    .,;:!?*#";

/// Texts of 0, 1, 64, 65 and 200 bytes, each between the frames of two subscriptions. They go in pieces of at most 64 bytes,
/// and the empty one goes in none. The last one goes before the close.
const PUTS_BYTES: Case<'static> = Case {
    name: "bytes go as they are, between the frames ahead of them and behind them",
    script: &[
        (0, 0, Call::Subscribe("a")),
        (1, 0, Call::Raw(2, b"")),
        (2, 0, Call::Subscribe("b")),
        (3, 0, Call::Raw(2, b"=")),
        (4, 0, Call::Subscribe("c")),
        (5, 0, Call::Raw(2, FORTH)),
        (6, 0, Call::Subscribe("d")),
        (7, 1, Call::Raw(2, OF_65)),
        (8, 1, Call::Subscribe("e")),
        (9, 1, Call::Raw(2, OF_200)),
        (10, 1, Call::Subscribe("f")),
        (11, 1, Call::Raw(2, b"~")),
        (12, 1, Call::HangUp(2)),
    ],
    hears: &[Word::Rounds(0, 1)],
    refusals: &[0, 2, 3],
    says: &[
        Word::Piece(SUBSCRIBES),
        Word::Piece(b"\x07\x0a\x05\x08\x01\x12\x01b"),
        Word::Piece(b"="),
        Word::Piece(b"\x07\x0a\x05\x08\x01\x12\x01c"),
        Word::Piece(FORTH),
        Word::Piece(b"\x07\x0a\x05\x08\x01\x12\x01d"),
        Word::Rounds(0, 0),
        Word::Piece(FORTH),
        Word::Piece(b"+"),
        Word::Piece(b"\x07\x0a\x05\x08\x01\x12\x01e"),
        Word::Piece(FORTH),
        Word::Piece(BACK),
        Word::Piece(FORTH),
        Word::Piece(b".,;:!?*#"),
        Word::Piece(b"\x07\x0a\x05\x08\x01\x12\x01f"),
        Word::Piece(b"~"),
    ],
    ..NOTHING
};

/// The neighbour subscribes, and closes its link at once. The end of round 0 is all that is said to it.
const IS_LEFT: Case<'static> = Case {
    name: "to a neighbour that has left nothing more is said",
    hears: &[Word::Piece(SUBSCRIBES)],
    says: &[Word::Rounds(0, 0)],
    ..NOTHING
};

/// A field 0 is a fault.
const AT_FAULT: Case<'static> = Case {
    name: "to a neighbour at fault nothing more is said",
    hears: &[Word::Piece(b"\x02\x00\x00")],
    says: &[Word::Rounds(0, 0)],
    ..NOTHING
};

pub static CASES: &[Case<'static>] = &[
    SCRIPTED,
    HANGS_UP,
    HANGS_UP_AT_ONCE,
    PUTS_BYTES,
    IS_LEFT,
    AT_FAULT,
];
