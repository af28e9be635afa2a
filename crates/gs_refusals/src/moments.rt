//! What routers do. One of them may be short of memory.
use gs_params::{DEFAULT_FACTORS, Factors};
use gs_router_testkit::Call::{Hear, Heartbeat, Subscribe};
use gs_router_testkit::CasePart::{Graft, Have, Message, Prune, Want};
use gs_router_testkit::{Call, Case, CasePart, Kind, NOTHING};

/// What a router does at which moments, and what it has left of that in the end.
pub struct Moment {
    pub name: &'static str,
    pub case: Case<'static>,
    pub calls: &'static [(u64, Call<'static>)],
    pub ends: TraceEnd,
}

/// How a trace ends.
pub struct TraceEnd {
    pub entries: usize,
    /// How many RPCs were sent.
    pub sends: usize,
    /// How often a neighbour was charged for its behaviour.
    pub charges: usize,
    /// Who is in the mesh of `a`.
    pub members: &'static [u16],
}

const GRAFT: &[CasePart<'static>] = &[Graft("a")];

/// The router announces `a` to both neighbours. The first GRAFT comes in the backoff, and is charged and answered. The
/// second one comes after it.
pub static A_BACKOFF: Moment = Moment {
    name: "a router that hears a PRUNE, and GRAFTs in its backoff and after it",
    case: Case {
        factors: Factors {
            w7: 0,
            ..DEFAULT_FACTORS
        },
        ..NOTHING
    },
    calls: &[
        (0, Subscribe("a")),
        (0, Hear(1, &[Prune("a", Some(1))])),
        (999, Hear(1, GRAFT)),
        (60_999, Hear(1, GRAFT)),
    ],
    ends: TraceEnd {
        entries: 7,
        sends: 3,
        charges: 1,
        members: &[1],
    },
};

/// A payload, four times.
const FOUR_TIMES: &[&[u8]] = &[&[1], &[1], &[1], &[1]];

/// The router announces `a` to both neighbours. Ten of the twelve offers are answered, and three of the four requests. Only
/// the promise of `00` is broken, and charged at the third heartbeat. What came is gossiped at three of the heartbeats, to
/// nobody.
pub static OFFERS: Moment = Moment {
    name: "a router that hears twelve offers, nine messages and four requests, and has four heartbeats",
    case: NOTHING,
    calls: &[
        (0, Subscribe("a")),
        (0, Hear(1, &[Have("a", &[&[0]])])),
        (0, Hear(1, &[Have("a", &[&[1]])])),
        (0, Hear(1, &[Have("a", &[&[2]])])),
        (0, Hear(1, &[Have("a", &[&[3]])])),
        (0, Hear(1, &[Have("a", &[&[4]])])),
        (0, Hear(1, &[Have("a", &[&[5]])])),
        (0, Hear(1, &[Have("a", &[&[6]])])),
        (0, Hear(1, &[Have("a", &[&[7]])])),
        (0, Hear(1, &[Have("a", &[&[8]])])),
        (0, Hear(1, &[Have("a", &[&[9]])])),
        (0, Hear(1, &[Have("a", &[&[10]])])),
        (0, Hear(1, &[Have("a", &[&[11]])])),
        (500, Hear(1, &[Message("a", &[1])])),
        (500, Hear(1, &[Message("a", &[2])])),
        (500, Hear(1, &[Message("a", &[3])])),
        (500, Hear(1, &[Message("a", &[4])])),
        (500, Hear(1, &[Message("a", &[5])])),
        (500, Hear(1, &[Message("a", &[6])])),
        (500, Hear(1, &[Message("a", &[7])])),
        (500, Hear(1, &[Message("a", &[8])])),
        (500, Hear(1, &[Message("a", &[9])])),
        (500, Hear(1, &[Want(FOUR_TIMES)])),
        (1_000, Heartbeat),
        (2_000, Heartbeat),
        (3_000, Heartbeat),
        (4_000, Heartbeat),
    ],
    ends: TraceEnd {
        entries: 60,
        sends: 15,
        charges: 1,
        members: &[],
    },
};

/// The router announces `a` to all thirteen. They come into its mesh, the last of them because it was dialled. Six stay: the
/// four best and the two that were dialled. The four best are the three that the application praises, and the first of the
/// others.
pub static GRAFTS: Moment = Moment {
    name: "a router that hears thirteen GRAFTs, and has a heartbeat",
    case: Case {
        neighbours: 13,
        kinds: &[
            Kind::Praised,
            Kind::Praised,
            Kind::Praised,
            Kind::Plain,
            Kind::Plain,
            Kind::Plain,
            Kind::Plain,
            Kind::Plain,
            Kind::Plain,
            Kind::Plain,
            Kind::Plain,
            Kind::Dialled,
            Kind::Dialled,
        ],
        ..NOTHING
    },
    calls: &[
        (0, Subscribe("a")),
        (0, Hear(1, GRAFT)),
        (0, Hear(2, GRAFT)),
        (0, Hear(3, GRAFT)),
        (0, Hear(4, GRAFT)),
        (0, Hear(5, GRAFT)),
        (0, Hear(6, GRAFT)),
        (0, Hear(7, GRAFT)),
        (0, Hear(8, GRAFT)),
        (0, Hear(9, GRAFT)),
        (0, Hear(10, GRAFT)),
        (0, Hear(11, GRAFT)),
        (0, Hear(12, GRAFT)),
        (0, Hear(13, GRAFT)),
        (1_000, Heartbeat),
    ],
    ends: TraceEnd {
        entries: 30,
        sends: 20,
        charges: 0,
        members: &[1, 2, 3, 4, 12, 13],
    },
};
