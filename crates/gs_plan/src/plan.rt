ghost use Rattle.std.specs.Prelude.{◌≡◌};
ghost use Rattle.gs_plan.specs.Plans.{are_joined, highest_app_score, highest_phase, joins, longest_raw, longest_round, most_rounds};
ghost use Rattle.gs_plan.specs.Limits.{longest_input, most_peers};
ghost use Rattle.gs_plan.specs.declared.limits.Limits.TheVariants.{Large};

use crate::limits::{LONGEST_INPUT, MOST_PEERS};
use bytes::Bytes;
use gs_base::{ExactClone, PeerNo, Seq, Text, Topic, clone_of};
use gs_params::Params;
use std::alloc::AllocError;

/// The most milliseconds of a round.
pub const LONGEST_ROUND: u64 = 60_000;

/// The highest number of the last round.
pub const MOST_ROUNDS: u64 = 100_000;

/// The most bytes that a line of the script puts on a link unchanged.
pub const LONGEST_RAW: usize = 2_097_152;

/// The most milliseconds for which a peer had been up when round 0 began.
pub const HIGHEST_PHASE: u64 = 1_000_000_000;

/// The highest score that an application gives, in millionths. The lowest is its negative.
pub const HIGHEST_APP_SCORE: i64 = 1_000_000_000;

/// What is simulated. Every plan that was read satisfies `IsInRange`.
#[derive(Debug, Drop, PartialEq, Eq)]
pub struct Plan {
    /// The length of a round in milliseconds: 1 to 60,000.
    pub round_ms: u64,
    /// The number of the last round, where the first is 0: 1 to 100,000.
    pub rounds: u64,
    /// How many workers run the peers: 1 to 16.
    pub workers: u64,
    /// How many items a link holds: 1 to 1,024.
    pub capacity: u64,
    /// The seed of random choices: 0 to 2^63 - 1.
    pub seed: u64,
    /// The parameters of the peers, with those of each topic, in file order: 1 to 32 different ones.
    pub params: Params,
    /// The peers in file order: 1 to 4,096, with different names. A peer's number is its index.
    pub peers: Seq<PlannedPeer>,
    /// The dials in file order. No peer dials itself, and any two peers have at most one dial.
    pub dials: Seq<Dial>,
    /// The scores that applications give neighbours, in file order. A peer's application scores a neighbour at most once.
    pub apps: Seq<App>,
    /// The peering agreements, in file order. Each peer has at most one with the same neighbour.
    pub explicit: Seq<Explicit>,
    /// What the peers are to do, in file order.
    pub script: Seq<Line>,
}

/// A peer of a plan. Its number is its index among the peers.
#[derive(Debug, Drop, PartialEq, Eq)]
pub struct PlannedPeer {
    /// Its name: 1 to 32 of `a` to `z`, `0` to `9`, `_` and `-`.
    pub name: Text,
    /// Where it is: neighbours at one address count against each other (P6).
    pub address: Text,
    /// Its first random words. Those of its generator come after them (`SeededWords`).
    pub words: Seq<u32>,
    /// How long it had been up when round 0 began, in milliseconds: a multiple of `round_ms`, 0 to 10^9. Its heartbeats and
    /// decays come by the time for which it has been up.
    pub phase_ms: u64,
}

/// A connection of two peers, with a link in each direction. The first of the two dials.
#[derive(Clone, Copy, Debug, PartialEq, Eq)]
pub struct Dial {
    pub from: PeerNo,
    pub to: PeerNo,
}

/// The score that a peer's application gives a neighbour (P5).
#[derive(Clone, Copy, Debug, PartialEq, Eq)]
pub struct App {
    pub peer: PeerNo,
    pub about: PeerNo,
    /// In millionths: -10^9 to 10^9.
    pub value: i64,
}

/// A neighbour with which a peer has a peering agreement (gossipsub v1.1, Explicit Peering
/// Agreements). The neighbour has one with the peer only where another agreement says so.
#[derive(Clone, Copy, Debug, PartialEq, Eq)]
pub struct Explicit {
    pub peer: PeerNo,
    pub about: PeerNo,
}

/// What a peer is to do.
#[derive(Debug, Drop, PartialEq, Eq)]
pub struct Line {
    /// The round in which it is done: 0 to the last.
    pub at: u64,
    /// The peer that is to do it.
    pub peer: PeerNo,
    /// What it is to do. A peer that can't do it notes why, and continues.
    pub what: Act,
}

impl Clone for Line {
    ghost is_clone = { λ source copy. copy ≡ source };

    fn clone(&self) -> Result<Line, AllocError> {
        Ok(Line {
            at: self.at,
            peer: self.peer,
            what: clone_of(&self.what)?,
        })
    }
}

impl ExactClone for Line {
    ghost exact = { λ source copy same. same };
}

/// What a line of the script may tell a peer to do.
#[derive(Debug, Drop, PartialEq, Eq)]
pub enum Act {
    /// Subscribe to a topic (gossipsub v1.0, "Topic Membership", JOIN).
    Subscribe(Topic),
    /// Leave a topic (gossipsub v1.0, "Topic Membership", LEAVE).
    Unsubscribe(Topic),
    /// Publish a payload on a topic (gossipsub v1.0, "Message Processing").
    Publish(Topic, Bytes),
    /// Put these bytes, at most 2,097,152, on the link to a neighbour unchanged. They need not spell an RPC.
    Raw(PeerNo, Bytes),
    /// Close the link to a neighbour.
    HangUp(PeerNo),
}

impl Clone for Act {
    ghost is_clone = { λ source copy. copy ≡ source };

    fn clone(&self) -> Result<Act, AllocError> {
        match self {
            Act::Subscribe(topic) => Ok(Act::Subscribe(clone_of(topic)?)),
            Act::Unsubscribe(topic) => Ok(Act::Unsubscribe(clone_of(topic)?)),
            Act::Publish(topic, payload) => Ok(Act::Publish(clone_of(topic)?, clone_of(payload)?)),
            Act::Raw(to, bytes) => Ok(Act::Raw(*to, clone_of(bytes)?)),
            Act::HangUp(to) => Ok(Act::HangUp(*to)),
        }
    }
}

impl ExactClone for Act {
    ghost exact = { λ source copy same. same };
}

/// Says whether one of two peers dials the other.
pub fn are_joined(dials: &[Dial], one: PeerNo, other: PeerNo) -> bool
    ensures { result ≡ are_joined dials.now one other }
{
    dials.iter().any(|dial| joins(one, other, dial))
}

fn joins(one: PeerNo, other: PeerNo, dial: &Dial) -> bool
    ensures { result ≡ joins one other dial.now }
{
    (dial.from == one && dial.to == other) || (dial.from == other && dial.to == one)
}

/// The limits of plans in the code are those of the definitions.
pub fn limits_of_plans()
    ensures round { LONGEST_ROUND ≡ longest_round }
    ensures rounds { MOST_ROUNDS ≡ most_rounds }
    ensures peers { MOST_PEERS ≡ most_peers Large }
    ensures input { LONGEST_INPUT ≡ longest_input Large }
    ensures raw { LONGEST_RAW ≡ longest_raw }
    ensures phase { HIGHEST_PHASE ≡ highest_phase }
    ensures score { HIGHEST_APP_SCORE ≡ highest_app_score }
{}
