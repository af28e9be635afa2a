use crate::names::{Millis, MsgId, PeerNo, Topic};
use crate::verdict::Verdict;

/// A fact to remember, in an entry's effects. Only marks raise counters of scores (gossipsub v1.1, Peer Scoring). Meshes,
/// fanouts and backoffs follow from marks (v1.0, Router State).
#[derive(Debug, Drop, PartialEq, Eq)]
pub enum Mark {
    /// A message with this identifier was seen, and got this verdict.
    Seen(MsgId, Verdict),
    /// A neighbour was the first to deliver a message on this topic (P2).
    First(PeerNo, Topic, MsgId),
    /// A mesh member delivered a message on this topic, first or soon after the first (P3).
    Near(PeerNo, Topic, MsgId),
    /// A neighbour passed on a message on this topic that nobody may send (P4).
    Invalid(PeerNo, Topic),
    /// A neighbour left the topic's mesh with this deficit of deliveries, squared, in millionths (P3b).
    Deficit(PeerNo, Topic, i128),
    /// A neighbour broke a promise, or asked to come back into a mesh too soon (P7).
    Misbehaviour(PeerNo),
    /// The message with this identifier is kept under this topic, for neighbours that ask for it (gossipsub v1.0, Message
    /// Cache).
    Cached(MsgId, Topic),
    /// A neighbour was sent a kept message that it asked for, which counts against `gossip_retransmission`.
    Answered(PeerNo, MsgId),
    /// An offer from a neighbour counted against its budget (`max_ihave`).
    Offered(PeerNo),
    /// A neighbour was asked for this many identifiers. They count against its budget (`max_ihave_ids`).
    Asked(PeerNo, u32),
    /// A neighbour entered the mesh of this topic, by a GRAFT from either side. Its time in the mesh counts from then on
    /// (P1).
    Grafted(PeerNo, Topic),
    /// A neighbour left the mesh of this topic, for any reason. Its counters stay.
    Pruned(PeerNo, Topic),
    /// A neighbour entered the fanout of this topic (gossipsub v1.0, Fanout Maintenance).
    Fanned(PeerNo, Topic),
    /// A neighbour left the fanout of this topic.
    Unfanned(PeerNo, Topic),
    /// A neighbour must not be grafted to the mesh of this topic before this moment (gossipsub v1.1, Prune Backoff).
    Backoff(PeerNo, Topic, Millis),
    /// The peer published on this topic without being subscribed. This keeps the topic's fanout.
    Published(Topic),
}
