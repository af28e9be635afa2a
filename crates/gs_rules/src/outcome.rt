//! What becomes of a message that a neighbour passes on (gossipsub v1.0, "Message Processing"), of a GRAFT, and of a
//! fanout when the peer publishes.
use gs_base::MsgId;

/// What becomes of a message that a neighbour passes on.
#[derive(Clone, Copy, Debug, PartialEq, Eq)]
pub enum Outcome {
    /// Nothing happens. The router isn't subscribed, or the message was seen lately and counts neither for its sender nor
    /// against it.
    Dropped,
    /// It counts against its sender (gossipsub v1.1, Peer Scoring, P4).
    Invalid,
    /// It counts against its sender (P4), and its identifier is marked as seen and rejected.
    Rejected(MsgId),
    /// Its identifier is marked as seen.
    Ignored(MsgId),
    /// It was accepted a moment ago, and counts for its sender (gossipsub v1.1, Peer Scoring, P3).
    Near(MsgId),
    /// It is delivered, kept and passed on, and its identifier marked as seen.
    Accepted(MsgId),
}

/// What becomes of a GRAFT (gossipsub v1.0, "Control messages"; v1.1, "Prune Backoff").
#[derive(Clone, Copy, Debug, PartialEq, Eq)]
pub enum GraftAnswer {
    /// Nothing happens. The peer isn't subscribed, or the sender is already in the mesh.
    PassedOver,
    /// It is refused. Its sender is sent a PRUNE, and must not come back for a while.
    Refused(GraftRefusal),
    /// Its sender enters the mesh.
    Taken,
}

/// Why a GRAFT is refused. The first reason that applies counts.
#[derive(Clone, Copy, Debug, PartialEq, Eq)]
pub enum GraftRefusal {
    /// Its sender is explicit (gossipsub v1.1, "Explicit Peering Agreements").
    Explicit,
    /// It comes before the end of a backoff, which counts against its sender (gossipsub v1.1, "Prune Backoff").
    TooSoon,
    /// Its sender scores below 0.
    Negative,
    /// The mesh has no room for one that was not dialled.
    Full,
}

/// What becomes of the fanout of a topic when the peer publishes on it (gossipsub v1.0, "Fanout maintenance").
#[derive(Clone, Copy, Debug, PartialEq, Eq)]
pub enum FanoutUse {
    /// Nothing happens to it. The payload goes elsewhere.
    Unused,
    /// The payload goes to members of the fanout, which is kept.
    Kept,
    /// The neighbours that get the payload, except explicit ones, become the fanout.
    Filled,
}
