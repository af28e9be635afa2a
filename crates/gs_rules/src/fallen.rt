//! What neighbours sent or promised in vain.
use crate::outcome::GraftRefusal;
use crate::trace::Promise;
use gs_base::{MsgId, PeerNo, Topic};

/// Something that a neighbour sent or promised in vain.
#[derive(Debug, Drop, PartialEq, Eq)]
pub enum Fallen {
    /// An RPC was not heard, since its sender is on the graylist (gossipsub v1.1, "Peer Scoring").
    Graylisted(PeerNo),
    /// An RPC came after its sender was lost, or after the peer itself had shut down.
    Late(PeerNo),
    /// A GRAFT on a topic was refused.
    Graft(PeerNo, Topic, GraftRefusal),
    /// A neighbour that asked for a message does not get it.
    Request(PeerNo, MsgId, NoAnswer),
    /// A neighbour did not send a message that it had promised (gossipsub v1.1, "Spam Protection Measures").
    Broken(Promise),
}

/// Why a neighbour does not get a message that it asks for.
#[derive(Clone, Copy, Debug, PartialEq, Eq)]
pub enum NoAnswer {
    /// The neighbour scores below the threshold for gossip.
    Ignored,
    /// No such message is kept.
    NotKept,
    /// The neighbour got it as often as it may.
    TooOften,
}
