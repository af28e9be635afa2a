//! What peers hand to each other.
use gs_base::{PeerNo, Rpc, Shared};

/// How what a neighbour says ends.
#[derive(Clone, Copy, Debug, PartialEq, Eq)]
pub enum Ending {
    /// Its bytes spell no RPC, or end within one.
    Fault,
    /// It has closed its link.
    Gone,
}

/// What a peer says to a neighbour in one round.
#[derive(Drop)]
pub struct Letter {
    /// The peer that it comes from.
    pub from: PeerNo,
    /// The RPCs, in order.
    pub rpcs: Vec<Shared<Rpc>>,
    /// How the sender's side of the link ends, where it does.
    pub ending: Option<Ending>,
}
