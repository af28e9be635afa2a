ghost use Rattle.std.specs.Prelude.{◌≡◌};
ghost use Rattle.gs_base.specs.Neighbours.{accepted_neighbour};

use crate::exact::{ExactClone, clone_of};
use crate::names::PeerNo;
use bytes::Bytes;
use std::alloc::AllocError;

/// A neighbour of a peer, and what that peer knows about it.
#[derive(Debug, Drop, PartialEq, Eq)]
pub struct Neighbour {
    /// Its number, by which links, traces and reports name it.
    pub peer: PeerNo,
    /// Whether the peer dialled it, and not the other way round (gossipsub v1.1, Outbound Mesh Quotas).
    pub outbound: bool,
    /// Its address. Neighbours at one address count against each other (gossipsub v1.1, Peer Scoring, P6).
    pub address: Bytes,
    /// The score that the application gives it, in millionths (gossipsub v1.1, Peer Scoring, P5).
    pub app: i128,
    /// Whether the peer has a peering agreement with it (gossipsub v1.1, Explicit Peering Agreements). If so, messages go to it
    /// while it is up and on their topic. Such a neighbour never enters a mesh or a fanout, and is never on the graylist.
    pub explicit: bool,
}

impl Neighbour {
    /// Returns a neighbour with defaults: it dialled, its application score is 0, and there is no peering agreement with
    /// it. `Neighbour { explicit: true, ..Neighbour::new(peer, address) }` changes a default.
    pub fn new(peer: PeerNo, address: Bytes) -> Neighbour
        ensures { result ≡ accepted_neighbour peer address }
    {
        Neighbour {
            peer,
            outbound: false,
            address,
            app: 0,
            explicit: false,
        }
    }
}

impl Clone for Neighbour {
    ghost is_clone = { λ source copy. copy ≡ source };

    fn clone(&self) -> Result<Neighbour, AllocError> {
        Ok(Neighbour {
            peer: self.peer,
            outbound: self.outbound,
            address: clone_of(&self.address)?,
            app: self.app,
            explicit: self.explicit,
        })
    }
}

impl ExactClone for Neighbour {
    ghost exact = { λ source copy same. same };
}
