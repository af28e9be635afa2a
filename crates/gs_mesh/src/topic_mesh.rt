ghost use Rattle.std.specs.Prelude.{◌≡◌};
ghost use Rattle.gs_mesh.specs.Meshes.{nothing};

use crate::backoffs::Backoffs;
use crate::peer_list::PeerList;
use gs_base::Millis;
use std::alloc::Global;

/// What is kept about one topic (gossipsub v1.0, "Router State").
#[derive(Drop)]
pub struct TopicMesh {
    /// Whether the peer is subscribed to it.
    pub is_joined: bool,
    /// The neighbours that messages on it are passed on to.
    pub members: PeerList,
    /// The neighbours that get what the peer publishes without being subscribed.
    pub fanout: PeerList,
    /// When the peer last published on it without being subscribed, for as long as that keeps a fanout.
    pub last_published: Option<Millis>,
    /// Until when neighbours may not be grafted. It outlasts a subscription.
    pub backoffs: Backoffs,
}

impl TopicMesh {
    /// Returns what is kept at first, which is nothing. It takes no memory.
    pub(crate) fn new(alloc: Global) -> TopicMesh
        ensures { result ≡ nothing }
    {
        TopicMesh {
            is_joined: false,
            members: PeerList::new(alloc),
            fanout: PeerList::new(alloc),
            last_published: None,
            backoffs: Backoffs::new(alloc),
        }
    }
}
