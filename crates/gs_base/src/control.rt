//! The control messages of gossipsub v1.0 and v1.1, field by field as `rpc.proto` has them.
ghost use Rattle.std.specs.Prelude.{◌≡◌, [], None};
ghost use Rattle.gs_base.specs.Rpcs.{empty_control, grafts_in, offers_in, prunes_in, requests_in};

use crate::exact::{ExactClone, clone_option};
use crate::names::Topic;
use crate::part::Part;
use crate::rpc::Rpc;
use crate::seq::Seq;
use bytes::Bytes;
use std::alloc::{AllocError, Global};

/// An offer of messages that the sender has seen (`ControlIHave`).
#[derive(Debug, Drop, PartialEq, Eq)]
pub struct IHave {
    /// The topic that they were published on (`topicID`).
    pub topic: Option<Topic>,
    /// Their identifiers (`messageIDs`): any bytes. A router passes over those that are not 32 bytes.
    pub ids: Seq<Bytes>,
}

impl Clone for IHave {
    ghost is_clone = { λ source copy. copy ≡ source };

    fn clone(&self) -> Result<IHave, AllocError> {
        Ok(IHave {
            topic: clone_option(&self.topic)?,
            ids: self.ids.clone()?,
        })
    }
}

impl ExactClone for IHave {
    ghost exact = { λ source copy same. same };
}

impl Part for IHave {
    ghost parts = { λ rpc. offers_in rpc.control };

    ghost bare = { record { topic = None; ids = [] } };

    fn parts_of(rpc: &Rpc) -> &[IHave] {
        match &rpc.control {
            Some(control) => control.ihave.as_slice(),
            None => &[],
        }
    }
}

/// A request for messages (`ControlIWant`).
#[derive(Debug, Drop, PartialEq, Eq)]
pub struct IWant {
    /// Their identifiers (`messageIDs`).
    pub ids: Seq<Bytes>,
}

impl Clone for IWant {
    ghost is_clone = { λ source copy. copy ≡ source };

    fn clone(&self) -> Result<IWant, AllocError> {
        Ok(IWant {
            ids: self.ids.clone()?,
        })
    }
}

impl ExactClone for IWant {
    ghost exact = { λ source copy same. same };
}

impl Part for IWant {
    ghost parts = { λ rpc. requests_in rpc.control };

    ghost bare = { record { ids = [] } };

    fn parts_of(rpc: &Rpc) -> &[IWant] {
        match &rpc.control {
            Some(control) => control.iwant.as_slice(),
            None => &[],
        }
    }
}

/// The sender puts the receiver into its mesh (`ControlGraft`).
#[derive(Debug, Drop, PartialEq, Eq)]
pub struct Graft {
    /// The topic of the mesh (`topicID`).
    pub topic: Option<Topic>,
}

impl Clone for Graft {
    ghost is_clone = { λ source copy. copy ≡ source };

    fn clone(&self) -> Result<Graft, AllocError> {
        Ok(Graft {
            topic: clone_option(&self.topic)?,
        })
    }
}

impl ExactClone for Graft {
    ghost exact = { λ source copy same. same };
}

impl Part for Graft {
    ghost parts = { λ rpc. grafts_in rpc.control };

    ghost bare = { record { topic = None } };

    fn parts_of(rpc: &Rpc) -> &[Graft] {
        match &rpc.control {
            Some(control) => control.graft.as_slice(),
            None => &[],
        }
    }
}

/// The sender takes the receiver out of its mesh (`ControlPrune`). The peers that it offers in exchange are not kept.
#[derive(Debug, Drop, PartialEq, Eq)]
pub struct Prune {
    /// The topic of the mesh (`topicID`).
    pub topic: Option<Topic>,
    /// For how long the receiver must not graft the sender, in seconds. If it is absent or 0, the receiver uses its own
    /// `prune_backoff_s`.
    pub backoff: Option<u64>,
}

impl Clone for Prune {
    ghost is_clone = { λ source copy. copy ≡ source };

    fn clone(&self) -> Result<Prune, AllocError> {
        Ok(Prune {
            topic: clone_option(&self.topic)?,
            backoff: self.backoff,
        })
    }
}

impl ExactClone for Prune {
    ghost exact = { λ source copy same. same };
}

impl Part for Prune {
    ghost parts = { λ rpc. prunes_in rpc.control };

    ghost bare = { record { topic = None; backoff = None } };

    fn parts_of(rpc: &Rpc) -> &[Prune] {
        match &rpc.control {
            Some(control) => control.prune.as_slice(),
            None => &[],
        }
    }
}

/// The control messages of an RPC: offers, requests, grafts and prunes (`ControlMessage`).
#[derive(Debug, Drop, PartialEq, Eq)]
pub struct Control {
    pub ihave: Seq<IHave>,
    pub iwant: Seq<IWant>,
    pub graft: Seq<Graft>,
    pub prune: Seq<Prune>,
}

impl Control {
    /// Returns a `Control` without messages. It takes no memory.
    pub fn empty(alloc: Global) -> Control
        ensures { result ≡ empty_control }
    {
        Control {
            ihave: Seq::new(alloc),
            iwant: Seq::new(alloc),
            graft: Seq::new(alloc),
            prune: Seq::new(alloc),
        }
    }
}

impl Clone for Control {
    ghost is_clone = { λ source copy. copy ≡ source };

    fn clone(&self) -> Result<Control, AllocError> {
        Ok(Control {
            ihave: self.ihave.clone()?,
            iwant: self.iwant.clone()?,
            graft: self.graft.clone()?,
            prune: self.prune.clone()?,
        })
    }
}

impl ExactClone for Control {
    ghost exact = { λ source copy same. same };
}
