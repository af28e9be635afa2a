//! What the elements of a scenario's lists are found by.
ghost use Rattle.std.specs.Prelude.{◌≡◌, IfOk};
ghost use Rattle.gs_scenario.specs.ByKey.{name_key, joined_pair};

use crate::scenario::indexed::Keyed;
use bytes::Bytes;
use gs_base::PeerNo;
use gs_plan::{App, Dial, Explicit, PlannedPeer};
use std::alloc::{AllocError, Global};
use std::hash::{Hash, Hasher};

/// A name.
#[derive(Debug, Drop, PartialEq, Eq)]
pub struct Name(pub Bytes);

/// A name is hashed as one block, and not byte by byte.
impl Hash for Name {
    ghost use Rattle.std.specs.Prelude.{[], ◌∷◌};
    ghost use Rattle.std.proofs.Common.{rules};

    ghost hash_input = { λ name. name.0 ∷ [] };

    ghost respects_eq = { Prim.search rules };

    fn hash<H: Hasher>(&self, state: &mut H) {
        state.write(self.0.as_slice());
    }
}

impl Name {
    /// Returns a copy of a text as a name.
    ///
    /// # Errors
    /// `AllocError` when out of memory.
    pub fn of(alloc: Global, text: &str) -> Result<Name, AllocError>
        ensures { IfOk result (λ name. name ≡ name_key text.now) }
    {
        Ok(Name(Bytes::copy_from_slice(alloc, text.as_bytes())?))
    }
}

/// Two peers.
#[derive(Clone, Copy, Debug, PartialEq, Eq, Hash)]
pub struct Pair(pub PeerNo, pub PeerNo);

impl Pair {
    /// Returns two peers that a dial joins, the lower number first.
    pub fn joined(one: PeerNo, other: PeerNo) -> Pair
        ensures { result ≡ joined_pair one other }
    {
        if one.0 <= other.0 {
            Pair(one, other)
        } else {
            Pair(other, one)
        }
    }
}

/// Peers are found by name.
impl Keyed<Name> for PlannedPeer {
    ghost use Rattle.gs_scenario.specs.ByKey.{name_key};

    ghost key_of = { λ peer. name_key peer.name };

    fn key(&self, alloc: Global) -> Result<Name, AllocError> {
        Name::of(alloc, self.name.as_str())
    }
}

/// Dials are found by the peers that they join, whichever dials.
impl Keyed<Pair> for Dial {
    ghost use Rattle.gs_scenario.specs.ByKey.{joined_pair};

    ghost key_of = { λ dial. joined_pair dial.from dial.to };

    fn key(&self, _alloc: Global) -> Result<Pair, AllocError> {
        Ok(Pair::joined(self.from, self.to))
    }
}

/// Scores are found by the peer and the neighbour.
impl Keyed<Pair> for App {
    ghost key_of = { λ app. record { 0 = app.peer; 1 = app.about } };

    fn key(&self, _alloc: Global) -> Result<Pair, AllocError> {
        let App { peer, about, .. } = *self;
        Ok(Pair(peer, about))
    }
}

/// Agreements are found by the peer and the neighbour.
impl Keyed<Pair> for Explicit {
    ghost key_of = { λ agreement. record { 0 = agreement.peer; 1 = agreement.about } };

    fn key(&self, _alloc: Global) -> Result<Pair, AllocError> {
        let Explicit { peer, about } = *self;
        Ok(Pair(peer, about))
    }
}
