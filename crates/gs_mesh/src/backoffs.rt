ghost use Rattle.std.specs.Prelude.{◌≡◌, [], ◌&&◌, if◌then◌else◌, OnErr, OnOk};
ghost use Rattle.gs_base.specs.declared.names.PeerNo.{PeerNo as PeerNoValue};
ghost use Rattle.gs_base.specs.Names.{same_peer};
ghost use Rattle.gs_mesh.specs.Backoffs.{later, until};

use gs_base::{Millis, PeerNo};
use indexmap::IndexMap;
use std::alloc::{AllocError, Global};
use std::marker::Model;

/// Until when neighbours may not be grafted to the mesh of a topic (gossipsub v1.1, "Prune Backoff"). A neighbour that was
/// never pruned may be grafted at once.
#[derive(Drop)]
pub struct Backoffs {
    ends: IndexMap<PeerNo, Millis>,
}

impl Model for Backoffs {
    ghost use Rattle.std.specs.Prelude.{List};
    ghost use Rattle.gs_base.specs.declared.names.PeerNo.{PeerNo};
    ghost use Rattle.gs_base.specs.declared.names.Millis.{Millis};

    ghost Value = { List (PeerNo × Millis) };

    ghost view = { λ backoffs. backoffs.ends.entries };
}

impl Backoffs {
    /// Returns backoffs by which any neighbour may be grafted. It takes no memory.
    pub fn new(alloc: Global) -> Backoffs
        ensures { result ≡ [] }
    {
        Backoffs {
            ends: IndexMap::new(alloc),
        }
    }

    /// Returns the moment from which a neighbour may be grafted. It is 0 if the neighbour always may.
    pub fn until(&self, peer: PeerNo) -> Millis
        ensures { result ≡ until self.now peer }
    {
        self.ends.get(&peer).copied().unwrap_or(Millis(0))
    }

    /// Notes that a neighbour may not be grafted before a moment. A later moment that was noted before stays.
    ///
    /// # Errors
    /// `AllocError` if memory runs out. Nothing is changed then.
    pub fn note(&mut self, peer: PeerNo, end: Millis) -> Result<(), AllocError>
        ensures notes { OnOk result ((q : PeerNoValue)
            → until self.new q
            ≡ (if same_peer peer q then later end (until self.old peer) else until self.old q)) }
        ensures unchanged { OnErr result (self.new ≡ self.old) }
    {
        let latest = Millis(end.0.max(self.until(peer).0));
        self.ends.insert(peer, latest)?;
        Ok(())
    }
}
