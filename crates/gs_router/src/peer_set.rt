ghost use Rattle.std.specs.Prelude.{◌≡◌, ◌<◌, ℕ, false, OnOk, if◌then◌else◌, length};
ghost use Rattle.gs_base.specs.Names.{same_peer};
ghost use Rattle.gs_base.specs.declared.names.PeerNo.{PeerNo as PeerNoValue};
ghost use Rattle.gs_router.specs.PeerSets.{has};

use gs_base::PeerNo;
use std::alloc::{AllocError, Global};

/// A set of peers. A look-up uses the peer's number and hashes nothing.
#[derive(Debug, Drop)]
pub struct PeerSet {
    /// Whether a peer is in the set, by its number. Those after the end are not.
    flags: Vec<bool>,
}

impl PeerSet {
    /// Returns the empty set. It takes no memory.
    pub fn new(alloc: Global) -> PeerSet
        ensures { (q : PeerNoValue) → has result q ≡ false }
    {
        PeerSet {
            flags: Vec::new(alloc),
        }
    }

    /// Says whether a peer is in the set.
    pub fn contains(&self, peer: PeerNo) -> bool
        ensures { result ≡ has self.now peer }
    {
        match self.flags.get(usize::from(peer.0)) {
            Some(flag) => *flag,
            None => false,
        }
    }

    /// Puts a peer into the set, or takes it out.
    ///
    /// # Errors
    /// `AllocError` if memory runs out.
    pub fn put(&mut self, peer: PeerNo, is_in: bool) -> Result<(), AllocError>
        ensures { OnOk result ((q : PeerNoValue)
            → has self.new q ≡ (if same_peer peer q then is_in else has self.old q)) }
    {
        self.cover(peer)?;
        self.flags[usize::from(peer.0)] = is_in;
        Ok(())
    }

    fn cover(&mut self, peer: PeerNo) -> Result<(), AllocError>
        ensures room { OnOk result (peer.0 < length self.new.flags.items) }
        ensures same { OnOk result ((q : PeerNoValue) → has self.new q ≡ has self.old q) }
    {
        let wanted = usize::from(peer.0) + 1;
        if wanted <= self.flags.len() {
            return Ok(());
        }
        self.flags.resize(wanted, false)?;
        Ok(())
    }
}
