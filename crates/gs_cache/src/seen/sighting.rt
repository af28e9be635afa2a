ghost use Rattle.std.specs.Prelude.{◌≡◌, Some, OnOk, OnErr};
ghost use Rattle.gs_cache.specs.Sightings.{is_near_in, with_noted};

use gs_base::{Millis, PeerNo, Seq, Verdict};
use std::alloc::AllocError;

/// The last mark of a message as seen.
#[derive(Debug, Drop)]
pub struct Sighting {
    /// The moment of the mark, from which the time and the window are counted.
    pub at: Millis,
    /// What the message was found to be.
    pub verdict: Verdict,
    /// The neighbours that were noted since, each once.
    pub noted: Seq<PeerNo>,
}

impl Sighting {
    /// Says whether it is at most `window` milliseconds old, and the neighbour was not noted since.
    pub fn is_near(&self, peer: PeerNo, now: Millis, window: Millis) -> bool
        ensures { result ≡ is_near_in peer now.0 window.0 (Some self.now) }
    {
        now.0.saturating_sub(self.at.0) <= window.0 && !self.noted.as_slice().contains(&peer)
    }

    /// Notes a neighbour, unless it is already noted.
    ///
    /// # Errors
    /// `AllocError` if memory runs out. Nothing is changed then.
    pub(crate) fn note(&mut self, peer: PeerNo) -> Result<(), AllocError>
        ensures notes { OnOk result (self.new ≡ with_noted peer self.old) }
        ensures unchanged { OnErr result (self.new ≡ self.old) }
    {
        if self.noted.as_slice().contains(&peer) {
            return Ok(());
        }
        self.noted.push(peer)?;
        Ok(())
    }
}
