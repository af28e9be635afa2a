//! What sees everything that the peers of a run do.
ghost use Rattle.std.specs.Prelude.{◌≡◌, ◌++◌, reverse, OnOk};
ghost use Rattle.gs_base.specs.declared.names.PeerNo.{PeerNo as PeerNoValue};
ghost use Rattle.gs_rules.specs.Tables.{Entries};
ghost use Rattle.gs_report.specs.Seen.{added};
ghost use Rattle.gs_router.specs.Following.{AreInOrder};

use gs_base::PeerNo;
use gs_rules::StoredEntry;
use std::alloc::AllocError;

/// What sees everything that the peers of a run do, round by round. In each round it sees what one peer after the other
/// did, by number. So it can keep less than the traces.
pub trait Observer {
    /// What it asks about the run. This stays the same.
    ghost Question: { Type 0 };

    ghost question: { Self → Question };

    /// It has seen these traces, one of each peer.
    ghost saw: { Self → (PeerNoValue → Entries) → Type 0 };

    /// Sees what a peer did since it was seen last, the oldest entry first. No entry is earlier than the one before it.
    ///
    /// # Errors
    /// `AllocError` when out of memory.
    fn see(&mut self, peer: PeerNo, entries: &[StoredEntry]) -> Result<(), AllocError>
        requires { (before : PeerNoValue → Entries)
            × saw self.old before × AreInOrder (reverse entries.now ++ before peer) }
        ensures saw { OnOk result ((before after : PeerNoValue → Entries)
            → ((p : PeerNoValue) → after p ≡ added before peer entries.now p)
            → AreInOrder (reverse entries.now ++ before peer)
            → saw self.old before
            → saw self.new after) }
        ensures question { OnOk result (question self.new ≡ question self.old) };
}

/// An observer that looks at nothing.
#[derive(Debug, Drop)]
pub struct Nobody;

impl Observer for Nobody {
    ghost Question = { Unit {0} };

    ghost question = { λ nobody. tt };

    ghost saw = { λ nobody traces. Unit {0} };

    fn see(&mut self, _peer: PeerNo, _entries: &[StoredEntry]) -> Result<(), AllocError> {
        Ok(())
    }
}
