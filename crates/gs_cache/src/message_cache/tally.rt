ghost use Rattle.std.specs.Prelude.{◌≡◌, ◌-◌, [], if◌then◌else◌, OnOk, OnErr};
ghost use Rattle.gs_base.specs.declared.names.PeerNo.{PeerNo as PeerNoValue};
ghost use Rattle.gs_base.specs.Names.{same_peer};
ghost use Rattle.gs_cache.specs.CachedMessages.{left_to};

use gs_base::PeerNo;
use indexmap::IndexMap;
use std::alloc::{AllocError, Global};
use std::marker::Model;

/// How many answers are left to the neighbours that got one. All others have as many left as each neighbour gets. What is
/// left counts down to 0, so no count can overflow.
#[derive(Drop)]
pub struct Tally {
    left: IndexMap<PeerNo, u64>,
}

impl Model for Tally {
    ghost use Rattle.std.specs.Prelude.{ℕ, List};
    ghost use Rattle.gs_base.specs.declared.names.PeerNo.{PeerNo};

    ghost Value = { List (PeerNo × ℕ) };

    ghost view = { λ tally. tally.left.entries };
}

impl Tally {
    /// Returns a tally in which nobody got an answer. It takes no memory.
    pub fn new(alloc: Global) -> Tally
        ensures { result ≡ [] }
    {
        Tally {
            left: IndexMap::new(alloc),
        }
    }

    /// Returns how many answers are left to a neighbour, if each gets `answers`.
    pub fn left_to(&self, peer: PeerNo, answers: u64) -> u64
        ensures { result ≡ left_to answers peer self.now }
    {
        self.left.get(&peer).copied().unwrap_or(answers)
    }

    /// Counts an answer to a neighbour: one less is left to it, if any is.
    ///
    /// # Errors
    /// `AllocError` if memory runs out. Nothing is changed then.
    pub fn count(&mut self, peer: PeerNo, answers: u64) -> Result<(), AllocError>
        ensures counts { OnOk result ((q : PeerNoValue)
            → left_to answers q self.new
            ≡ (if same_peer peer q then left_to answers q self.old - 1 else left_to answers q self.old)) }
        ensures err { OnErr result (self.new ≡ self.old) }
    {
        let left = self.left_to(peer, answers).saturating_sub(1);
        self.left.insert(peer, left)?;
        Ok(())
    }
}
