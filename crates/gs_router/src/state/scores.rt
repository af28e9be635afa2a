ghost use Rattle.std.specs.Prelude.{◌≡◌, IfOk};
ghost use Rattle.gs_rules.specs.Tables.{Entries};
ghost use Rattle.gs_router.specs.Tables.{AgreesOnScores};
ghost use Rattle.gs_router.specs.State.{peer_of};
ghost use Rattle.gs_rules.specs.Results.{scores_of};

use crate::log::Retention;
use crate::state::State;
use gs_base::{Millis, PeerNo, Seq};
use std::alloc::AllocError;

impl<K: Retention> State<K> {
    /// Returns the scores of all neighbours at a moment, by number.
    pub fn scores(&self, now: Millis) -> Result<Seq<(PeerNo, i128)>, AllocError>
        ensures { IfOk result (λ scores. (L : Entries)
            → AgreesOnScores (peer_of self.now) self.now.known.tables.standings L
            → scores ≡ scores_of (peer_of self.now) L now.0) }
    {
        let mut scores = Seq::new(self.known.alloc);
        for neighbour in &self.known.setup.neighbours {
            let score = self.known.tables.standings.score(neighbour.peer, now);
            scores.push((neighbour.peer, score))?;
        }
        Ok(scores)
    }
}
