//! How far a run is.
ghost use Rattle.std.specs.Prelude.{◌≡◌, ◌+◌, ◌∷◌, [], List, length};
ghost use Rattle.gs_direct.specs.Runs.{trace_at};
ghost use Rattle.gs_direct.specs.Stages.{HasShownMore, delivered_in, delivered_to, saturated};
ghost use Rattle.gs_direct.specs.declared.stages.Stage.{Stage as StageValue};
ghost use Rattle.gs_plan.specs.Plans.{IsInRange};
ghost use Rattle.gs_router.specs.Log.{this_round};

use crate::peer::Peer;
use gs_plan::Plan;
use gs_router::Retention;
use gs_rules::StoredEntry;

/// How far a run is at the end of a round.
#[derive(Clone, Copy, Debug, PartialEq, Eq)]
pub struct Stage {
    /// The round that all peers have just ended, from 0.
    pub round: u64,
    /// How many messages were delivered to the users of all peers so far, at most 2^64 - 1.
    pub deliveries: u64,
}

/// What shows how far a run is, at the end of each round.
pub trait Gauge {
    /// What was there before the first stage.
    ghost Start: { Type 0 };

    /// It has shown these stages in order since that start.
    ghost has_shown: { Self → Start → List StageValue → Type 0 };

    /// Shows a stage.
    fn show(&mut self, stage: Stage)
        ensures { HasShownMore has_shown self.old self.new (stage ∷ []) };
}

/// A gauge that shows nothing.
#[derive(Debug, Drop)]
pub struct NoGauge;

impl Gauge for NoGauge {
    ghost Start = { Unit {0} };

    ghost has_shown = { λ gauge start stages. Unit {0} };

    fn show(&mut self, _stage: Stage) {}
}

/// Returns how much was delivered to all peers by now, if this is how much was delivered before the round in which they are.
pub(crate) fn delivered_by_now<K: Retention>(plan: &Plan, peers: &[Peer<K>], before: u64) -> u64
    requires range { IsInRange plan.now }
    requires many { length peers.now ≡ length plan.now.peers }
    ensures { result ≡ saturated (before
        + delivered_to (length plan.now.peers) (λ p. this_round (trace_at peers.now p))) }
{
    let mut all = before;
    let count = plan.peers.len() as u16;
    for number in 0..count {
        let round = peers[usize::from(number)].router.round();
        all = all.saturating_add(delivered_in(round));
    }
    all
}

/// Returns how much was delivered in these entries.
fn delivered_in(entries: &[StoredEntry]) -> u64
    ensures { result ≡ saturated (delivered_in entries.now) }
{
    let mut all = 0u64;
    for entry in entries {
        all = all.saturating_add(entry.delivered().len() as u64);
    }
    all
}
