//! A summary of one neighbour over a run.
ghost use Rattle.std.specs.Prelude.{◌≡◌, [], OnOk};
ghost use Rattle.gs_params.specs.declared.params.Thresholds.{Thresholds as ThresholdsValue};
ghost use Rattle.gs_snapshots.specs.Noting.{is_lower, with_fallen, with_snapshot};
ghost use Rattle.gs_snapshots.specs.Summary.{score_in, summary_of};

use crate::courses::Course;
use crate::falls::Falls;
use crate::snapshot::Snapshot;
use gs_base::PeerNo;
use gs_params::Thresholds;
use gs_rules::Fallen;
use std::alloc::{AllocError, Global};

/// A summary of one neighbour over the moments at which scores are reported.
#[derive(Debug, Drop)]
pub struct Summary {
    /// The neighbour.
    pub neighbour: PeerNo,
    /// When its score was below 0.
    pub zero: Course,
    /// When its score was below `gossip_threshold`.
    pub gossip: Course,
    /// When its score was below `publish_threshold`.
    pub publish: Course,
    /// When its score was below `graylist_threshold`.
    pub graylist: Course,
    /// The snapshot with its lowest score. Among equals, it is the first one.
    pub lowest: Option<Snapshot>,
    /// How much of what it sent or promised had no effect.
    pub falls: Falls,
}

impl Summary {
    /// Returns the summary of a neighbour about which nothing is known yet.
    pub(crate) fn new(alloc: Global, neighbour: PeerNo) -> Summary
        ensures { (thresholds : ThresholdsValue) → result ≡ summary_of thresholds neighbour [] [] }
    {
        Summary {
            neighbour,
            zero: Course::new(alloc),
            gossip: Course::new(alloc),
            publish: Course::new(alloc),
            graylist: Course::new(alloc),
            lowest: None,
            falls: Falls::none(),
        }
    }

    /// Notes what the neighbour scores at the next moment.
    pub(crate) fn note_snapshot(
        &mut self,
        thresholds: &Thresholds,
        snapshot: Snapshot,
    ) -> Result<(), AllocError>
        ensures { OnOk result (self.new ≡ with_snapshot thresholds.now snapshot self.old) }
    {
        self.zero.note(&0, &snapshot)?;
        self.gossip.note(&thresholds.gossip_threshold, &snapshot)?;
        self.publish.note(&thresholds.publish_threshold, &snapshot)?;
        self.graylist
            .note(&thresholds.graylist_threshold, &snapshot)?;
        if is_lower(&self.lowest, &snapshot) {
            self.lowest = Some(snapshot);
        }
        Ok(())
    }

    /// Notes one thing that had no effect. It counts only if this neighbour sent or promised it.
    pub(crate) fn note_fallen(&mut self, fallen: &Fallen)
        ensures { self.new ≡ with_fallen fallen.now self.old }
    {
        self.falls = self.falls.plus(Falls::by(self.neighbour, fallen));
    }
}

/// Says whether a neighbour scores less than its lowest score so far.
fn is_lower(lowest: &Option<Snapshot>, snapshot: &Snapshot) -> bool
    ensures { result ≡ is_lower score_in lowest.now snapshot.now }
{
    match lowest {
        None => true,
        Some(before) => snapshot.parts.score < before.parts.score,
    }
}
