//! What is known about a run.
ghost use Rattle.std.specs.Prelude.{◌≡◌, option_map, slice_get, unwrap_or};
ghost use Rattle.gs_figure_sheets.specs.Lines.{all_links, counts_of_peer};

use gs_base::PeerNo;
use gs_counts::{Counts, LinkCounts, RunCounts, no_counts};
use gs_opinions::Opinions;

/// What is known about a run from the traces of some peers.
#[derive(Drop)]
pub struct Known {
    pub counts: RunCounts,
    /// The counts from the traces of all peers, if only some peers are chosen. Else `counts` has them.
    pub all: Option<RunCounts>,
    pub opinions: Opinions,
}

impl Known {
    /// Returns what all peers put on links.
    pub(crate) fn all_links(&self) -> &[LinkCounts]
        ensures { result.now ≡ all_links self.now }
    {
        match &self.all {
            Some(all) => all.links.as_slice(),
            None => self.counts.links.as_slice(),
        }
    }

    /// Returns the counts of a peer.
    pub(crate) fn counts_of_peer(&self, peer: PeerNo) -> Counts
        ensures { result ≡ counts_of_peer self.now peer }
    {
        match self.counts.peers.as_slice().get(usize::from(peer.0)) {
            Some(row) => row.counts,
            None => no_counts(),
        }
    }
}
