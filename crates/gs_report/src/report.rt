use crate::finished::Finished;
use gs_base::PeerNo;

/// What a run leaves. Its peers have their numbers here, so that it can be read without its plan.
#[derive(Debug, Drop)]
pub struct Report {
    /// Each peer of the plan with what the run leaves of it, by number.
    pub peers: Vec<(PeerNo, Finished)>,
    /// How many links were settled. In a run there are two for each dial. Over links, a link counts if its close was taken,
    /// and so was everything that was sent over it.
    pub settled: u64,
}
