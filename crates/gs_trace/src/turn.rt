//! A peer's turn in a round.
use crate::wanted::Wanted;
use gs_base::PeerNo;
use gs_plan::Plan;

/// A peer's turn in a round of a plan, and which of its lines are wanted.
#[derive(Clone, Copy)]
pub(crate) struct Turn<'a> {
    pub(crate) plan: &'a Plan,
    pub(crate) wanted: &'a Wanted<'a>,
    pub(crate) round: u64,
    pub(crate) peer: PeerNo,
}
