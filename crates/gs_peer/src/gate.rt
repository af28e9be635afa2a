/// A listener for the rounds that peers begin. No contract says when or how often it is called.
pub trait Gate: Drop {
    /// Reports that a peer on this worker begins this round.
    fn begin_round(&self, worker: usize, round: u64);
}

impl<G: Gate> Gate for &G {
    fn begin_round(&self, worker: usize, round: u64) {
        (**self).begin_round(worker, round)
    }
}

/// A gate that does nothing.
#[derive(Clone, Copy, Debug, Drop)]
pub struct NoGate;

impl Gate for NoGate {
    fn begin_round(&self, _worker: usize, _round: u64) {}
}
