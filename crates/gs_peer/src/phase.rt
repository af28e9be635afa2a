/// Where a peer is in its run.
#[derive(Clone, Copy, Debug, PartialEq, Eq)]
pub enum Phase {
    /// In a round.
    Playing(u64),
    /// After the last round: it has shut down.
    Closing,
}
