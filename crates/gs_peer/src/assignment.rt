use gs_base::PeerNo;
use gs_player::Agenda;

/// What a peer is given in a run, and keeps to its end.
#[derive(Drop)]
pub struct Assignment {
    /// Its number in the plan, by which its neighbours name it.
    pub number: PeerNo,
    /// The numbers of its neighbours, ascending.
    pub neighbours: Vec<PeerNo>,
    /// Its lines of the script, by round.
    pub lines: Agenda,
    /// The length of a round in milliseconds: 1 to 60,000.
    pub round_ms: u64,
    /// The last round, where the first is 0: 1 to 100,000.
    pub rounds: u64,
    /// For how many milliseconds it had been up when round 0 began: 0 to 10^9.
    pub phase_ms: u64,
    /// The number of the worker on which it runs.
    pub worker: usize,
}
