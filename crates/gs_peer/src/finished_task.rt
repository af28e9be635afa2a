ghost use Rattle.std.specs.Prelude.{◌≡◌};
ghost use Rattle.gs_peer.specs.Faults.{number_of};

use gs_base::{PeerNo, Seq, Topic};
use gs_rules::{RefusedLine, Trace};
use gs_workers::{FoundSet, Raised};

/// What remains of a peer's run that has ended.
#[derive(Drop)]
pub struct FinishedTask<S: Drop> {
    /// What it did, entry by entry.
    pub trace: Trace,
    /// The lines that it could not follow, by moment and then by place in the script.
    pub refused: Seq<RefusedLine>,
    /// The members of the meshes of its topics when it shut down, by topic and number.
    pub meshes: Seq<(Topic, PeerNo)>,
    /// The score of each neighbour when the peer shut down, by number, in millionths.
    pub scores: Seq<(PeerNo, i128)>,
    /// The ends of its links, which serve to settle the links.
    pub ends: S,
}

/// The state of a router when all is done.
#[derive(Drop)]
pub struct FinalState {
    /// The members of the meshes of its topics, by topic and number.
    pub meshes: Seq<(Topic, PeerNo)>,
    /// The score of each neighbour, by number, in millionths.
    pub scores: Seq<(PeerNo, i128)>,
}

/// Why a task does not give the results of a whole run.
#[derive(Debug, Drop, thiserror::Error)]
pub enum PeerFault {
    /// Memory ran out. The value is evidence that the task's stop flag was set before this fault was given.
    #[error("there was no memory")]
    NoMemory(Raised),
    /// The task's stop flag was found set. The value is evidence of that.
    #[error("the task was stopped")]
    Stopped(FoundSet),
    /// The task had already given its result.
    #[error("the task had ended")]
    Over,
}

impl PeerFault {
    /// Returns the number of the fault: 22 if memory ran out, and 23 if the task was stopped or had ended.
    pub fn number(&self) -> u8
        ensures { result ≡ number_of self.now }
    {
        match self {
            PeerFault::NoMemory(_) => 22,
            PeerFault::Stopped(_) => 23,
            PeerFault::Over => 23,
        }
    }
}
