use gs_base::{PeerNo, Seq, Topic};
use gs_rules::RefusedLine;

/// What a run leaves of a peer besides its trace.
#[derive(Debug, Drop, PartialEq, Eq)]
pub struct Remains {
    /// The lines of the script that it refused, by moment and then by place in the script.
    pub refused: Seq<RefusedLine>,
    /// The members of its topics' meshes when it shut down, by topic and then by number.
    pub meshes: Seq<(Topic, PeerNo)>,
    /// The score of each neighbour when it shut down, in millionths, by the neighbour's number.
    pub scores: Seq<(PeerNo, i128)>,
}
