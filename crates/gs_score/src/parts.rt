//! The parts that make up a score, each as it is counted and as it is weighed. Their names are those of go-libp2p's
//! snapshots of scores.

/// A part of a score: what is counted, and what that weighs, both in millionths.
#[derive(Clone, Copy, Debug, PartialEq, Eq)]
pub struct Part {
    /// What is counted, before any square and any weight.
    pub counted: i128,
    /// What it adds, under its weight.
    pub weighed: i128,
}

/// What a neighbour has on a topic, in millionths (gossipsub v1.1, Peer Scoring). The weight of the topic is in
/// `topic_score` only.
#[derive(Clone, Copy, Debug, PartialEq, Eq)]
pub struct TopicParts {
    /// The time in the mesh (P1): one for each quantum, up to the cap.
    pub time_in_mesh: Part,
    /// Messages that it was the first to deliver (P2).
    pub first_message_deliveries: Part,
    /// Messages that it delivered as a mesh member. The square of what is missing is weighed (P3).
    pub mesh_message_deliveries: Part,
    /// How many of those were missing when it left the mesh, squared (P3b).
    pub mesh_failure_penalty: Part,
    /// Invalid messages. The square of the counter is weighed (P4).
    pub invalid_message_deliveries: Part,
    /// What the topic adds to the score: the sum of what the five weigh, times the weight of the topic.
    pub topic_score: i128,
}

/// The parts of a neighbour's score that are not of one topic, in millionths (gossipsub v1.1, Peer Scoring).
#[derive(Clone, Copy, Debug, PartialEq, Eq)]
pub struct ScoreParts {
    /// What all topics add, before the cap.
    pub topic_sum: i128,
    /// The same, limited to the cap if there is one.
    pub capped_topic_sum: i128,
    /// The score that the application gives the neighbour (P5).
    pub app_specific_score: Part,
    /// How many neighbours count at its address, as a whole number.
    pub neighbours_at_address: u64,
    /// What the square of their number above the threshold weighs (P6).
    pub ip_colocation_factor: i128,
    /// Its misbehaviour. The square is weighed (P7).
    pub behaviour_penalty: Part,
    /// The score: the sum of the capped topics and what the other three parts weigh.
    pub score: i128,
}
