//! The names of the parameters that are checked.

/// A parameter of a peer, by its key in a scenario, or one of a topic.
#[derive(Clone, Copy, Debug, PartialEq, Eq)]
pub enum Parameter {
    /// `d`
    D,
    /// `d_low`
    DLow,
    /// `d_high`
    DHigh,
    /// `d_score`
    DScore,
    /// `d_out`
    DOut,
    /// `d_lazy`
    DLazy,
    /// `gossip_threshold`
    GossipThreshold,
    /// `publish_threshold`
    PublishThreshold,
    /// `graylist_threshold`
    GraylistThreshold,
    /// `opportunistic_threshold`
    OpportunisticThreshold,
    /// `gossip_factor`
    GossipFactor,
    /// `p7_decay`
    P7Decay,
    /// `w5`
    AppSpecificWeight,
    /// `w6`
    IpColocationFactorWeight,
    /// `w7`
    BehaviourPenaltyWeight,
    /// `topic_cap`
    TopicCap,
    /// `decay_to_zero`
    DecayToZero,
    /// `p6_threshold`
    P6Threshold,
    /// `heartbeat_ms`
    HeartbeatMs,
    /// `decay_ms`
    DecayMs,
    /// `fanout_ttl_ms`
    FanoutTtlMs,
    /// `seen_ttl_ms`
    SeenTtlMs,
    /// `iwant_followup_ms`
    IwantFollowupMs,
    /// `prune_backoff_s`
    PruneBackoffS,
    /// `unsubscribe_backoff_s`
    UnsubscribeBackoffS,
    /// `mcache_len`
    McacheLen,
    /// `mcache_gossip`
    McacheGossip,
    /// `opportunistic_ticks`
    OpportunisticTicks,
    /// `opportunistic_peers`
    OpportunisticPeers,
    /// `max_ihave`
    MaxIhave,
    /// `max_ihave_ids`
    MaxIhaveIds,
    /// `gossip_retransmission`
    GossipRetransmission,
    /// A parameter of the topic at this place in the list of topics, counted from 0.
    OfTopic(usize, TopicParameter),
}

/// A parameter of a topic, by its key in a scenario.
#[derive(Clone, Copy, Debug, PartialEq, Eq)]
pub enum TopicParameter {
    /// `topic_weight`
    TopicWeight,
    /// `w1`
    TimeInMeshWeight,
    /// `w2`
    FirstMessageDeliveriesWeight,
    /// `w3`
    MeshMessageDeliveriesWeight,
    /// `w3b`
    MeshFailurePenaltyWeight,
    /// `w4`
    InvalidMessageDeliveriesWeight,
    /// `p2_decay`
    P2Decay,
    /// `p3_decay`
    P3Decay,
    /// `p3b_decay`
    P3bDecay,
    /// `p4_decay`
    P4Decay,
    /// `p1_cap`
    P1Cap,
    /// `p2_cap`
    P2Cap,
    /// `p3_cap`
    P3Cap,
    /// `p3_threshold`
    P3Threshold,
    /// `p1_quantum_ms`
    P1QuantumMs,
    /// `p3_window_ms`
    P3WindowMs,
    /// `p3_activation_ms`
    P3ActivationMs,
}
