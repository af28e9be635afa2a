//! The kinds of happenings that are counted.
ghost use Rattle.std.specs.Prelude.{◌≡◌, ◌<◌};
ghost use Rattle.gs_counts.specs.Kinds.{is_of_sender, place_of};

/// How many kinds there are.
pub const KINDS: usize = 51;

/// What is counted. For a part of an RPC, the peer heard it or sent it, and the neighbour is the other end.
#[derive(Clone, Copy, Debug, PartialEq, Eq)]
pub enum Kind {
    // ---- what each peer heard
    /// RPCs that a peer heard and handled. RPCs that came late, or from a neighbour on the graylist, are not among them.
    RpcsHeard,
    /// Messages heard that were new to the peer, and accepted.
    New,
    /// Messages heard that the peer had recently accepted.
    Duplicates,
    /// Messages heard that validation ignored, and copies of them.
    Ignored,
    /// Messages heard that were rejected, and copies of them. Each counts against its sender.
    Rejected,
    /// Messages heard that have a field that StrictNoSign forbids.
    Signed,
    /// Messages heard on a topic that the peer was not subscribed to.
    OffTopic,
    /// Bytes of the payloads of new messages.
    PayloadBytesNew,
    /// Bytes of the payloads of all other messages heard.
    PayloadBytesAgain,
    /// Changes of subscriptions that neighbours announced.
    SubscriptionsHeard,
    /// Offers of messages (IHAVE) that were heard.
    IhaveHeard,
    /// Identifiers in those offers.
    IdsOffered,
    /// Requests for messages (IWANT) that were heard.
    IwantHeard,
    /// Identifiers in those requests.
    IdsAsked,
    /// GRAFTs that were heard.
    GraftHeard,
    /// PRUNEs that were heard.
    PruneHeard,

    // ---- what each peer sent
    /// Frames that went out. Each holds the RPCs that were gathered for it.
    RpcsSent,
    /// Bytes that went out: frames with the lengths before them, and raw bytes of the script.
    BytesSent,
    /// Bytes that went out because the script put them on a link unchanged.
    RawBytesSent,
    /// Bytes of the bodies of RPCs that have messages. An RPC counts as an entry sends it, before it is gathered. It counts
    /// once for each neighbour that it goes to.
    MessageBytesSent,
    /// Bytes of the bodies of RPCs that have control messages, and no messages.
    ControlBytesSent,
    /// Bytes of the bodies of RPCs that have neither messages nor control messages.
    SubscriptionBytesSent,
    /// Changes of subscriptions that were sent. Each part that is sent counts once for each neighbour that it goes
    /// to.
    SubscriptionsSent,
    /// Messages that were sent without a request.
    MessagesPushed,
    /// Messages that were sent because a neighbour asked for them.
    MessagesAnswered,
    /// Offers (IHAVE) that were sent.
    IhaveSent,
    /// Identifiers in those offers.
    IdsOfferedSent,
    /// Requests (IWANT) that were sent.
    IwantSent,
    /// Identifiers in those requests.
    IdsAskedSent,
    /// GRAFTs that were sent.
    GraftSent,
    /// PRUNEs that were sent.
    PruneSent,

    // ---- what came to nothing
    /// RPCs that were not handled, because their sender was on the graylist.
    RpcsGraylisted,
    /// RPCs that came after their sender was lost.
    RpcsLate,
    /// Links that a peer cut, because a neighbour's bytes spelled no RPC or ended within one.
    Faults,
    /// GRAFTs that were refused, because their sender is explicit.
    GraftRefusedExplicit,
    /// GRAFTs that were refused, because they came before the end of a backoff.
    GraftRefusedBackoff,
    /// GRAFTs that were refused, because their sender scored below 0.
    GraftRefusedScore,
    /// GRAFTs that were refused, because the mesh was full.
    GraftRefusedFull,
    /// Requested identifiers that got no message, because the score of the peer that asked was too low.
    IdsNotSentScore,
    /// Requested identifiers that got no message, because the peer that asked had already got that message as often as allowed.
    IdsNotSentTooOften,
    /// Requested identifiers that got no message, because no such message was kept.
    IdsNotSentNotKept,
    /// Promises that a peer broke. They count for that peer, and the neighbour is the one that waited.
    PromisesBroken,
    /// Lines of the script that were refused.
    RefusedLines,

    // ---- deliveries and meshes
    /// Deliveries to the peer's own user, including what it published itself.
    Delivered,
    /// Neighbours that came into a mesh of the peer, whichever of the two grafted the other.
    Grafted,
    /// Neighbours that came into a mesh by a part of an RPC that was heard from them: their GRAFT.
    GraftedByNeighbour,
    /// Neighbours that came into a mesh by a step of a heartbeat.
    GraftedByHeartbeat,
    /// Neighbours that left a mesh of the peer, for any reason.
    Pruned,
    /// Neighbours that left a mesh by a part of an RPC that was heard from them: a PRUNE, or that they left the topic.
    PrunedByNeighbour,
    /// Neighbours that left a mesh by a step of a heartbeat.
    PrunedByHeartbeat,
    /// Neighbours that left a mesh because they were lost.
    PrunedByLoss,
}

impl Kind {
    /// All kinds, in the order of the columns.
    pub const ALL: [Kind; 51] = [
        Kind::RpcsHeard,
        Kind::New,
        Kind::Duplicates,
        Kind::Ignored,
        Kind::Rejected,
        Kind::Signed,
        Kind::OffTopic,
        Kind::PayloadBytesNew,
        Kind::PayloadBytesAgain,
        Kind::SubscriptionsHeard,
        Kind::IhaveHeard,
        Kind::IdsOffered,
        Kind::IwantHeard,
        Kind::IdsAsked,
        Kind::GraftHeard,
        Kind::PruneHeard,
        Kind::RpcsSent,
        Kind::BytesSent,
        Kind::RawBytesSent,
        Kind::MessageBytesSent,
        Kind::ControlBytesSent,
        Kind::SubscriptionBytesSent,
        Kind::SubscriptionsSent,
        Kind::MessagesPushed,
        Kind::MessagesAnswered,
        Kind::IhaveSent,
        Kind::IdsOfferedSent,
        Kind::IwantSent,
        Kind::IdsAskedSent,
        Kind::GraftSent,
        Kind::PruneSent,
        Kind::RpcsGraylisted,
        Kind::RpcsLate,
        Kind::Faults,
        Kind::GraftRefusedExplicit,
        Kind::GraftRefusedBackoff,
        Kind::GraftRefusedScore,
        Kind::GraftRefusedFull,
        Kind::IdsNotSentScore,
        Kind::IdsNotSentTooOften,
        Kind::IdsNotSentNotKept,
        Kind::PromisesBroken,
        Kind::RefusedLines,
        Kind::Delivered,
        Kind::Grafted,
        Kind::GraftedByNeighbour,
        Kind::GraftedByHeartbeat,
        Kind::Pruned,
        Kind::PrunedByNeighbour,
        Kind::PrunedByHeartbeat,
        Kind::PrunedByLoss,
    ];

    /// Returns its place among all kinds.
    pub fn place(self) -> usize
        ensures place { result ≡ place_of self }
        ensures within { result < KINDS }
    {
        match self {
            Kind::RpcsHeard => 0,
            Kind::New => 1,
            Kind::Duplicates => 2,
            Kind::Ignored => 3,
            Kind::Rejected => 4,
            Kind::Signed => 5,
            Kind::OffTopic => 6,
            Kind::PayloadBytesNew => 7,
            Kind::PayloadBytesAgain => 8,
            Kind::SubscriptionsHeard => 9,
            Kind::IhaveHeard => 10,
            Kind::IdsOffered => 11,
            Kind::IwantHeard => 12,
            Kind::IdsAsked => 13,
            Kind::GraftHeard => 14,
            Kind::PruneHeard => 15,
            Kind::RpcsSent => 16,
            Kind::BytesSent => 17,
            Kind::RawBytesSent => 18,
            Kind::MessageBytesSent => 19,
            Kind::ControlBytesSent => 20,
            Kind::SubscriptionBytesSent => 21,
            Kind::SubscriptionsSent => 22,
            Kind::MessagesPushed => 23,
            Kind::MessagesAnswered => 24,
            Kind::IhaveSent => 25,
            Kind::IdsOfferedSent => 26,
            Kind::IwantSent => 27,
            Kind::IdsAskedSent => 28,
            Kind::GraftSent => 29,
            Kind::PruneSent => 30,
            Kind::RpcsGraylisted => 31,
            Kind::RpcsLate => 32,
            Kind::Faults => 33,
            Kind::GraftRefusedExplicit => 34,
            Kind::GraftRefusedBackoff => 35,
            Kind::GraftRefusedScore => 36,
            Kind::GraftRefusedFull => 37,
            Kind::IdsNotSentScore => 38,
            Kind::IdsNotSentTooOften => 39,
            Kind::IdsNotSentNotKept => 40,
            Kind::PromisesBroken => 41,
            Kind::RefusedLines => 42,
            Kind::Delivered => 43,
            Kind::Grafted => 44,
            Kind::GraftedByNeighbour => 45,
            Kind::GraftedByHeartbeat => 46,
            Kind::Pruned => 47,
            Kind::PrunedByNeighbour => 48,
            Kind::PrunedByHeartbeat => 49,
            Kind::PrunedByLoss => 50,
        }
    }

    /// Says whether the peer is the sender and the neighbour is the one that hears. Otherwise it is the other way round. A
    /// promise is broken by the peer that made it.
    pub fn is_of_sender(self) -> bool
        ensures { result ≡ is_of_sender self }
    {
        match self {
            Kind::RpcsHeard => false,
            Kind::New => false,
            Kind::Duplicates => false,
            Kind::Ignored => false,
            Kind::Rejected => false,
            Kind::Signed => false,
            Kind::OffTopic => false,
            Kind::PayloadBytesNew => false,
            Kind::PayloadBytesAgain => false,
            Kind::SubscriptionsHeard => false,
            Kind::IhaveHeard => false,
            Kind::IdsOffered => false,
            Kind::IwantHeard => false,
            Kind::IdsAsked => false,
            Kind::GraftHeard => false,
            Kind::PruneHeard => false,
            Kind::RpcsSent => true,
            Kind::BytesSent => true,
            Kind::RawBytesSent => true,
            Kind::MessageBytesSent => true,
            Kind::ControlBytesSent => true,
            Kind::SubscriptionBytesSent => true,
            Kind::SubscriptionsSent => true,
            Kind::MessagesPushed => true,
            Kind::MessagesAnswered => true,
            Kind::IhaveSent => true,
            Kind::IdsOfferedSent => true,
            Kind::IwantSent => true,
            Kind::IdsAskedSent => true,
            Kind::GraftSent => true,
            Kind::PruneSent => true,
            Kind::RpcsGraylisted => false,
            Kind::RpcsLate => false,
            Kind::Faults => false,
            Kind::GraftRefusedExplicit => false,
            Kind::GraftRefusedBackoff => false,
            Kind::GraftRefusedScore => false,
            Kind::GraftRefusedFull => false,
            Kind::IdsNotSentScore => false,
            Kind::IdsNotSentTooOften => false,
            Kind::IdsNotSentNotKept => false,
            Kind::PromisesBroken => true,
            Kind::RefusedLines => true,
            Kind::Delivered => true,
            Kind::Grafted => true,
            Kind::GraftedByNeighbour => true,
            Kind::GraftedByHeartbeat => true,
            Kind::Pruned => true,
            Kind::PrunedByNeighbour => true,
            Kind::PrunedByHeartbeat => true,
            Kind::PrunedByLoss => true,
        }
    }
}
