//! Whether happenings of a kind concern a link, a topic, both or neither.
ghost use Rattle.std.specs.Prelude.{◌≡◌};
ghost use Rattle.gs_figure_sheets.specs.Sections.{concern_of, is_on_link, is_on_topic};

use gs_counts::Kind;

/// What a happening concerns in addition to its peer.
#[derive(Clone, Copy, Debug, PartialEq, Eq)]
pub enum Concern {
    OnLink,
    OnTopic,
    OnBoth,
    OnNeither,
}

impl Concern {
    /// Returns what happenings of a kind concern.
    pub(crate) fn of(kind: Kind) -> Concern
        ensures { result ≡ concern_of kind }
    {
        match kind {
            Kind::RpcsHeard => Concern::OnLink,
            Kind::New => Concern::OnBoth,
            Kind::Duplicates => Concern::OnBoth,
            Kind::Ignored => Concern::OnBoth,
            Kind::Rejected => Concern::OnBoth,
            Kind::Signed => Concern::OnBoth,
            Kind::OffTopic => Concern::OnBoth,
            Kind::PayloadBytesNew => Concern::OnBoth,
            Kind::PayloadBytesAgain => Concern::OnBoth,
            Kind::SubscriptionsHeard => Concern::OnBoth,
            Kind::IhaveHeard => Concern::OnBoth,
            Kind::IdsOffered => Concern::OnBoth,
            Kind::IwantHeard => Concern::OnLink,
            Kind::IdsAsked => Concern::OnLink,
            Kind::GraftHeard => Concern::OnBoth,
            Kind::PruneHeard => Concern::OnBoth,
            Kind::RpcsSent => Concern::OnLink,
            Kind::BytesSent => Concern::OnLink,
            Kind::RawBytesSent => Concern::OnLink,
            Kind::MessageBytesSent => Concern::OnLink,
            Kind::ControlBytesSent => Concern::OnLink,
            Kind::SubscriptionBytesSent => Concern::OnLink,
            Kind::SubscriptionsSent => Concern::OnBoth,
            Kind::MessagesPushed => Concern::OnBoth,
            Kind::MessagesAnswered => Concern::OnBoth,
            Kind::IhaveSent => Concern::OnBoth,
            Kind::IdsOfferedSent => Concern::OnBoth,
            Kind::IwantSent => Concern::OnLink,
            Kind::IdsAskedSent => Concern::OnLink,
            Kind::GraftSent => Concern::OnBoth,
            Kind::PruneSent => Concern::OnBoth,
            Kind::RpcsGraylisted => Concern::OnLink,
            Kind::RpcsLate => Concern::OnLink,
            Kind::Faults => Concern::OnLink,
            Kind::GraftRefusedExplicit => Concern::OnBoth,
            Kind::GraftRefusedBackoff => Concern::OnBoth,
            Kind::GraftRefusedScore => Concern::OnBoth,
            Kind::GraftRefusedFull => Concern::OnBoth,
            Kind::IdsNotSentScore => Concern::OnLink,
            Kind::IdsNotSentTooOften => Concern::OnLink,
            Kind::IdsNotSentNotKept => Concern::OnLink,
            Kind::PromisesBroken => Concern::OnLink,
            Kind::RefusedLines => Concern::OnNeither,
            Kind::Delivered => Concern::OnTopic,
            Kind::Grafted => Concern::OnBoth,
            Kind::GraftedByNeighbour => Concern::OnBoth,
            Kind::GraftedByHeartbeat => Concern::OnBoth,
            Kind::Pruned => Concern::OnBoth,
            Kind::PrunedByNeighbour => Concern::OnBoth,
            Kind::PrunedByHeartbeat => Concern::OnBoth,
            Kind::PrunedByLoss => Concern::OnBoth,
        }
    }

    pub(crate) fn is_on_link(self) -> bool
        ensures { result ≡ is_on_link self }
    {
        match self {
            Concern::OnLink => true,
            Concern::OnTopic => false,
            Concern::OnBoth => true,
            Concern::OnNeither => false,
        }
    }

    pub(crate) fn is_on_topic(self) -> bool
        ensures { result ≡ is_on_topic self }
    {
        match self {
            Concern::OnLink => false,
            Concern::OnTopic => true,
            Concern::OnBoth => true,
            Concern::OnNeither => false,
        }
    }
}
