ghost use Rattle.std.specs.Prelude.{◌≡◌, map};
ghost use Rattle.gs_scenario.specs.PlanOf.{known_keys};

use crate::scenario::{apps, dials, explicit, params, peers, script, top, topics};

/// The kinds of tables in a scenario. Each kind has its own keys.
#[derive(Clone, Copy, Debug, PartialEq, Eq)]
pub enum TableKind {
    /// The top table.
    Top,
    /// The table at `params`.
    Params,
    /// An element of `topic`.
    Topic,
    /// An element of `peer`.
    Peer,
    /// An element of `dial`.
    Dial,
    /// An element of `app`.
    App,
    /// An element of `explicit`.
    Explicit,
    /// An element of `do` that tells a peer to subscribe or to unsubscribe.
    SubscriptionLine,
    /// An element of `do` that tells a peer to publish.
    PublishLine,
    /// An element of `do` that tells a peer to put bytes on a link unchanged.
    RawLine,
    /// An element of `do` that tells a peer to close a link.
    HangUpLine,
}

impl TableKind {
    /// Returns the keys that such a table may have, in the order in which they are read.
    pub fn known_keys(self) -> &'static [&'static str]
        ensures { map (λ key. key.now) result.now ≡ known_keys self }
    {
        match self {
            TableKind::Top => top::keys(),
            TableKind::Params => params::keys(),
            TableKind::Topic => topics::keys(),
            TableKind::Peer => peers::keys(),
            TableKind::Dial => dials::keys(),
            TableKind::App => apps::keys(),
            TableKind::Explicit => explicit::keys(),
            TableKind::SubscriptionLine => script::subscription_keys(),
            TableKind::PublishLine => script::publish_keys(),
            TableKind::RawLine => script::raw_keys(),
            TableKind::HangUpLine => script::hang_up_keys(),
        }
    }
}
