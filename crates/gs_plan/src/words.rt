//! The words for what a peer is to do, in a scenario and in a report.
ghost use Rattle.std.specs.Prelude.{◌≡◌};
ghost use Rattle.gs_plan.specs.Plans.{what_word};

use crate::plan::Act;

/// The word for a line that tells a peer to subscribe.
pub const SUBSCRIBE: &str = "subscribe";

/// The word for a line that tells a peer to leave a topic.
pub const UNSUBSCRIBE: &str = "unsubscribe";

/// The word for a line that tells a peer to publish.
pub const PUBLISH: &str = "publish";

/// The word for a line that tells a peer to put bytes on a link unchanged.
pub const RAW: &str = "raw";

/// The word for a line that tells a peer to close the link to a neighbour.
pub const HANG_UP: &str = "hang_up";

/// Returns the word for what a peer is to do.
pub fn what_word(what: &Act) -> &'static str
    ensures { result.now ≡ what_word what.now }
{
    match what {
        Act::Subscribe(_) => SUBSCRIBE,
        Act::Unsubscribe(_) => UNSUBSCRIBE,
        Act::Publish(_, _) => PUBLISH,
        Act::Raw(_, _) => RAW,
        Act::HangUp(_) => HANG_UP,
    }
}
