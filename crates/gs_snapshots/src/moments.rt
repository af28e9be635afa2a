//! The moments at which scores are reported.
ghost use Rattle.std.specs.Prelude.{◌≡◌, ◌<◌, IfNone, IfSome, None, option_map};
ghost use Rattle.gs_snapshots.specs.Moments.{moment_of, occasion_of, occasion_word};

use gs_base::{Millis, PeerNo};
use gs_plan::Plan;
use gs_rules::{Event, StoredEntry};

/// Why scores are reported at a moment.
#[derive(Clone, Copy, Debug, PartialEq, Eq)]
pub enum Occasion {
    /// A heartbeat began.
    Heartbeat,
    /// The counters of scores decayed.
    Decay,
    /// The peer shut down.
    Shutdown,
}

/// A moment of a peer's trace at which scores are reported.
#[derive(Clone, Copy, Debug, PartialEq, Eq)]
pub struct Moment {
    /// The peer that the trace belongs to.
    pub peer: PeerNo,
    /// The round.
    pub round: u64,
    /// The time, in milliseconds from the start of the run.
    pub at: Millis,
    /// What happened then.
    pub occasion: Occasion,
}

/// Returns the moment of an entry of a peer, if scores are reported then.
pub(crate) fn moment_of(plan: &Plan, peer: PeerNo, entry: &StoredEntry) -> Option<Moment>
    requires { 0 < plan.now.round_ms }
    ensures { result ≡ option_map (moment_of plan.now peer entry.now) (occasion_of entry.now.event) }
{
    let at = entry.at();
    match occasion_of(entry.event()) {
        Some(occasion) => Some(Moment {
            peer,
            round: at.0 / plan.round_ms,
            at,
            occasion,
        }),
        None => None,
    }
}

/// Returns why scores are reported at an event, if they are. The match names each event, so that a new event needs a
/// decision here.
fn occasion_of(event: &Event) -> Option<Occasion>
    ensures { result ≡ occasion_of event.now }
{
    match event {
        Event::BeatBegin => Some(Occasion::Heartbeat),
        Event::Decay => Some(Occasion::Decay),
        Event::Shut => Some(Occasion::Shutdown),
        Event::Heard(_, _) => None,
        Event::Late(_, _) => None,
        Event::Part(_, _) => None,
        Event::Step(_) => None,
        Event::Own(_) => None,
        Event::Lost(_, _) => None,
        Event::RoundEnd(_) => None,
    }
}

/// Returns the word of an occasion, which is the word of its event.
pub(crate) fn occasion_word(occasion: Occasion) -> &'static [u8]
    ensures { result.now ≡ occasion_word occasion }
{
    match occasion {
        Occasion::Heartbeat => b"heartbeat",
        Occasion::Decay => b"decay",
        Occasion::Shutdown => b"shut",
    }
}
