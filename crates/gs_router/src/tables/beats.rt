ghost use Rattle.std.specs.Prelude.{◌≡◌, ◌<◌, ◌^◌, [], ◌∷◌};
ghost use Rattle.gs_rules.specs.Tables.{Entries, heartbeats};
ghost use Rattle.gs_router.specs.Tables.{AgreesOnBeats};

use gs_rules::{Event, StoredEntry};

/// How many heartbeats began. By this count, every `opportunistic_ticks`-th one looks for better members.
#[derive(Drop)]
pub struct Beats {
    count: u64,
}

impl Beats {
    /// Returns a count at which no heartbeat began.
    pub fn new() -> Beats
        ensures { AgreesOnBeats result [] }
    {
        Beats { count: 0 }
    }

    /// Returns how many heartbeats began, including the one that is under way.
    pub fn count(&self) -> u64
        ensures { (L : Entries) → AgreesOnBeats self.now L → result ≡ heartbeats L }
    {
        self.count
    }

    /// Counts the heartbeat that an entry begins (`Promises`).
    pub fn note(&mut self, entry: &StoredEntry)
        requires few { self.old.count < 2 ^ 63 }
        ensures { (L : Entries) → AgreesOnBeats self.old L → AgreesOnBeats self.new (entry.now ∷ L) }
    {
        match entry.event() {
            Event::BeatBegin => self.count += 1,
            _ => {}
        }
    }
}
