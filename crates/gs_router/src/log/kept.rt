//! The entries of a trace that are kept in memory.
ghost use Rattle.std.specs.Prelude.{◌≡◌, [], ◌∷◌, Bool, true, OnErr, OnOk};
ghost use Rattle.gs_rules.specs.Tables.{Entries};
ghost use Rattle.gs_router.specs.Log.{IsKept, ends_round, is_round_over};

use crate::log::Retention;
use gs_rules::{Event, StoredEntry, Trace};
use std::alloc::{AllocError, Global};

/// The entries of a trace that are kept in memory.
#[derive(Drop)]
pub struct Kept {
    pub trace: Trace,
    /// The place of the first entry of the round.
    pub start: usize,
    /// Whether the newest entry ends a round.
    pub is_over: bool,
}

impl Kept {
    /// Returns what is kept of a trace without entries. It takes no memory.
    pub fn new(alloc: Global) -> Kept
        ensures { (all : Bool) → IsKept all result.trace result.start result.is_over [] }
    {
        Kept {
            trace: Trace::new(alloc),
            start: 0,
            is_over: false,
        }
    }

    /// Keeps one more entry, the newest. The first entry of a round takes the place of what was kept before, unless all is
    /// kept.
    ///
    /// # Errors
    /// `AllocError` when out of memory; what is kept is then as it was.
    #[tactic(auto, using(crate::proofs::Logging::one_more))]
    pub fn push<K: Retention>(
        &mut self,
        alloc: Global,
        entry: StoredEntry,
    ) -> Result<(), AllocError>
        ensures ok { OnOk result ((L : Entries)
            → IsKept K.keeps_all self.old.trace self.old.start self.old.is_over L
            → IsKept K.keeps_all self.new.trace self.new.start self.new.is_over (entry ∷ L)) }
        ensures err { OnErr result (self.new ≡ self.old) }
    {
        let ends = ends_round(entry.event());
        if self.is_over {
            self.begin::<K>(alloc, entry)?;
            self.is_over = ends;
            return Ok(());
        }
        self.trace.push_stored(entry)?;
        self.is_over = ends;
        Ok(())
    }

    /// Keeps the first entry of a round.
    #[tactic(auto, using(crate::proofs::Logging::begins_behind, crate::proofs::Logging::begins_anew))]
    fn begin<K: Retention>(&mut self, alloc: Global, entry: StoredEntry) -> Result<(), AllocError>
        ensures ok { OnOk result ((L : Entries)
            → is_round_over L ≡ true
            → IsKept K.keeps_all self.old.trace self.old.start self.old.is_over L
            → (is_over : Bool) → is_over ≡ ends_round entry.event
            → IsKept K.keeps_all self.new.trace self.new.start is_over (entry ∷ L)) }
        ensures err { OnErr result (self.new ≡ self.old) }
    {
        if K::keeps_all() {
            let start = self.trace.entries().len();
            self.trace.push_stored(entry)?;
            self.start = start;
            return Ok(());
        }
        let mut trace = Trace::new(alloc);
        trace.push_stored(entry)?;
        self.trace = trace;
        self.start = 0;
        Ok(())
    }
}

/// Says whether an event ends a round. Each event is named, so that a new one must be decided on.
fn ends_round(event: &Event) -> bool
    ensures { result ≡ ends_round event.now }
{
    match event {
        Event::RoundEnd(_) => true,
        Event::Heard(_, _) => false,
        Event::Late(_, _) => false,
        Event::Part(_, _) => false,
        Event::BeatBegin => false,
        Event::Step(_) => false,
        Event::Own(_) => false,
        Event::Lost(_, _) => false,
        Event::Decay => false,
        Event::Shut => false,
    }
}
