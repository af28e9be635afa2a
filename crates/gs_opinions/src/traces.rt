//! The opinions of a peer, entry by entry.
ghost use Rattle.std.specs.Prelude.{◌≡◌, ◌≤◌, ◌++◌, [], ◌∷◌, IfOk, OnOk, reverse};
ghost use Rattle.gs_base.specs.declared.names.PeerNo.{PeerNo as PeerNoValue};
ghost use Rattle.gs_plan.specs.Plans.{IsInRange};
ghost use Rattle.gs_plan.specs.declared.plan.Plan.{Plan as PlanValue};
ghost use Rattle.gs_router.specs.Following.{AreInOrder};
ghost use Rattle.gs_rules.specs.Tables.{Entries, last_moment};
ghost use Rattle.gs_seats.specs.Own.{AreNeighbourhoods};
ghost use Rattle.gs_opinions.specs.Opinions.{entry_opinions, is_after, is_before, later_opinions, look_at, opinion_of, opinions_after, opinions_at, opinions_before};
ghost use Rattle.gs_opinions.specs.Reading.{IsJudgeAfter, ShowsMore};

use crate::opinion::Opinion;
use crate::tables::Tables;
use gs_base::{Millis, Neighbour, PeerNo};
use gs_plan::Plan;
use gs_router::Watcher;
use gs_rules::{Event, StoredEntry};
use gs_seats::{Neighbourhoods, watcher_among};
use std::alloc::{AllocError, Global};

/// A peer whose entries are seen.
#[derive(Drop)]
pub(crate) struct Judge {
    peer: PeerNo,
    /// Ascending.
    neighbours: Vec<Neighbour>,
    watcher: Watcher,
    /// The moment of the newest entry that was seen, or 0.
    last: Millis,
}

/// When the scores of neighbours are looked at.
#[derive(Clone, Copy, Debug, PartialEq, Eq)]
enum Look {
    /// Not at this event.
    Never,
    /// After what the peer did at it.
    After,
    /// Just before it, and after what the peer did at it.
    Around,
}

impl Look {
    fn is_before(self) -> bool
        ensures { result ≡ is_before self }
    {
        match self {
            Look::Around => true,
            Look::After => false,
            Look::Never => false,
        }
    }

    fn is_after(self) -> bool
        ensures { result ≡ is_after self }
    {
        match self {
            Look::Never => false,
            Look::After => true,
            Look::Around => true,
        }
    }
}

impl Judge {
    /// A peer of a plan that did nothing yet.
    pub(crate) fn new(
        alloc: Global,
        plan: &Plan,
        neighbourhoods: &Neighbourhoods,
        peer: PeerNo,
    ) -> Result<Judge, AllocError>
        requires range { IsInRange plan.now }
        requires sorted { AreNeighbourhoods plan.now neighbourhoods.now }
        ensures { IfOk result (λ judge. IsJudgeAfter plan.now peer judge []) }
    {
        let neighbours = neighbourhoods.neighbours(alloc, plan, peer)?;
        let watcher = watcher_among(alloc, plan, neighbourhoods, peer)?;
        Ok(Judge {
            peer,
            neighbours,
            watcher,
            last: Millis(0),
        })
    }

    /// Sees these entries, the oldest first, and notes the opinions at them. No entry is earlier than the one before it.
    pub(crate) fn see(
        &mut self,
        tables: &mut Tables<'_>,
        entries: &[StoredEntry],
    ) -> Result<(), AllocError>
        requires { (plan : PlanValue) × (p : PeerNoValue) × (L : Entries)
            × IsJudgeAfter plan p self.old L × AreInOrder (reverse entries.now ++ L) }
        ensures { OnOk result ((plan : PlanValue) (p : PeerNoValue) (L : Entries)
            → IsJudgeAfter plan p self.old L
            → IsJudgeAfter plan p self.new (reverse entries.now ++ L)
            × ShowsMore plan tables.old tables.new (later_opinions plan p entries.now L)) }
    {
        for entry in entries {
            self.see_one(tables, entry)?;
        }
        Ok(())
    }

    /// Sees an entry, and notes the opinions at it.
    fn see_one(&mut self, tables: &mut Tables<'_>, entry: &StoredEntry) -> Result<(), AllocError>
        requires { (plan : PlanValue) × (p : PeerNoValue) × (L : Entries)
            × IsJudgeAfter plan p self.old L × (last_moment L ≤ entry.now.at.0) }
        ensures { OnOk result ((plan : PlanValue) (p : PeerNoValue) (L : Entries)
            → IsJudgeAfter plan p self.old L
            → last_moment L ≤ entry.now.at.0
            → IsJudgeAfter plan p self.new (entry.now ∷ L)
            × ShowsMore plan tables.old tables.new (entry_opinions plan p entry.now L)) }
    {
        self.note_before(tables, entry)?;
        let fallen = self.watcher.see(entry)?;
        drop(fallen);
        self.last = entry.at();
        self.note_after(tables, entry)
    }

    /// Notes the opinions just before an entry, which was not seen yet.
    fn note_before(&self, tables: &mut Tables<'_>, entry: &StoredEntry) -> Result<(), AllocError>
        ensures { OnOk result ((plan : PlanValue) (p : PeerNoValue) (L : Entries)
            → IsJudgeAfter plan p self.now L
            → ShowsMore plan tables.old tables.new (opinions_before plan p entry.now L)) }
    {
        if look_at(entry.event()).is_before() {
            return self.note_moment(tables, entry.at());
        }
        Ok(())
    }

    /// Notes the opinions after an entry, the newest that was seen.
    fn note_after(&self, tables: &mut Tables<'_>, entry: &StoredEntry) -> Result<(), AllocError>
        ensures { OnOk result ((plan : PlanValue) (p : PeerNoValue) (L : Entries)
            → IsJudgeAfter plan p self.now (entry.now ∷ L)
            → ShowsMore plan tables.old tables.new (opinions_after plan p entry.now L)) }
    {
        if look_at(entry.event()).is_after() {
            return self.note_moment(tables, entry.at());
        }
        Ok(())
    }

    /// Notes the peer's opinion of each neighbour at a moment.
    fn note_moment(&self, tables: &mut Tables<'_>, at: Millis) -> Result<(), AllocError>
        ensures { OnOk result ((plan : PlanValue) (p : PeerNoValue) (L : Entries)
            → IsJudgeAfter plan p self.now L
            → ShowsMore plan tables.old tables.new (opinions_at plan p L at)) }
    {
        for neighbour in &self.neighbours {
            tables.note(self.opinion_of(at, neighbour.peer))?;
        }
        Ok(())
    }

    /// The peer's opinion of a neighbour at a moment.
    fn opinion_of(&self, at: Millis, neighbour: PeerNo) -> Opinion
        ensures { (plan : PlanValue) (p : PeerNoValue) (L : Entries)
            → IsJudgeAfter plan p self.now L → result ≡ opinion_of plan p L at neighbour }
    {
        Opinion {
            by: self.peer,
            of: neighbour,
            score: self.watcher.score(neighbour, at),
            at,
        }
    }
}

/// When scores are looked at. Each event is named, so that somebody decides about a new one.
fn look_at(event: &Event) -> Look
    ensures { result ≡ look_at event.now }
{
    match event {
        Event::BeatBegin => Look::After,
        Event::Decay => Look::Around,
        Event::Shut => Look::After,
        Event::Heard(_, _) => Look::Never,
        Event::Late(_, _) => Look::Never,
        Event::Part(_, _) => Look::Never,
        Event::Step(_) => Look::Never,
        Event::Own(_) => Look::Never,
        Event::Lost(_, _) => Look::Never,
        Event::RoundEnd(_) => Look::Never,
    }
}
