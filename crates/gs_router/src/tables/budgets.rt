//! What neighbours may still offer and be asked for.
ghost use Rattle.std.specs.Prelude.{◌≡◌, [], ◌∷◌, OnOk};
ghost use Rattle.gs_base.specs.declared.names.PeerNo.{PeerNo as PeerNoValue};
ghost use Rattle.gs_rules.specs.declared.event.Event.TheVariants as events;
ghost use Rattle.gs_rules.specs.declared.trace.Entry.{Entry as EntryValue};
ghost use Rattle.gs_rules.specs.Tables.{Entries};
ghost use Rattle.gs_router.specs.Tables.{AgreesOnBudgets, budget_after, budget_in, budget_left, unmarked};

use gs_base::{Mark, PeerNo};
use gs_rules::{BeatStep, Event, StoredEntry};
use indexmap::IndexMap;
use std::alloc::{AllocError, Global};

/// What is left of a neighbour's budget.
#[derive(Clone, Copy, Debug, PartialEq, Eq)]
pub struct Budget {
    /// How many of its offers still count.
    pub offers: u64,
    /// How many identifiers it may still be asked for.
    pub ids: u64,
}

/// What is left of each neighbour's budget.
#[derive(Drop)]
pub struct Budgets {
    /// What each has at first.
    full: Budget,
    /// What is left to the neighbours that made an offer which counted.
    left: IndexMap<PeerNo, Budget>,
}

impl Budgets {
    /// Returns budgets against which no offer counted. It takes no memory.
    pub fn new(alloc: Global, full: Budget) -> Budgets
        ensures agrees { AgreesOnBudgets result [] }
        ensures full { result.full ≡ full }
    {
        Budgets {
            full,
            left: IndexMap::new(alloc),
        }
    }

    /// Returns what is left of a neighbour's budget.
    pub fn of(&self, peer: PeerNo) -> Budget
        ensures { result ≡ budget_in self.now peer }
    {
        match self.left.get(&peer) {
            Some(budget) => *budget,
            None => self.full,
        }
    }

    fn note_mark(&mut self, mark: &Mark) -> Result<(), AllocError>
        ensures leaves { OnOk result ((q : PeerNoValue)
            → budget_in self.new q ≡ budget_after q mark.now (budget_in self.old q)) }
        ensures full { OnOk result (self.new.full ≡ self.old.full) }
    {
        match mark {
            Mark::Offered(peer) => {
                let before = self.of(*peer);
                let budget = Budget {
                    offers: before.offers.saturating_sub(1),
                    ids: before.ids,
                };
                self.left.insert(*peer, budget)?;
                Ok(())
            }
            Mark::Asked(peer, count) => {
                let before = self.of(*peer);
                let budget = Budget {
                    offers: before.offers,
                    ids: before.ids.saturating_sub(u64::from(*count)),
                };
                self.left.insert(*peer, budget)?;
                Ok(())
            }
            _ => Ok(()),
        }
    }

    /// Notes what an entry counts against budgets: offers that count, and identifiers that were asked for. If the entry ends
    /// a heartbeat, each budget is whole again.
    ///
    /// # Errors
    /// `AllocError` if memory runs out. Some of the entry's marks may then have been noted.
    pub fn note(&mut self, entry: &StoredEntry) -> Result<(), AllocError>
        ensures agrees { OnOk result ((L : Entries)
            → AgreesOnBudgets self.old L
            → AgreesOnBudgets self.new (entry.now ∷ L)) }
        ensures full { OnOk result (self.new.full ≡ self.old.full) }
    {
        self.note_event(entry.event());
        self.note_marks(entry)?;
        Ok(())
    }

    /// Notes that an event came. At the end of a heartbeat each neighbour has its whole budget again. It takes no memory.
    fn note_event(&mut self, event: &Event)
        ensures agrees { (e : EntryValue) (L : Entries)
            → e.event ≡ event.now
            → AgreesOnBudgets self.old L
            → AgreesOnBudgets self.new (unmarked e ∷ L) }
        ensures full { self.new.full ≡ self.old.full }
    {
        match event {
            Event::Step(step) => self.note_step(step),
            _ => {}
        }
    }

    fn note_step(&mut self, step: &BeatStep)
        ensures agrees { (e : EntryValue) (L : Entries)
            → e.event ≡ events.Step step.now
            → AgreesOnBudgets self.old L
            → AgreesOnBudgets self.new (unmarked e ∷ L) }
        ensures full { self.new.full ≡ self.old.full }
    {
        match step {
            BeatStep::MeshBeat(_) => {}
            BeatStep::FanBeat(_) => {}
            BeatStep::FanEnd(_) => {}
            BeatStep::GossipBeat(_) => {}
            BeatStep::BeatEnd => self.left.clear(),
        }
    }

    fn note_marks(&mut self, entry: &StoredEntry) -> Result<(), AllocError>
        ensures agrees { OnOk result ((L : Entries)
            → AgreesOnBudgets self.old (unmarked entry.now ∷ L)
            → AgreesOnBudgets self.new (entry.now ∷ L)) }
        ensures full { OnOk result (self.new.full ≡ self.old.full) }
    {
        for mark in entry.marks() {
            self.note_mark(mark)?;
        }
        Ok(())
    }
}
