//! Counts what happens in a run while it goes on.
ghost use Rattle.std.specs.Prelude.{◌≡◌, ◌<◌, ◌∷◌, [], ◌++◌, IfOk, is_some, length, List, map, OnOk, option_copied, reverse, true};
ghost use Rattle.gs_base.specs.declared.names.PeerNo.{PeerNo as PeerNoValue};
ghost use Rattle.gs_plan.specs.Plans.{IsInRange};
ghost use Rattle.gs_plan.specs.declared.plan.Plan.{Plan as PlanValue};
ghost use Rattle.gs_reach.specs.Chosen.{is_chosen};
ghost use Rattle.gs_reach.specs.declared.chosen.Chosen.{Chosen as ChosenValue};
ghost use Rattle.gs_report.specs.Seen.{AreLives, added, remains_of};
ghost use Rattle.gs_report.specs.declared.report.Report.{Report as ReportValue};
ghost use Rattle.gs_router.specs.Following.{AreInOrder};
ghost use Rattle.gs_rules.specs.Tables.{Entries, last_moment};
ghost use Rattle.gs_seats.specs.Own.{AreNeighbourhoods};
ghost use Rattle.gs_counts.specs.declared.happening.Happening.{Happening as HappeningValue};
ghost use Rattle.gs_counts.specs.Counting.{AreCounters, HasCounted, IfCounted, counted_refusals, counter_of, if_counted};
ghost use Rattle.gs_counts.specs.Reading.{AreLater, later_happenings, later_sizes};
ghost use Rattle.gs_counts.specs.Runs.{run_counts};
ghost use Rattle.gs_counts.specs.Standing.{MeshSize, Shows};
ghost use Rattle.gs_counts.specs.Topics.{subscribed};

use crate::happening::Happening;
use crate::run::{RunCounts, rows_of};
use crate::tables::Tables;
use crate::traces::{PeerCounter, note_refused};
use gs_base::{PeerNo, Topic};
use gs_plan::Plan;
use gs_reach::Chosen;
use gs_report::Remains;
use gs_rules::StoredEntry;
use gs_seats::Neighbourhoods;
use std::alloc::{AllocError, Global};

/// What happened in a run so far, according to the traces of the chosen peers. It keeps no trace.
#[derive(Drop)]
pub struct Counting {
    /// A counter for each chosen peer of the plan, and none for each other one, by number.
    counters: Vec<Option<PeerCounter>>,
    tables: Tables,
    /// It is used again for what happens at each entry.
    list: Vec<Happening>,
}

impl Counting {
    /// Returns the counts of a run in which nothing happened. They are of the peers in `of`.
    ///
    /// # Errors
    /// `AllocError` when out of memory.
    pub fn new(alloc: Global, plan: &Plan, of: &Chosen) -> Result<Counting, AllocError>
        requires { IsInRange plan.now }
        ensures { IfOk result (λ counting. HasCounted plan.now of.now counting (λ p. [])) }
    {
        let neighbourhoods = Neighbourhoods::of(alloc, plan)?;
        let tables = Tables::new(alloc, plan)?;
        let counters = counters_of(alloc, plan, &neighbourhoods, of)?;
        Ok(Counting {
            counters,
            tables,
            list: Vec::new(alloc),
        })
    }

    /// Notes what a peer did since it was seen last, the oldest entry first. No entry is earlier than the one before it.
    ///
    /// # Errors
    /// `AllocError` when out of memory.
    pub fn see(&mut self, peer: PeerNo, entries: &[StoredEntry]) -> Result<(), AllocError>
        requires { (plan : PlanValue) × (of : ChosenValue) × (before : PeerNoValue → Entries)
            × HasCounted plan of self.old before × AreInOrder (reverse entries.now ++ before peer) }
        ensures { OnOk result ((plan : PlanValue) (of : ChosenValue) (before after : PeerNoValue → Entries)
            → ((p : PeerNoValue) → after p ≡ added before peer entries.now p)
            → HasCounted plan of self.old before
            → HasCounted plan of self.new after) }
    {
        match self.counters.get_mut(usize::from(peer.0)) {
            Some(counter) => see_at(counter, &mut self.tables, &mut self.list, entries),
            None => Ok(()),
        }
    }

    /// Returns the topics that a chosen peer is subscribed to, in the order in which it subscribed.
    pub fn topics(&self, peer: PeerNo) -> &[Topic]
        ensures { (plan : PlanValue) (of : ChosenValue) (traces : PeerNoValue → Entries)
            → HasCounted plan of self.now traces
            → peer.0 < length plan.peers
            → is_chosen of peer ≡ true
            → result.now ≡ subscribed (traces peer) }
    {
        match counter_of(&self.counters, peer) {
            Some(counter) => counter.topics(),
            None => &[],
        }
    }

    /// Returns what happened in the run of the plan. `remains` is what it leaves of the peers, by number.
    ///
    /// # Errors
    /// `AllocError` when out of memory.
    pub fn counts(
        self,
        alloc: Global,
        plan: &Plan,
        remains: &[(PeerNo, Remains)],
    ) -> Result<RunCounts, AllocError>
        requires range { IsInRange plan.now }
        requires counted { (of : ChosenValue) × (traces : PeerNoValue → Entries) × HasCounted plan.now of self traces }
        ensures { IfOk result (λ counts. (of : ChosenValue) (traces : PeerNoValue → Entries) (report : ReportValue)
            → HasCounted plan.now of self traces
            → AreLives (length plan.now.peers) traces report.peers.items
            → map (λ x. (x.0, remains_of x.1)) report.peers.items ≡ remains.now
            → counts ≡ run_counts plan.now report of) }
    {
        let Counting {
            counters,
            mut tables,
            mut list,
        } = self;
        note_remains(&mut tables, &mut list, &counters, remains)?;
        let counts = rows_of(alloc, plan, &tables)?;
        Ok(counts)
    }
}

/// The counters of the chosen peers before they did anything.
fn counters_of(
    alloc: Global,
    plan: &Plan,
    neighbourhoods: &Neighbourhoods,
    of: &Chosen,
) -> Result<Vec<Option<PeerCounter>>, AllocError>
    requires range { IsInRange plan.now }
    requires sorted { AreNeighbourhoods plan.now neighbourhoods.now }
    ensures { IfOk result (λ counters. AreCounters (length plan.now.peers) plan.now of.now counters.items (λ p. [])) }
{
    let count = plan.peers.len() as u16;
    let mut counters = Vec::new(alloc);
    for number in 0..count {
        counters.push(counter_if(alloc, plan, neighbourhoods, of, PeerNo(number))?)?;
    }
    Ok(counters)
}

/// The counter of a peer that did nothing yet, if the peer is chosen.
fn counter_if(
    alloc: Global,
    plan: &Plan,
    neighbourhoods: &Neighbourhoods,
    of: &Chosen,
    peer: PeerNo,
) -> Result<Option<PeerCounter>, AllocError>
    requires range { IsInRange plan.now }
    requires sorted { AreNeighbourhoods plan.now neighbourhoods.now }
    ensures chosen { IfOk result (λ counter. is_some counter ≡ is_chosen of.now peer) }
    ensures seen { IfOk result (λ counter. IfCounted plan.now peer [] counter) }
{
    if !of.contains(peer) {
        return Ok(None);
    }
    let counter = PeerCounter::new(alloc, plan, neighbourhoods, peer)?;
    Ok(Some(counter))
}

/// The counter of a peer, if it has one.
fn counter_of(counters: &[Option<PeerCounter>], peer: PeerNo) -> Option<&PeerCounter>
    ensures { option_copied result ≡ counter_of counters.now peer }
{
    match counters.get(usize::from(peer.0)) {
        Some(counter) => counter.as_ref(),
        None => None,
    }
}

/// Notes what the next entries of a peer say, if it has a counter.
fn see_at(
    counter: &mut Option<PeerCounter>,
    tables: &mut Tables,
    list: &mut Vec<Happening>,
    entries: &[StoredEntry],
) -> Result<(), AllocError>
    requires { (plan : PlanValue) × (p : PeerNoValue) × (L : Entries)
        × IfCounted plan p L counter.old × AreLater (last_moment L) entries.now }
    ensures chosen { OnOk result (is_some counter.new ≡ is_some counter.old) }
    ensures seen { OnOk result ((plan : PlanValue) (p : PeerNoValue) (L : Entries)
        → IfCounted plan p L counter.old
        → IfCounted plan p (reverse entries.now ++ L) counter.new) }
    ensures tables { OnOk result ((plan : PlanValue) (p : PeerNoValue) (L : Entries)
        (hs : List HappeningValue) (sizes : List MeshSize)
        → IfCounted plan p L counter.old
        → Shows plan tables.old hs sizes
        → Shows plan tables.new (hs ++ if_counted counter.old (later_happenings plan p L entries.now))
        (sizes ++ if_counted counter.old (later_sizes L entries.now))) }
{
    match counter {
        Some(counter) => counter.see(tables, list, entries),
        None => Ok(()),
    }
}

/// Notes what a run leaves of its peers, as far as they have a counter.
fn note_remains(
    tables: &mut Tables,
    list: &mut Vec<Happening>,
    counters: &[Option<PeerCounter>],
    remains: &[(PeerNo, Remains)],
) -> Result<(), AllocError>
    ensures { OnOk result ((plan : PlanValue) (hs : List HappeningValue) (sizes : List MeshSize)
        → Shows plan tables.old hs sizes
        → Shows plan tables.new (hs ++ counted_refusals counters.now remains.now) sizes) }
{
    for left in remains {
        note_left(tables, list, counters, left)?;
    }
    Ok(())
}

/// Notes what a run leaves of a peer, if it has a counter.
fn note_left(
    tables: &mut Tables,
    list: &mut Vec<Happening>,
    counters: &[Option<PeerCounter>],
    left: &(PeerNo, Remains),
) -> Result<(), AllocError>
    ensures { OnOk result ((plan : PlanValue) (hs : List HappeningValue) (sizes : List MeshSize)
        → Shows plan tables.old hs sizes
        → Shows plan tables.new (hs ++ counted_refusals counters.now (left.now ∷ [])) sizes) }
{
    if counter_of(counters, left.0).is_none() {
        return Ok(());
    }
    note_refused(tables, list, left.0, left.1.refused.as_slice())
}
