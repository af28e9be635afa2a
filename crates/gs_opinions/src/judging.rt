//! Opinions that are noted while a run goes on.
ghost use Rattle.std.specs.Prelude.{◌≡◌, ◌++◌, [], IfOk, length, List, OnOk, reverse};
ghost use Rattle.std.specs.List.{AllZip};
ghost use Rattle.gs_base.specs.declared.names.PeerNo.{PeerNo as PeerNoValue};
ghost use Rattle.gs_plan.specs.Plans.{IsInRange};
ghost use Rattle.gs_plan.specs.declared.plan.Plan.{Plan as PlanValue};
ghost use Rattle.gs_report.specs.Seen.{AreLives, added};
ghost use Rattle.gs_report.specs.declared.report.Report.{Report as ReportValue};
ghost use Rattle.gs_router.specs.Following.{AreInOrder};
ghost use Rattle.gs_rules.specs.Tables.{Entries};
ghost use Rattle.gs_reach.specs.declared.chosen.Chosen.{Chosen as ChosenValue};
ghost use Rattle.gs_seats.specs.Own.{AreNeighbourhoods};
ghost use Rattle.gs_seats.specs.Rounds.{numbers};
ghost use Rattle.gs_opinions.specs.Judging.{HasItsJudge, HasJudged, chosen_opinions};
ghost use Rattle.gs_opinions.specs.Reading.{ShowsMore};
ghost use Rattle.gs_opinions.specs.Runs.{opinions_of};

use crate::run::{Opinions, rows_of};
use crate::tables::Tables;
use crate::traces::Judge;
use gs_base::PeerNo;
use gs_plan::Plan;
use gs_reach::Chosen;
use gs_rules::StoredEntry;
use gs_seats::Neighbourhoods;
use std::alloc::{AllocError, Global};

/// The lowest opinions of a run so far, of the chosen peers. It keeps no trace.
#[derive(Drop)]
pub struct Judging<'a> {
    /// A judge for each chosen peer of the plan, and none for each other one, by number.
    judges: Vec<Option<Judge>>,
    tables: Tables<'a>,
}

impl<'a> Judging<'a> {
    /// Returns opinions of a run in which nothing happened: those of the peers in `of`, and about each of these groups.
    ///
    /// # Errors
    /// `AllocError` if it runs out of memory.
    pub fn new(
        alloc: Global,
        plan: &Plan,
        of: &Chosen,
        groups: &'a [Chosen],
    ) -> Result<Judging<'a>, AllocError>
        requires { IsInRange plan.now }
        ensures { IfOk result (λ judging. HasJudged plan.now of.now groups.now judging (λ p. [])) }
    {
        let neighbourhoods = Neighbourhoods::of(alloc, plan)?;
        let judges = judges_of(alloc, plan, &neighbourhoods, of)?;
        let tables = Tables::new(alloc, plan, groups)?;
        Ok(Judging { judges, tables })
    }

    /// Notes what a peer did since it was seen last, the oldest entry first. No entry is earlier than the one before it.
    /// A peer that is not chosen, or not of the plan, changes nothing.
    ///
    /// # Errors
    /// `AllocError` if it runs out of memory.
    pub fn see(&mut self, peer: PeerNo, entries: &[StoredEntry]) -> Result<(), AllocError>
        requires { (plan : PlanValue) × (of : ChosenValue) × (groups : List ChosenValue)
            × (before : PeerNoValue → Entries)
            × HasJudged plan of groups self.old before
            × AreInOrder (reverse entries.now ++ before peer) }
        ensures { OnOk result ((plan : PlanValue) (of : ChosenValue) (groups : List ChosenValue)
            (before after : PeerNoValue → Entries)
            → ((p : PeerNoValue) → after p ≡ added before peer entries.now p)
            → HasJudged plan of groups self.old before
            → HasJudged plan of groups self.new after) }
    {
        match self.judges.get_mut(usize::from(peer.0)) {
            Some(judge) => see_from(judge, &mut self.tables, entries),
            None => Ok(()),
        }
    }

    /// Returns the lowest opinions of the run of the plan.
    ///
    /// # Errors
    /// `AllocError` if it runs out of memory.
    pub fn opinions(&self, alloc: Global, plan: &Plan) -> Result<Opinions, AllocError>
        requires range { IsInRange plan.now }
        requires judged { (of : ChosenValue) × (groups : List ChosenValue) × (traces : PeerNoValue → Entries)
            × HasJudged plan.now of groups self.now traces }
        ensures { IfOk result (λ opinions. (of : ChosenValue) (groups : List ChosenValue)
            (traces : PeerNoValue → Entries) (report : ReportValue)
            → HasJudged plan.now of groups self.now traces
            → AreLives (length plan.now.peers) traces report.peers.items
            → opinions ≡ opinions_of plan.now report of groups) }
    {
        let opinions = rows_of(alloc, plan, &self.tables)?;
        Ok(opinions)
    }
}

/// A judge for each chosen peer of a plan, before the peers did anything.
fn judges_of(
    alloc: Global,
    plan: &Plan,
    neighbourhoods: &Neighbourhoods,
    of: &Chosen,
) -> Result<Vec<Option<Judge>>, AllocError>
    requires range { IsInRange plan.now }
    requires sorted { AreNeighbourhoods plan.now neighbourhoods.now }
    ensures { IfOk result (λ judges. AllZip (HasItsJudge plan.now of.now (λ p. [])) (numbers plan.now) judges.items) }
{
    let mut judges = Vec::new(alloc);
    for number in 0..plan.peers.len() as u16 {
        judges.push(judge_of(alloc, plan, neighbourhoods, of, PeerNo(number))?)?;
    }
    Ok(judges)
}

/// The judge of a peer that did nothing yet, if the peer is chosen.
fn judge_of(
    alloc: Global,
    plan: &Plan,
    neighbourhoods: &Neighbourhoods,
    of: &Chosen,
    peer: PeerNo,
) -> Result<Option<Judge>, AllocError>
    requires range { IsInRange plan.now }
    requires sorted { AreNeighbourhoods plan.now neighbourhoods.now }
    ensures { IfOk result (λ judge. HasItsJudge plan.now of.now (λ p. []) peer judge) }
{
    if of.contains(peer) {
        let judge = Judge::new(alloc, plan, neighbourhoods, peer)?;
        return Ok(Some(judge));
    }
    Ok(None)
}

/// Notes what the peer of a judge did, if there is a judge.
fn see_from(
    judge: &mut Option<Judge>,
    tables: &mut Tables<'_>,
    entries: &[StoredEntry],
) -> Result<(), AllocError>
    requires { (plan : PlanValue) × (of : ChosenValue) × (p : PeerNoValue) × (traces : PeerNoValue → Entries)
        × HasItsJudge plan of traces p judge.old × AreInOrder (reverse entries.now ++ traces p) }
    ensures { OnOk result ((plan : PlanValue) (of : ChosenValue) (p : PeerNoValue)
        (before after : PeerNoValue → Entries)
        → after p ≡ reverse entries.now ++ before p
        → HasItsJudge plan of before p judge.old
        → HasItsJudge plan of after p judge.new
        × ShowsMore plan tables.old tables.new (chosen_opinions plan of p entries.now (before p))) }
{
    match judge {
        Some(judge) => judge.see(tables, entries),
        None => Ok(()),
    }
}
