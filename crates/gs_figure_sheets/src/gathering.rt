//! Gathers what sheets of a run need while the run goes on.
ghost use Rattle.std.specs.Prelude.{◌≡◌, ◌++◌, [], IfOk, OnOk, length, map, reverse};
ghost use Rattle.gs_base.specs.declared.names.PeerNo.{PeerNo as PeerNoValue};
ghost use Rattle.gs_plan.specs.Plans.{IsInRange};
ghost use Rattle.gs_counts.specs.Counting.{HasCounted};
ghost use Rattle.gs_plan.specs.declared.plan.Plan.{Plan as PlanValue};
ghost use Rattle.gs_reach.specs.declared.chosen.Chosen.{Chosen as ChosenValue};
ghost use Rattle.gs_report.specs.Seen.{AreLives, added, remains_of};
ghost use Rattle.gs_report.specs.declared.report.Report.{Report as ReportValue};
ghost use Rattle.gs_router.specs.Following.{AreInOrder};
ghost use Rattle.gs_rules.specs.Tables.{Entries};
ghost use Rattle.gs_figure_sheets.specs.FigureSheets.{all_counts, found_of, sheets_of};
ghost use Rattle.gs_figure_sheets.specs.Gathering.{CountsAll, GathersParts, GathersRun, HasGathered, inquiry_in, plan_gathered};
ghost use Rattle.gs_figure_sheets.specs.declared.inquiry.Inquiry.{Inquiry as InquiryValue};

use crate::found::Found;
use crate::inquiry::Inquiry;
use crate::known::Known;
use crate::sheets::{link_sheets, round_sheets, run_sheets, topic_sheets};
use crate::standing::{meshes_of, standings_of};
use crate::wanted::Subject;
use gs_base::{PeerNo, Seq};
use gs_counts::{Counting, RunCounts};
use gs_opinions::Judging;
use gs_plan::Plan;
use gs_reach::{Chosen, Listing};
use gs_report::Remains;
use gs_rules::StoredEntry;
use gs_seats::Observer;
use gs_sheets::Sheet;
use std::alloc::{AllocError, Global};

/// An observer of a run that gathers what the sheets need that are asked for. It keeps no trace.
#[derive(Drop)]
pub struct Gathering<'a> {
    plan: &'a Plan,
    inquiry: &'a Inquiry,
    counting: Counting,
    parts: Parts<'a>,
}

/// What only the sheets about one subject need.
#[derive(Drop)]
enum Parts<'a> {
    Run(RunParts<'a>),
    Rounds(Judging<'a>),
    Topics,
    Links,
}

/// What only the sheets about a whole run need.
#[derive(Drop)]
struct RunParts<'a> {
    listing: Listing,
    /// What all peers did, if only some are chosen.
    all: Option<Counting>,
    judging: Judging<'a>,
}

impl<'a> Gathering<'a> {
    /// Returns an observer of a run of this plan that has seen nothing.
    ///
    /// # Errors
    /// `AllocError` when out of memory.
    pub fn new(
        alloc: Global,
        plan: &'a Plan,
        inquiry: &'a Inquiry,
    ) -> Result<Gathering<'a>, AllocError>
        requires { IsInRange plan.now }
        ensures gathered { IfOk result (λ gathering. HasGathered plan.now inquiry.now gathering (λ p. [])) }
        ensures question { IfOk result (λ gathering.
            (plan_gathered gathering ≡ plan.now) × (inquiry_in gathering ≡ inquiry.now)) }
    {
        let counting = Counting::new(alloc, plan, &inquiry.among)?;
        let parts = Parts::new(alloc, plan, inquiry)?;
        Ok(Gathering {
            plan,
            inquiry,
            counting,
            parts,
        })
    }

    /// Returns the sheets that are asked for. `remains` is what the run leaves of each peer besides its trace, by number.
    ///
    /// # Errors
    /// `AllocError` when out of memory.
    pub fn sheets(
        self,
        alloc: Global,
        remains: Vec<(PeerNo, Remains)>,
    ) -> Result<Seq<Sheet>, AllocError>
        requires range { IsInRange (plan_gathered self) }
        requires gathered { (traces : PeerNoValue → Entries) × HasGathered (plan_gathered self) (inquiry_in self) self traces }
        ensures { IfOk result (λ sheets. (traces : PeerNoValue → Entries) (report : ReportValue)
            → HasGathered (plan_gathered self.entry) (inquiry_in self.entry) self.entry traces
            → AreLives (length (plan_gathered self.entry).peers) traces report.peers.items
            → map (λ x. (x.0, remains_of x.1)) report.peers.items ≡ remains.items
            → sheets ≡ sheets_of (plan_gathered self.entry) (inquiry_in self.entry) report) }
    {
        let Gathering {
            plan,
            inquiry,
            counting,
            parts,
        } = self;
        match parts {
            Parts::Run(run) => {
                let found = run.found(alloc, plan, &inquiry.among, counting, remains)?;
                run_sheets(alloc, plan, inquiry, &found)
            }
            Parts::Rounds(judging) => {
                let opinions = judging.opinions(alloc, plan)?;
                let counts = counting.counts(alloc, plan, &remains)?;
                round_sheets(alloc, inquiry, &opinions, &counts)
            }
            Parts::Topics => {
                let counts = counting.counts(alloc, plan, &remains)?;
                topic_sheets(alloc, inquiry, &counts)
            }
            Parts::Links => {
                let counts = counting.counts(alloc, plan, &remains)?;
                link_sheets(alloc, plan, inquiry, &counts)
            }
        }
    }
}

impl<'a> Observer for Gathering<'a> {
    ghost Question = { PlanValue × InquiryValue };

    ghost question = { λ gathering. (plan_gathered gathering, inquiry_in gathering) };

    ghost saw = { λ gathering traces. HasGathered (plan_gathered gathering) (inquiry_in gathering) gathering traces };

    fn see(&mut self, peer: PeerNo, entries: &[StoredEntry]) -> Result<(), AllocError> {
        self.counting.see(peer, entries)?;
        self.parts.see(peer, entries)
    }
}

impl<'a> Parts<'a> {
    fn new(alloc: Global, plan: &Plan, inquiry: &'a Inquiry) -> Result<Parts<'a>, AllocError>
        requires { IsInRange plan.now }
        ensures { IfOk result (λ parts. GathersParts plan.now inquiry.now parts (λ p. [])) }
    {
        match inquiry.subject {
            Subject::Run => {
                let run = RunParts::new(alloc, plan, &inquiry.among)?;
                Ok(Parts::Run(run))
            }
            Subject::Rounds => {
                let judging = Judging::new(alloc, plan, &inquiry.among, inquiry.groups.as_slice())?;
                Ok(Parts::Rounds(judging))
            }
            Subject::Topics => Ok(Parts::Topics),
            Subject::Links => Ok(Parts::Links),
        }
    }

    /// Notes what a peer did since it was seen last, the oldest entry first.
    fn see(&mut self, peer: PeerNo, entries: &[StoredEntry]) -> Result<(), AllocError>
        requires { (plan : PlanValue) × (inquiry : InquiryValue) × (before : PeerNoValue → Entries)
            × GathersParts plan inquiry self.old before × AreInOrder (reverse entries.now ++ before peer) }
        ensures { OnOk result ((plan : PlanValue) (inquiry : InquiryValue) (before after : PeerNoValue → Entries)
            → ((p : PeerNoValue) → after p ≡ added before peer entries.now p)
            → AreInOrder (reverse entries.now ++ before peer)
            → GathersParts plan inquiry self.old before
            → GathersParts plan inquiry self.new after) }
    {
        match self {
            Parts::Run(run) => run.see(peer, entries),
            Parts::Rounds(judging) => judging.see(peer, entries),
            Parts::Topics => Ok(()),
            Parts::Links => Ok(()),
        }
    }
}

impl<'a> RunParts<'a> {
    fn new(alloc: Global, plan: &Plan, among: &Chosen) -> Result<RunParts<'a>, AllocError>
        requires { IsInRange plan.now }
        ensures { IfOk result (λ run. GathersRun plan.now among.now run (λ p. [])) }
    {
        let listing = Listing::new(alloc, plan.peers.len())?;
        let all = all_counting(alloc, plan, among)?;
        let judging = Judging::new(alloc, plan, among, &[])?;
        Ok(RunParts {
            listing,
            all,
            judging,
        })
    }

    /// Notes what a peer did since it was seen last, the oldest entry first.
    fn see(&mut self, peer: PeerNo, entries: &[StoredEntry]) -> Result<(), AllocError>
        requires { (plan : PlanValue) × (among : ChosenValue) × (before : PeerNoValue → Entries)
            × GathersRun plan among self.old before × AreInOrder (reverse entries.now ++ before peer) }
        ensures { OnOk result ((plan : PlanValue) (among : ChosenValue) (before after : PeerNoValue → Entries)
            → ((p : PeerNoValue) → after p ≡ added before peer entries.now p)
            → AreInOrder (reverse entries.now ++ before peer)
            → GathersRun plan among self.old before
            → GathersRun plan among self.new after) }
    {
        self.listing.see(peer, entries)?;
        see_all(&mut self.all, peer, entries)?;
        self.judging.see(peer, entries)
    }

    /// Returns what the run shows. `counting` has counted the same.
    fn found(
        self,
        alloc: Global,
        plan: &Plan,
        among: &Chosen,
        counting: Counting,
        remains: Vec<(PeerNo, Remains)>,
    ) -> Result<Found, AllocError>
        requires range { IsInRange plan.now }
        requires gathered { (traces : PeerNoValue → Entries)
            × HasCounted plan.now among.now counting traces × GathersRun plan.now among.now self traces }
        ensures { IfOk result (λ found. (traces : PeerNoValue → Entries) (report : ReportValue)
            → HasCounted plan.now among.now counting traces
            → GathersRun plan.now among.now self.entry traces
            → AreLives (length plan.now.peers) traces report.peers.items
            → map (λ x. (x.0, remains_of x.1)) report.peers.items ≡ remains.items
            → found ≡ found_of plan.now report among.now) }
    {
        let RunParts {
            listing,
            all,
            judging,
        } = self;
        let messages = listing.messages(alloc, plan)?;
        let opinions = judging.opinions(alloc, plan)?;
        let all = counts_of_all(alloc, plan, all, &remains)?;
        let meshes = meshes_of(alloc, &counting, among, &remains)?;
        let counts = counting.counts(alloc, plan, &remains)?;
        let standings = standings_of(alloc, &meshes, remains)?;
        Ok(Found {
            messages,
            known: Known {
                counts,
                all,
                opinions,
            },
            standings,
        })
    }
}

/// Counts what all peers do, if only some are chosen.
fn all_counting(alloc: Global, plan: &Plan, among: &Chosen) -> Result<Option<Counting>, AllocError>
    requires { IsInRange plan.now }
    ensures { IfOk result (λ all. CountsAll plan.now among.now all (λ p. [])) }
{
    match among {
        Chosen::Any => Ok(None),
        Chosen::Only(_) => {
            let counting = Counting::new(alloc, plan, &Chosen::Any)?;
            Ok(Some(counting))
        }
    }
}

fn see_all(
    all: &mut Option<Counting>,
    peer: PeerNo,
    entries: &[StoredEntry],
) -> Result<(), AllocError>
    requires { (plan : PlanValue) × (among : ChosenValue) × (before : PeerNoValue → Entries)
        × CountsAll plan among all.old before × AreInOrder (reverse entries.now ++ before peer) }
    ensures { OnOk result ((plan : PlanValue) (among : ChosenValue) (before after : PeerNoValue → Entries)
        → ((p : PeerNoValue) → after p ≡ added before peer entries.now p)
        → AreInOrder (reverse entries.now ++ before peer)
        → CountsAll plan among all.old before
        → CountsAll plan among all.new after) }
{
    match all {
        Some(counting) => counting.see(peer, entries),
        None => Ok(()),
    }
}

/// Returns the counts from the traces of all peers, if only some are chosen.
fn counts_of_all(
    alloc: Global,
    plan: &Plan,
    all: Option<Counting>,
    remains: &[(PeerNo, Remains)],
) -> Result<Option<RunCounts>, AllocError>
    requires range { IsInRange plan.now }
    requires counted { (among : ChosenValue) × (traces : PeerNoValue → Entries) × CountsAll plan.now among all traces }
    ensures { IfOk result (λ counts. (among : ChosenValue) (traces : PeerNoValue → Entries) (report : ReportValue)
        → CountsAll plan.now among all traces
        → AreLives (length plan.now.peers) traces report.peers.items
        → map (λ x. (x.0, remains_of x.1)) report.peers.items ≡ remains.now
        → counts ≡ all_counts plan.now report among) }
{
    match all {
        Some(counting) => {
            let counts = counting.counts(alloc, plan, remains)?;
            Ok(Some(counts))
        }
        None => Ok(None),
    }
}
