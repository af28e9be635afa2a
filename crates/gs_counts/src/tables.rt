//! The tables of a run while its happenings are noted.
ghost use Rattle.std.specs.Prelude.{◌≡◌, ◌++◌, ◌∷◌, [], if◌then◌else◌, IfOk, List, OnOk, Some, unwrap_or};
ghost use Rattle.gs_base.specs.Names.{same_topic};
ghost use Rattle.gs_base.specs.declared.names.PeerNo.{PeerNo as PeerNoValue};
ghost use Rattle.gs_base.specs.declared.names.Topic.{Topic as TopicValue};
ghost use Rattle.gs_plan.specs.Plans.{IsInRange};
ghost use Rattle.gs_plan.specs.declared.plan.Plan.{Plan as PlanValue};
ghost use Rattle.gs_counts.specs.Rows.{counted, no_counts};
ghost use Rattle.gs_counts.specs.declared.happening.Happening.{Happening as HappeningValue};
ghost use Rattle.gs_counts.specs.Standing.{MeshSize, Shows, added_at, empty_rows, goes_over, is_on, link_of, link_row, no_spans, round_at, topic_row, widened_at};

use crate::counts::{Counts, no_counts};
use crate::happening::Happening;
use crate::kind::Kind;
use crate::span::{Span, widened};
use gs_base::{Millis, PeerNo, Topic, clone_of};
use gs_plan::Plan;
use indexmap::IndexMap;
use std::alloc::{AllocError, Global};
use std::collections::BTreeMap;

/// The rows of links over which something went, by the peer that the link comes from, and the peer that it leads to.
pub(crate) type LinkRows = IndexMap<(PeerNo, PeerNo), Counts>;

/// The tables of a run while its happenings are noted. They have a row for each peer, each round, each link over which
/// something went, and each topic. Peers and rounds are by number.
#[derive(Drop)]
pub(crate) struct Tables {
    round_ms: u64,
    pub peers: Vec<Counts>,
    pub rounds: Vec<Counts>,
    /// The sizes of the smallest and the largest mesh when the peers ended each round.
    pub spans: Vec<Option<Span>>,
    pub links: LinkRows,
    pub topics: BTreeMap<Topic, Counts>,
    pub all: Counts,
}

impl Tables {
    /// The tables of a run in which nothing happened.
    pub(crate) fn new(alloc: Global, plan: &Plan) -> Result<Tables, AllocError>
        requires { IsInRange plan.now }
        ensures { IfOk result (λ tables. Shows plan.now tables [] []) }
    {
        let rounds = plan.rounds as usize + 1;
        let peers = plan.peers.len();
        Ok(Tables {
            round_ms: plan.round_ms,
            peers: rows(alloc, peers)?,
            rounds: rows(alloc, rounds)?,
            spans: no_spans(alloc, rounds)?,
            links: IndexMap::new(alloc),
            topics: BTreeMap::new(alloc),
            all: no_counts(),
        })
    }

    /// Notes these happenings.
    pub(crate) fn note_all(&mut self, list: &[Happening]) -> Result<(), AllocError>
        ensures { OnOk result ((plan : PlanValue) (hs : List HappeningValue) (sizes : List MeshSize)
            → Shows plan self.old hs sizes → Shows plan self.new (hs ++ list.now) sizes) }
    {
        for happening in list {
            self.note(happening)?;
        }
        Ok(())
    }

    /// Notes a happening, in the row of each table in which it stands.
    fn note(&mut self, happening: &Happening) -> Result<(), AllocError>
        ensures { OnOk result ((plan : PlanValue) (hs : List HappeningValue) (sizes : List MeshSize)
            → Shows plan self.old hs sizes → Shows plan self.new (hs ++ happening.now ∷ []) sizes) }
    {
        let (kind, amount) = (happening.kind, happening.amount);
        self.all.add(kind, amount);
        add_at(&mut self.peers, usize::from(happening.peer.0), kind, amount);
        add_at(
            &mut self.rounds,
            round_at(self.round_ms, happening.at),
            kind,
            amount,
        );
        add_over(&mut self.links, link_of(happening), kind, amount)?;
        add_on(&mut self.topics, &happening.topic, kind, amount)
    }

    /// Notes how many members a mesh had when a peer ended a round.
    pub(crate) fn note_size(&mut self, at: Millis, size: u64)
        ensures { (plan : PlanValue) (hs : List HappeningValue) (sizes : List MeshSize)
            → Shows plan self.old hs sizes → Shows plan self.new hs (sizes ++ (at, size) ∷ []) }
    {
        widen_at(&mut self.spans, round_at(self.round_ms, at), size);
    }
}

/// The round that a moment lies in.
fn round_at(round_ms: u64, at: Millis) -> usize
    ensures { result ≡ round_at round_ms at }
{
    (at.0 / round_ms.max(1)) as usize
}

/// The two ends of the link that it concerns: the peer that the link comes from, and the peer that it leads to.
fn link_of(happening: &Happening) -> Option<(PeerNo, PeerNo)>
    ensures { result ≡ link_of happening.now }
{
    let neighbour = happening.neighbour?;
    if happening.kind.is_of_sender() {
        return Some((happening.peer, neighbour));
    }
    Some((neighbour, happening.peer))
}

/// Adds to the row at a place, if there is one.
fn add_at(rows: &mut Vec<Counts>, place: usize, kind: Kind, amount: u64)
    ensures { rows.new.items ≡ added_at rows.old.items place kind amount }
{
    if let Some(row) = rows.get_mut(place) {
        row.add(kind, amount);
    }
}

/// Adds to the row of a link, if there is a link.
fn add_over(
    rows: &mut LinkRows,
    link: Option<(PeerNo, PeerNo)>,
    kind: Kind,
    amount: u64,
) -> Result<(), AllocError>
    ensures { OnOk result ((p q : PeerNoValue) → link_row rows.new p q
        ≡ (if goes_over p q link then counted (link_row rows.old p q) kind amount else link_row rows.old p q)) }
{
    match link {
        Some(link) => add_on_link(rows, link, kind, amount),
        None => Ok(()),
    }
}

fn add_on_link(
    rows: &mut LinkRows,
    link: (PeerNo, PeerNo),
    kind: Kind,
    amount: u64,
) -> Result<(), AllocError>
    ensures { OnOk result ((p q : PeerNoValue) → link_row rows.new p q
        ≡ (if goes_over p q (Some link) then counted (link_row rows.old p q) kind amount else link_row rows.old p q)) }
{
    match rows.get_mut(&link) {
        Some(row) => {
            row.add(kind, amount);
            Ok(())
        }
        None => {
            rows.insert(link, first_row(kind, amount))?;
            Ok(())
        }
    }
}

/// Returns the row of a link, in which nothing stands where the table has none.
pub(crate) fn row_over(rows: &LinkRows, from: PeerNo, to: PeerNo) -> Counts
    ensures { result ≡ link_row rows.now from to }
{
    match rows.get(&(from, to)) {
        Some(row) => *row,
        None => no_counts(),
    }
}

/// Adds to the row of a topic, if there is a topic.
fn add_on(
    rows: &mut BTreeMap<Topic, Counts>,
    topic: &Option<Topic>,
    kind: Kind,
    amount: u64,
) -> Result<(), AllocError>
    ensures { OnOk result ((t : TopicValue) → topic_row rows.new t
        ≡ (if is_on t topic.now then Some (counted (unwrap_or (topic_row rows.old t) no_counts) kind amount)
        else topic_row rows.old t)) }
{
    match topic {
        Some(topic) => add_on_topic(rows, topic, kind, amount),
        None => Ok(()),
    }
}

fn add_on_topic(
    rows: &mut BTreeMap<Topic, Counts>,
    topic: &Topic,
    kind: Kind,
    amount: u64,
) -> Result<(), AllocError>
    ensures { OnOk result ((t : TopicValue) → topic_row rows.new t
        ≡ (if same_topic topic.now t then Some (counted (unwrap_or (topic_row rows.old t) no_counts) kind amount)
        else topic_row rows.old t)) }
{
    match rows.get_mut(topic) {
        Some(row) => {
            row.add(kind, amount);
            Ok(())
        }
        None => {
            rows.insert(clone_of(topic)?, first_row(kind, amount))?;
            Ok(())
        }
    }
}

/// A row with only this amount of a kind.
fn first_row(kind: Kind, amount: u64) -> Counts
    ensures { result ≡ counted no_counts kind amount }
{
    let mut row = no_counts();
    row.add(kind, amount);
    row
}

/// Widens the span at a place, if there is one.
fn widen_at(spans: &mut Vec<Option<Span>>, place: usize, size: u64)
    ensures { spans.new.items ≡ widened_at spans.old.items place size }
{
    if let Some(span) = spans.get_mut(place) {
        *span = widened(span, &(size as i128));
    }
}

/// This many empty rows.
fn rows(alloc: Global, count: usize) -> Result<Vec<Counts>, AllocError>
    ensures { IfOk result (λ rows. rows.items ≡ empty_rows count) }
{
    let mut rows = Vec::new(alloc);
    for _ in 0..count {
        rows.push(no_counts())?;
    }
    Ok(rows)
}

fn no_spans(alloc: Global, count: usize) -> Result<Vec<Option<Span>>, AllocError>
    ensures { IfOk result (λ spans. spans.items ≡ no_spans count) }
{
    let mut spans = Vec::new(alloc);
    for _ in 0..count {
        spans.push(None)?;
    }
    Ok(spans)
}
