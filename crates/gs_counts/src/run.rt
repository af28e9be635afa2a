//! What happened in a run, by peer, by link, by topic, by round and in all.
ghost use Rattle.std.specs.Prelude.{◌≡◌, ◌++◌, ◌∷◌, [], ℕ, IfOk, length, List, map, OnOk, Option};
ghost use Rattle.gs_base.specs.Names.{peers_of};
ghost use Rattle.gs_base.specs.declared.names.Topic.{Topic as TopicValue};
ghost use Rattle.gs_plan.specs.Plans.{IsInRange};
ghost use Rattle.gs_rules.specs.Tables.{ascending};
ghost use Rattle.gs_seats.specs.Own.{AreNeighbourhoods};
ghost use Rattle.gs_counts.specs.declared.counts.Counts.{Counts as CountsValue};
ghost use Rattle.gs_counts.specs.declared.happening.Happening.{Happening as HappeningValue};
ghost use Rattle.gs_counts.specs.declared.span.Span.{Span as SpanValue};
ghost use Rattle.gs_counts.specs.Listing.{all_links, by_number, links_by, peer_row, round_row};
ghost use Rattle.gs_counts.specs.Runs.{counts_of, topic_counts};
ghost use Rattle.gs_counts.specs.Standing.{MeshSize, Shows, link_row, row_on, topic_row, topics_in};

use crate::counts::Counts;
use crate::span::Span;
use crate::tables::{LinkRows, Tables, row_over};
use gs_base::{Neighbour, PeerNo, Seq, Topic, clone_of};
use gs_plan::Plan;
use gs_seats::Neighbourhoods;
use std::alloc::{AllocError, Global};
use std::collections::BTreeMap;

/// What happened at a peer.
#[derive(Clone, Copy, Debug, PartialEq, Eq)]
pub struct PeerCounts {
    pub peer: PeerNo,
    pub counts: Counts,
}

/// What happened over the link from one peer to another: what the first sent, and what the second heard from it.
#[derive(Clone, Copy, Debug, PartialEq, Eq)]
pub struct LinkCounts {
    pub from: PeerNo,
    pub to: PeerNo,
    pub counts: Counts,
}

/// What happened on a topic, at all peers.
#[derive(Debug, Drop, PartialEq, Eq)]
pub struct TopicCounts {
    pub topic: Topic,
    pub counts: Counts,
}

/// What happened at all peers in a round, that is, at a moment in the round.
#[derive(Clone, Copy, Debug, PartialEq, Eq)]
pub struct RoundCounts {
    /// Its number. The first round is 0.
    pub round: u64,
    pub counts: Counts,
    /// The sizes of the smallest and the largest mesh of all peers' topics, when the peers ended the round.
    pub members: Option<Span>,
}

/// What happened in a run.
#[derive(Drop)]
pub struct RunCounts {
    /// A row for each peer of the plan, by number.
    pub peers: Seq<PeerCounts>,
    /// A row for each link of the plan's dials, by the peer that it comes from, and then by the one that it leads to.
    pub links: Seq<LinkCounts>,
    /// A row for each topic on which something happened, in the order of their bytes.
    pub topics: Seq<TopicCounts>,
    /// A row for each round, including the last one of the plan. What lies after that is in no row.
    pub rounds: Seq<RoundCounts>,
    /// All that happened.
    pub all: Counts,
}

/// The rows of these tables.
pub(crate) fn rows_of(alloc: Global, plan: &Plan, tables: &Tables) -> Result<RunCounts, AllocError>
    requires range { IsInRange plan.now }
    requires shown { (hs : List HappeningValue) × (sizes : List MeshSize) × Shows plan.now tables.now hs sizes }
    ensures { IfOk result (λ counts. (hs : List HappeningValue) (sizes : List MeshSize)
        → Shows plan.now tables.now hs sizes
        → counts ≡ counts_of plan.now hs sizes) }
{
    let count = plan.peers.len() as u16;
    let peers = peer_rows(alloc, count, &tables.peers)?;
    let links = link_rows(alloc, plan, &tables.links)?;
    let topics = topic_rows(alloc, &tables.topics)?;
    let rounds = round_rows(alloc, &tables.rounds, &tables.spans)?;
    Ok(RunCounts {
        peers,
        links,
        topics,
        rounds,
        all: tables.all,
    })
}

fn peer_rows(alloc: Global, count: u16, rows: &[Counts]) -> Result<Seq<PeerCounts>, AllocError>
    requires { length rows.now ≡ count }
    ensures { IfOk result (λ peers. (row : ℕ → CountsValue)
        → rows.now ≡ by_number row count
        → peers ≡ by_number (peer_row row) count) }
{
    let mut peers = Seq::new(alloc);
    for number in 0..count {
        peers.push(PeerCounts {
            peer: PeerNo(number),
            counts: rows[usize::from(number)],
        })?;
    }
    Ok(peers)
}

fn link_rows(alloc: Global, plan: &Plan, rows: &LinkRows) -> Result<Seq<LinkCounts>, AllocError>
    requires { IsInRange plan.now }
    ensures { IfOk result (λ links. links ≡ all_links plan.now (link_row rows.now)) }
{
    let neighbourhoods = Neighbourhoods::of(alloc, plan)?;
    let links = links_among(alloc, plan, &neighbourhoods, rows)?;
    Ok(links)
}

/// The rows of the links between these neighbours.
fn links_among(
    alloc: Global,
    plan: &Plan,
    neighbourhoods: &Neighbourhoods,
    rows: &LinkRows,
) -> Result<Seq<LinkCounts>, AllocError>
    requires range { IsInRange plan.now }
    requires sorted { AreNeighbourhoods plan.now neighbourhoods.now }
    ensures { IfOk result (λ links. links ≡ all_links plan.now (link_row rows.now)) }
{
    let count = plan.peers.len() as u16;
    let mut links = Seq::new(alloc);
    for number in 0..count {
        let from = PeerNo(number);
        let neighbours = neighbourhoods.neighbours(alloc, plan, from)?;
        list_links(&mut links, &neighbours, from, rows)?;
    }
    Ok(links)
}

/// Lists the links from a peer to these neighbours.
fn list_links(
    links: &mut Seq<LinkCounts>,
    neighbours: &[Neighbour],
    from: PeerNo,
    rows: &LinkRows,
) -> Result<(), AllocError>
    ensures { OnOk result (links.new
        ≡ links.old ++ links_by from (link_row rows.now from) (peers_of neighbours.now)) }
{
    for neighbour in neighbours {
        list_link(links, from, neighbour.peer, rows)?;
    }
    Ok(())
}

fn list_link(
    links: &mut Seq<LinkCounts>,
    from: PeerNo,
    to: PeerNo,
    rows: &LinkRows,
) -> Result<(), AllocError>
    ensures { OnOk result (links.new ≡ links.old ++ links_by from (link_row rows.now from) (to ∷ [])) }
{
    links.push(LinkCounts {
        from,
        to,
        counts: row_over(rows, from, to),
    })?;
    Ok(())
}

fn topic_rows(alloc: Global, rows: &BTreeMap<Topic, Counts>) -> Result<Seq<TopicCounts>, AllocError>
    ensures { IfOk result (λ topics. (hs : List HappeningValue)
        → ((t : TopicValue) → topic_row rows.now t ≡ row_on hs t)
        → topics ≡ map (topic_counts hs) (ascending (topics_in hs))) }
{
    let mut topics = Seq::new(alloc);
    for (topic, counts) in rows {
        topics.push(TopicCounts {
            topic: clone_of(topic)?,
            counts: *counts,
        })?;
    }
    Ok(topics)
}

fn round_rows(
    alloc: Global,
    rows: &[Counts],
    spans: &[Option<Span>],
) -> Result<Seq<RoundCounts>, AllocError>
    requires { length spans.now ≡ length rows.now }
    ensures { IfOk result (λ rounds. (count : ℕ) (row : ℕ → CountsValue) (span : ℕ → Option SpanValue)
        → rows.now ≡ by_number row count
        → spans.now ≡ by_number span count
        → rounds ≡ by_number (round_row row span) count) }
{
    let mut rounds = Seq::new(alloc);
    for place in 0..rows.len() {
        rounds.push(RoundCounts {
            round: place as u64,
            counts: rows[place],
            members: spans[place],
        })?;
    }
    Ok(rounds)
}
