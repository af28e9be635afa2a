//! The rows of figures: for peers and groups, for rounds, for topics and for links.
ghost use Rattle.std.specs.Prelude.{◌≡◌, [], ◌∷◌, ◌++◌, codes, IfOk, List, map, OnOk, option_map};
ghost use Rattle.gs_reach.specs.declared.chosen.Chosen.{Chosen as ChosenValue};
ghost use Rattle.gs_figure_sheets.specs.Received.{received_from};
ghost use Rattle.gs_figure_sheets.specs.declared.standing.Standing.{Standing as StandingValue};
ghost use Rattle.gs_figure_sheets.specs.declared.figures.Label.TheVariants.{Named};
ghost use Rattle.gs_figure_sheets.specs.Lines.{all_line, figures_of_peers, link_line, links_at, named_line, party_line, peer_figures, peer_line, peer_lines, point, round_figures, round_line, round_with, round_without, topic_line};

use crate::figures::{Label, Line, PeerFigures, RowFigures, joined_of};
use crate::known::Known;
use crate::party::Party;
use crate::received::{Received, received_by, received_in};
use crate::standing::Standing;
use gs_base::{PeerNo, Seq};
use gs_counts::{LinkCounts, RoundCounts, Span, TopicCounts};
use gs_opinions::{Opinions, RoundOpinions};
use gs_plan::Plan;
use gs_reach::Chosen;
use gs_report::name_of;
use gs_sheets::bytes_of;
use std::alloc::{AllocError, Global};

// ---- peers

/// Returns the figures of each peer whose trace counts.
///
/// # Errors
/// `AllocError` when out of memory.
pub(crate) fn figures_of_peers(
    alloc: Global,
    known: &Known,
    among: &Chosen,
    peers: &[Standing],
) -> Result<Vec<PeerFigures>, AllocError>
    ensures { IfOk result (λ rows. rows.items ≡ figures_of_peers known.now among.now peers.now) }
{
    let received = received_by(alloc, known, among, peers)?;
    let mut rows = Vec::new(alloc);
    for peer in peers {
        if among.contains(peer.peer) {
            let received = received_in(&received, peer.peer);
            rows.push(peer_figures(known, &received, peer))?;
        }
    }
    Ok(rows)
}

fn peer_figures(known: &Known, received: &Received, peer: &Standing) -> PeerFigures
    ensures { (among : ChosenValue) (peers : List StandingValue)
        → received.now ≡ received_from known.now among peers peer.now.peer
        → result ≡ peer_figures known.now among peers peer.now }
{
    PeerFigures {
        peer: peer.peer,
        figures: RowFigures {
            counts: known.counts_of_peer(peer.peer),
            bytes_heard: received.bytes,
            raw_bytes_heard: received.raw_bytes,
            meshes: peer.meshes,
            scores: received.scores,
            lowest: received.lowest,
        },
    }
}

/// Returns the rows of peers, then the rows of groups, and last the row of all peers together.
///
/// # Errors
/// `AllocError` when out of memory.
pub(crate) fn peer_lines(
    alloc: Global,
    plan: &Plan,
    parties: &[Party],
    rows: &[PeerFigures],
) -> Result<Seq<Line>, AllocError>
    ensures { IfOk result (λ lines. lines ≡ peer_lines plan.now parties.now rows.now) }
{
    let mut lines = Seq::new(alloc);
    push_peers(alloc, &mut lines, plan, rows)?;
    push_parties(alloc, &mut lines, parties, rows)?;
    lines.push(all_line(alloc, rows)?)?;
    Ok(lines)
}

fn push_peers(
    alloc: Global,
    lines: &mut Seq<Line>,
    plan: &Plan,
    rows: &[PeerFigures],
) -> Result<(), AllocError>
    ensures { OnOk result (lines.new ≡ lines.old ++ map (peer_line plan.now) rows.now) }
{
    for row in rows {
        lines.push(peer_line(alloc, plan, row)?)?;
    }
    Ok(())
}

fn push_parties(
    alloc: Global,
    lines: &mut Seq<Line>,
    parties: &[Party],
    rows: &[PeerFigures],
) -> Result<(), AllocError>
    ensures { OnOk result (lines.new ≡ lines.old ++ map (party_line rows.now) parties.now) }
{
    for party in parties {
        lines.push(party_line(alloc, rows, party)?)?;
    }
    Ok(())
}

fn peer_line(alloc: Global, plan: &Plan, row: &PeerFigures) -> Result<Line, AllocError>
    ensures { IfOk result (λ line. line ≡ peer_line plan.now row.now) }
{
    named_line(alloc, name_of(plan, row.peer).as_bytes(), Some(row.figures))
}

/// Returns a row with a name as its label.
fn named_line(alloc: Global, name: &[u8], figures: Option<RowFigures>) -> Result<Line, AllocError>
    ensures { IfOk result (λ line. line ≡ named_line name.now figures) }
{
    let name = bytes_of(alloc, name)?;
    let labels = Seq::only(alloc, Label::Named(name))?;
    Ok(Line::of(alloc, labels, figures))
}

/// Returns the row of a group: the rows of its peers, joined, if there are any.
fn party_line(alloc: Global, rows: &[PeerFigures], party: &Party) -> Result<Line, AllocError>
    ensures { IfOk result (λ line. line ≡ party_line rows.now party.now) }
{
    let name = bracketed(alloc, party.name.as_slice())?;
    named_line(alloc, &name, joined_of(&party.told, rows))
}

fn bracketed(alloc: Global, name: &[u8]) -> Result<Vec<u8>, AllocError>
    ensures { IfOk result (λ text. text.items ≡ codes "(" ++ name.now ++ codes ")") }
{
    let mut text = Vec::new(alloc);
    text.push(b'(')?;
    text.extend_from_slice(name)?;
    text.push(b')')?;
    Ok(text)
}

/// Returns the row of all peers: their rows, joined, if there are any.
fn all_line(alloc: Global, rows: &[PeerFigures]) -> Result<Line, AllocError>
    ensures { IfOk result (λ line. line ≡ all_line rows.now) }
{
    named_line(alloc, b"(all)", joined_of(&Chosen::Any, rows))
}

// ---- rounds

/// Returns the rows of rounds.
///
/// # Errors
/// `AllocError` when out of memory.
pub(crate) fn round_lines(
    alloc: Global,
    opinions: &Opinions,
    rounds: &[RoundCounts],
) -> Result<Seq<Line>, AllocError>
    ensures { IfOk result (λ lines. lines ≡ map (round_line opinions.now) rounds.now) }
{
    let mut lines = Seq::new(alloc);
    for round in rounds {
        lines.push(round_line(alloc, opinions, round)?)?;
    }
    Ok(lines)
}

fn round_line(alloc: Global, opinions: &Opinions, round: &RoundCounts) -> Result<Line, AllocError>
    ensures { IfOk result (λ line. line ≡ round_line opinions.now round.now) }
{
    match opinions.rounds.as_slice().get(round.round as usize) {
        Some(given) => round_with(alloc, round, given),
        None => round_without(alloc, round),
    }
}

/// Returns the row of a round, with the scores that were given in it.
fn round_with(alloc: Global, round: &RoundCounts, given: &RoundOpinions) -> Result<Line, AllocError>
    ensures { IfOk result (λ line. line ≡ round_with round.now given.now) }
{
    let labels = Seq::only(alloc, Label::Numbered(round.round))?;
    let groups = scores_in(alloc, given.groups.as_slice())?;
    Ok(Line {
        labels,
        figures: Some(round_figures(round, &point(&given.lowest))),
        groups,
    })
}

fn round_without(alloc: Global, round: &RoundCounts) -> Result<Line, AllocError>
    ensures { IfOk result (λ line. line ≡ round_without round.now) }
{
    let labels = Seq::only(alloc, Label::Numbered(round.round))?;
    Ok(Line::of(alloc, labels, Some(round_figures(round, &None))))
}

fn round_figures(round: &RoundCounts, scores: &Option<Span>) -> RowFigures
    ensures { result ≡ round_figures round.now scores.now }
{
    RowFigures {
        counts: round.counts,
        bytes_heard: 0,
        raw_bytes_heard: 0,
        meshes: round.members,
        scores: *scores,
        lowest: None,
    }
}

/// Returns a span of one value, if there is one.
fn point(value: &Option<i128>) -> Option<Span>
    ensures { result ≡ option_map point value.now }
{
    match value {
        Some(value) => Some(Span {
            lowest: *value,
            highest: *value,
        }),
        None => None,
    }
}

/// Returns a copy of these scores.
fn scores_in(alloc: Global, scores: &[Option<i128>]) -> Result<Seq<Option<i128>>, AllocError>
    ensures { IfOk result (λ list. list ≡ scores.now) }
{
    let mut list = Seq::new(alloc);
    for score in scores {
        list.push(*score)?;
    }
    Ok(list)
}

// ---- topics and links

/// Returns the rows of topics.
///
/// # Errors
/// `AllocError` when out of memory.
pub(crate) fn topic_lines(alloc: Global, topics: &[TopicCounts]) -> Result<Seq<Line>, AllocError>
    ensures { IfOk result (λ lines. lines ≡ map topic_line topics.now) }
{
    let mut lines = Seq::new(alloc);
    for topic in topics {
        lines.push(topic_line(alloc, topic)?)?;
    }
    Ok(lines)
}

fn topic_line(alloc: Global, topic: &TopicCounts) -> Result<Line, AllocError>
    ensures { IfOk result (λ line. line ≡ topic_line topic.now) }
{
    named_line(
        alloc,
        topic.topic.0.as_slice(),
        Some(RowFigures::only_counts(topic.counts)),
    )
}

/// Returns the rows of those links that have at least one end whose trace counts.
///
/// # Errors
/// `AllocError` when out of memory.
pub(crate) fn link_lines(
    alloc: Global,
    plan: &Plan,
    among: &Chosen,
    links: &[LinkCounts],
) -> Result<Seq<Line>, AllocError>
    ensures { IfOk result (λ lines. lines ≡ map (link_line plan.now) (links_at among.now links.now)) }
{
    let mut lines = Seq::new(alloc);
    for link in links {
        if among.contains(link.from) || among.contains(link.to) {
            lines.push(link_line(alloc, plan, link)?)?;
        }
    }
    Ok(lines)
}

fn link_line(alloc: Global, plan: &Plan, link: &LinkCounts) -> Result<Line, AllocError>
    ensures { IfOk result (λ line. line ≡ link_line plan.now link.now) }
{
    let mut labels = Seq::new(alloc);
    push_label(alloc, &mut labels, name_of(plan, link.from).as_bytes())?;
    push_label(alloc, &mut labels, name_of(plan, link.to).as_bytes())?;
    let figures = RowFigures::only_counts(link.counts);
    Ok(Line::of(alloc, labels, Some(figures)))
}

fn push_label(alloc: Global, labels: &mut Seq<Label>, name: &[u8]) -> Result<(), AllocError>
    ensures { OnOk result (labels.new ≡ labels.old ++ Named name.now ∷ []) }
{
    labels.push(Label::Named(bytes_of(alloc, name)?))
}
