//! What others sent to each peer, and how they score it.
ghost use Rattle.std.specs.Prelude.{◌≡◌, [], ◌∷◌, if◌then◌else◌, IfOk, OnOk};
ghost use Rattle.gs_base.specs.Names.{same_peer};
ghost use Rattle.gs_base.specs.declared.names.PeerNo.{PeerNo as PeerNoValue};
ghost use Rattle.gs_counts.specs.Listing.{links_to};
ghost use Rattle.gs_figure_sheets.specs.Between.{opinions_between, scores_about, scores_between};
ghost use Rattle.gs_figure_sheets.specs.Lines.{all_links, just};
ghost use Rattle.gs_figure_sheets.specs.Received.{judged, nothing_received, received_from, received_in, received_with, scored, sent_over};

use crate::known::Known;
use crate::span::{lower, widened};
use crate::standing::Standing;
use gs_base::PeerNo;
use gs_counts::{Counts, Kind, LinkCounts, Span};
use gs_opinions::{Lowest, PairOpinion};
use gs_reach::Chosen;
use indexmap::IndexMap;
use std::alloc::{AllocError, Global};

/// What others sent to a peer, and how they score it.
#[derive(Clone, Copy, Debug, PartialEq, Eq)]
pub struct Received {
    /// How many bytes neighbours put on their links to the peer.
    pub bytes: u64,
    /// How many of these are raw bytes, which the script put on a link.
    pub raw_bytes: u64,
    /// The lowest and the highest score that it is given at the end.
    pub scores: Option<Span>,
    /// The lowest score that it is given over the run, and when it is first given.
    pub lowest: Option<Lowest>,
}

/// What each peer received. Nothing was received by a peer that has no row.
pub(crate) type ReceivedRows = IndexMap<PeerNo, Received>;

/// Something that a peer receives.
#[derive(Clone, Copy, Debug)]
pub(crate) enum Gift<'a> {
    /// What goes over a link to it.
    Sent(&'a Counts),
    /// A score at the end.
    Score(i128),
    /// The lowest score that a peer gives it over the run.
    Lowest(Lowest),
}

impl Received {
    fn nothing() -> Received
        ensures { result ≡ nothing_received }
    {
        Received {
            bytes: 0,
            raw_bytes: 0,
            scores: None,
            lowest: None,
        }
    }

    fn with(&self, gift: Gift<'_>) -> Received
        ensures { result ≡ received_with self.now gift.entry }
    {
        match gift {
            Gift::Sent(counts) => Received {
                bytes: self.bytes.saturating_add(counts.of(Kind::BytesSent)),
                raw_bytes: self.raw_bytes.saturating_add(counts.of(Kind::RawBytesSent)),
                ..*self
            },
            Gift::Score(score) => Received {
                scores: widened(&self.scores, &score),
                ..*self
            },
            Gift::Lowest(lowest) => Received {
                lowest: lower(&self.lowest, &Some(lowest)),
                ..*self
            },
        }
    }
}

/// Returns what each peer received. Only the traces of some peers count for scores.
///
/// # Errors
/// `AllocError` when out of memory.
pub(crate) fn received_by(
    alloc: Global,
    known: &Known,
    among: &Chosen,
    peers: &[Standing],
) -> Result<ReceivedRows, AllocError>
    ensures { IfOk result (λ rows. (p : PeerNoValue)
        → received_in rows p ≡ received_from known.now among.now peers.now p) }
{
    let mut rows = IndexMap::new(alloc);
    note_links(&mut rows, known.all_links())?;
    note_scores(&mut rows, among, peers)?;
    note_opinions(&mut rows, among, known.opinions.pairs.as_slice())?;
    Ok(rows)
}

/// Returns what a peer received.
pub(crate) fn received_in(rows: &ReceivedRows, peer: PeerNo) -> Received
    ensures { result ≡ received_in rows.now peer }
{
    match rows.get(&peer) {
        Some(received) => *received,
        None => Received::nothing(),
    }
}

/// Notes that a peer receives something.
fn note(rows: &mut ReceivedRows, peer: PeerNo, gift: Gift<'_>) -> Result<(), AllocError>
    ensures { OnOk result ((p : PeerNoValue) → received_in rows.new p
        ≡ (if same_peer peer p then received_with (received_in rows.old p) gift.entry else received_in rows.old p)) }
{
    match rows.get_mut(&peer) {
        Some(received) => {
            *received = received.with(gift);
            Ok(())
        }
        None => {
            rows.insert(peer, Received::nothing().with(gift))?;
            Ok(())
        }
    }
}

/// Notes what goes over these links.
fn note_links(rows: &mut ReceivedRows, links: &[LinkCounts]) -> Result<(), AllocError>
    ensures { OnOk result ((p : PeerNoValue)
        → received_in rows.new p ≡ sent_over (received_in rows.old p) (links_to p links.now)) }
{
    for link in links {
        note_link(rows, link)?;
    }
    Ok(())
}

fn note_link(rows: &mut ReceivedRows, link: &LinkCounts) -> Result<(), AllocError>
    ensures { OnOk result ((p : PeerNoValue) → received_in rows.new p
        ≡ (if same_peer link.now.to p
        then sent_over (received_in rows.old p) (link.now ∷ [])
        else received_in rows.old p)) }
{
    note(rows, link.to, Gift::Sent(&link.counts))
}

/// Notes what the peers whose traces count score others at the end.
fn note_scores(
    rows: &mut ReceivedRows,
    among: &Chosen,
    peers: &[Standing],
) -> Result<(), AllocError>
    ensures { OnOk result ((p : PeerNoValue)
        → received_in rows.new p ≡ scored (received_in rows.old p) (scores_between among.now (just p) peers.now)) }
{
    for peer in peers {
        if among.contains(peer.peer) {
            note_given(rows, peer.remains.scores.as_slice())?;
        }
    }
    Ok(())
}

/// Notes the scores that one peer gives.
fn note_given(rows: &mut ReceivedRows, scores: &[(PeerNo, i128)]) -> Result<(), AllocError>
    ensures { OnOk result ((p : PeerNoValue)
        → received_in rows.new p ≡ scored (received_in rows.old p) (scores_about (just p) scores.now)) }
{
    for score in scores {
        note_score(rows, score)?;
    }
    Ok(())
}

fn note_score(rows: &mut ReceivedRows, score: &(PeerNo, i128)) -> Result<(), AllocError>
    ensures { OnOk result ((p : PeerNoValue) → received_in rows.new p
        ≡ (if same_peer score.now.0 p
        then scored (received_in rows.old p) (score.now.1 ∷ [])
        else received_in rows.old p)) }
{
    note(rows, score.0, Gift::Score(score.1))
}

/// Notes the lowest scores over the run that are given by peers whose traces count.
fn note_opinions(
    rows: &mut ReceivedRows,
    among: &Chosen,
    pairs: &[PairOpinion],
) -> Result<(), AllocError>
    ensures { OnOk result ((p : PeerNoValue)
        → received_in rows.new p ≡ judged (received_in rows.old p) (opinions_between among.now (just p) pairs.now)) }
{
    for pair in pairs {
        if among.contains(pair.by) {
            note(rows, pair.of, Gift::Lowest(pair.lowest))?;
        }
    }
    Ok(())
}
