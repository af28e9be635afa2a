//! Figures between some peers of a run and others: scores, traffic over links, and places in meshes.
ghost use Rattle.std.specs.Prelude.{◌≡◌, [], ◌∷◌, ◌++◌, fold, map, Some};
ghost use Rattle.gs_counts.specs.Meshes.{span_of, widened};
ghost use Rattle.gs_counts.specs.Rows.{count_at, plus};
ghost use Rattle.gs_figure_sheets.specs.Between.{links_between, lowest_between, only_by, opinions_between, over_between, places_between, places_for, scores_about, scores_between, span_between};
ghost use Rattle.gs_figure_sheets.specs.Rows.{lower};

use crate::span::{lower, widened};
use crate::standing::Standing;
use gs_base::{PeerNo, Topic};
use gs_counts::{Kind, LinkCounts, Span};
use gs_opinions::{Lowest, PairOpinion};
use gs_reach::Chosen;

/// Returns the lowest and the highest score that some peers give some others at the end.
pub(crate) fn span_between(by: &Chosen, about: &Chosen, peers: &[Standing]) -> Option<Span>
    ensures { result ≡ span_between by.now about.now peers.now }
{
    let mut span = None;
    for peer in peers {
        span = widened_by_peer(span, by, about, peer);
    }
    span
}

/// Returns a span, widened by the scores that a peer gives some others, if that peer is chosen.
fn widened_by_peer(span: Option<Span>, by: &Chosen, about: &Chosen, peer: &Standing) -> Option<Span>
    ensures { result ≡ fold widened span (scores_between by.now about.now (peer.now ∷ [])) }
{
    if !by.contains(peer.peer) {
        return span;
    }
    widened_by_all(span, about, peer.remains.scores.as_slice())
}

/// Returns a span, widened by those of these scores that some peers receive.
fn widened_by_all(span: Option<Span>, about: &Chosen, scores: &[(PeerNo, i128)]) -> Option<Span>
    ensures { result ≡ fold widened span (scores_about about.now scores.now) }
{
    let mut wider = span;
    for score in scores {
        wider = widened_by_one(&wider, about, score);
    }
    wider
}

fn widened_by_one(span: &Option<Span>, about: &Chosen, score: &(PeerNo, i128)) -> Option<Span>
    ensures { result ≡ fold widened span.now (scores_about about.now (score.now ∷ [])) }
{
    if !about.contains(score.0) {
        return *span;
    }
    widened(span, &score.1)
}

/// Returns the lowest score that some peers give some others over the run, and when it is first given.
pub(crate) fn lowest_between(by: &Chosen, about: &Chosen, pairs: &[PairOpinion]) -> Option<Lowest>
    ensures { result ≡ lowest_between by.now about.now pairs.now }
{
    let mut lowest = None;
    for pair in pairs {
        lowest = lowered(&lowest, by, about, pair);
    }
    lowest
}

fn lowered(
    lowest: &Option<Lowest>,
    by: &Chosen,
    about: &Chosen,
    pair: &PairOpinion,
) -> Option<Lowest>
    ensures { result
        ≡ fold (λ low x. lower low (Some x.lowest)) lowest.now (opinions_between by.now about.now (pair.now ∷ [])) }
{
    if !(by.contains(pair.by) && about.contains(pair.of)) {
        return *lowest;
    }
    lower(lowest, &Some(pair.lowest))
}

/// Returns the total of a kind over all links from some peers to some others.
pub(crate) fn over_between(from: &Chosen, to: &Chosen, kind: Kind, links: &[LinkCounts]) -> u64
    ensures { result ≡ over_between from.now to.now kind links.now }
{
    let mut sum: u64 = 0;
    for link in links {
        sum = with_link(sum, from, to, kind, link);
    }
    sum
}

fn with_link(sum: u64, from: &Chosen, to: &Chosen, kind: Kind, link: &LinkCounts) -> u64
    ensures { result
        ≡ fold (λ sum x. plus sum (count_at x.counts kind)) sum (links_between from.now to.now (link.now ∷ [])) }
{
    if !(from.contains(link.from) && to.contains(link.to)) {
        return sum;
    }
    sum.saturating_add(link.counts.of(kind))
}

/// Returns how many places the peers `to` hold in the meshes of the peers `from` at the end. A peer holds one place in each
/// mesh that it is in.
pub(crate) fn places_between(from: &Chosen, to: &Chosen, peers: &[Standing]) -> u64
    ensures { result ≡ places_between from.now to.now peers.now }
{
    let mut sum: u64 = 0;
    for peer in peers {
        sum = with_places(sum, from, to, peer);
    }
    sum
}

fn with_places(sum: u64, from: &Chosen, to: &Chosen, peer: &Standing) -> u64
    ensures { result
        ≡ fold (λ sum x. plus sum (places_for to.now x.remains.meshes)) sum (only_by from.now (peer.now ∷ [])) }
{
    if !from.contains(peer.peer) {
        return sum;
    }
    sum.saturating_add(places_for(to, peer.remains.meshes.as_slice()))
}

/// Returns how many places some peers hold in some meshes.
fn places_for(to: &Chosen, members: &[(Topic, PeerNo)]) -> u64
    ensures { result ≡ places_for to.now members.now }
{
    members
        .iter()
        .filter(|member| to.contains(member.1))
        .count() as u64
}
