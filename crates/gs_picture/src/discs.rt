//! What is shown of each peer.
ghost use Rattle.std.specs.Prelude.{◌≡◌, [], ◌∷◌, fold, IfOk, reverse, Some};
ghost use Rattle.std.specs.List.{list_any};
ghost use Rattle.gs_rules.specs.Tables.{joined, joined_after, joined_by};
ghost use Rattle.gs_picture.specs.Discs.{class_by, class_of, disc, discs, is_joined, lower, lowest, scores_about, scores_of};

use gs_base::{PeerNo, Topic};
use gs_params::Thresholds;
use gs_plan::Act;
use gs_reach::Chosen;
use gs_report::Finished;
use gs_rules::{Event, StoredEntry};
use std::alloc::{AllocError, Global};

/// The class of the lowest score that a peer is given.
#[derive(Clone, Copy, Debug, PartialEq, Eq)]
pub(crate) enum Class {
    /// 0 or more.
    Fair,
    BelowZero,
    /// It gets and gives no gossip.
    BelowGossip,
    /// It is not published to.
    BelowPublish,
    /// It is not listened to.
    BelowGraylist,
    /// No peer that counts has it as a neighbour at the end.
    Unscored,
}

/// What is shown of a peer.
#[derive(Clone, Copy, Debug, PartialEq, Eq)]
pub(crate) struct Disc {
    pub peer: PeerNo,
    pub class: Class,
    /// Whether it is subscribed to the topic at the end.
    pub subscribed: bool,
}

/// A disc for each peer, by the scores that some peers give.
pub(crate) fn discs(
    alloc: Global,
    thresholds: &Thresholds,
    of: &Chosen,
    peers: &[(PeerNo, Finished)],
    topic: &Topic,
) -> Result<Vec<Disc>, AllocError>
    ensures { IfOk result (λ found. found.items ≡ discs thresholds.now of.now peers.now topic.now) }
{
    let mut found = Vec::with_capacity(alloc, peers.len())?;
    for peer in peers {
        found.push(disc_of(thresholds, of, peers, topic, peer.0))?;
    }
    Ok(found)
}

fn disc_of(
    thresholds: &Thresholds,
    of: &Chosen,
    peers: &[(PeerNo, Finished)],
    topic: &Topic,
    peer: PeerNo,
) -> Disc
    ensures { result ≡ disc thresholds.now of.now peers.now topic.now peer }
{
    Disc {
        peer,
        class: class_of(thresholds, lowest_score(of, peers, peer)),
        subscribed: is_subscribed(peers, topic, peer),
    }
}

/// The lowest score that a neighbour among some peers gives a peer.
fn lowest_score(of: &Chosen, peers: &[(PeerNo, Finished)], peer: PeerNo) -> Option<i128>
    ensures { result ≡ lowest (scores_of of.now peers.now peer) }
{
    let mut so_far = None;
    for giver in peers {
        so_far = lower_by_one(of, so_far, giver, peer);
    }
    so_far
}

fn lower_by_one(
    of: &Chosen,
    so_far: Option<i128>,
    giver: &(PeerNo, Finished),
    peer: PeerNo,
) -> Option<i128>
    ensures { result ≡ fold lower so_far (scores_of of.now (giver.now ∷ []) peer) }
{
    if of.contains(giver.0) {
        return lower_by_all(so_far, giver.1.scores.as_slice(), peer);
    }
    so_far
}

fn lower_by_all(so_far: Option<i128>, scores: &[(PeerNo, i128)], peer: PeerNo) -> Option<i128>
    ensures { result ≡ fold lower so_far (scores_about peer scores.now) }
{
    let mut lowest = so_far;
    for score in scores {
        lowest = lower_by_score(lowest, score, peer);
    }
    lowest
}

fn lower_by_score(so_far: Option<i128>, score: &(PeerNo, i128), peer: PeerNo) -> Option<i128>
    ensures { result ≡ fold lower so_far (scores_about peer (score.now ∷ [])) }
{
    if score.0 != peer {
        return so_far;
    }
    Some(lower(so_far, score.1))
}

fn lower(so_far: Option<i128>, score: i128) -> i128
    ensures { Some result ≡ lower so_far score }
{
    match so_far {
        Some(lowest) => lowest.min(score),
        None => score,
    }
}

fn class_of(thresholds: &Thresholds, lowest: Option<i128>) -> Class
    ensures { result ≡ class_of thresholds.now lowest }
{
    match lowest {
        Some(score) => class_by(thresholds, &score),
        None => Class::Unscored,
    }
}

/// The class of a score in millionths.
fn class_by(thresholds: &Thresholds, score: &i128) -> Class
    ensures { result ≡ class_by thresholds.now score.now }
{
    if *score < i128::from(thresholds.graylist_threshold) {
        return Class::BelowGraylist;
    }
    if *score < i128::from(thresholds.publish_threshold) {
        return Class::BelowPublish;
    }
    if *score < i128::from(thresholds.gossip_threshold) {
        return Class::BelowGossip;
    }
    if *score < 0 {
        return Class::BelowZero;
    }
    Class::Fair
}

fn is_subscribed(peers: &[(PeerNo, Finished)], topic: &Topic, peer: PeerNo) -> bool
    ensures { result ≡ list_any (is_joined topic.now peer) peers.now }
{
    peers.iter().any(|one| is_joined(topic, peer, one))
}

fn is_joined(topic: &Topic, peer: PeerNo, one: &(PeerNo, Finished)) -> bool
    ensures { result ≡ is_joined topic.now peer one.now }
{
    one.0 == peer && joined(topic, one.1.trace.entries())
}

/// Whether a peer is subscribed to a topic after these entries.
fn joined(topic: &Topic, entries: &[StoredEntry]) -> bool
    ensures { result ≡ joined (reverse entries.now) topic.now }
{
    let mut on = false;
    for entry in entries {
        on = joined_after(topic, entry.event(), on);
    }
    on
}

fn joined_after(topic: &Topic, event: &Event, before: bool) -> bool
    ensures { result ≡ joined_after topic.now event.now before }
{
    match event {
        Event::Own(act) => joined_by(topic, act.get(), before),
        _ => before,
    }
}

fn joined_by(topic: &Topic, act: &Act, before: bool) -> bool
    ensures { result ≡ joined_by topic.now act.now before }
{
    match act {
        Act::Subscribe(other) => before || *other == *topic,
        Act::Unsubscribe(other) => before && *other != *topic,
        Act::Publish(_, _) => before,
        Act::Raw(_, _) => before,
        Act::HangUp(_) => before,
    }
}
